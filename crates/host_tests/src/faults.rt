use crate::stores::{INPUT, REPORT, Trickle, render, run_words, session_with, store};
use std::test::Fail;
use vh_files::{MemFiles, MemSay, Op};
use vh_host::{Place, Status};

const SESSION: Status = Status::ReadFault(Place::Session);

const INPUT_FAULT: Status = Status::ReadFault(Place::Input);

const OUTPUT: Status = Status::WriteFault(Place::Output);

#[test]
fn each_call_fails_in_turn(rt: HostRuntime) -> Result<(), Fail> {
    let alloc = rt.alloc();
    let rows = [
        (Op::Size, 1, SESSION, None, "failed read session\n"),
        (Op::Size, 2, INPUT_FAULT, None, "failed read input\n"),
        (Op::Size, 3, Status::Ok, Some(50), ""),
        (Op::Read, 1, SESSION, None, "failed read session\n"),
        (Op::Read, 2, INPUT_FAULT, None, "failed read input\n"),
        (Op::Read, 3, INPUT_FAULT, None, "failed read input\n"),
        (Op::Read, 4, INPUT_FAULT, None, "failed read input\n"),
        (Op::Read, 5, INPUT_FAULT, None, "failed read input\n"),
        (Op::Read, 6, Status::Ok, Some(50), ""),
        (Op::Create, 1, OUTPUT, None, "failed write output\n"),
        (Op::Create, 2, Status::Ok, Some(50), ""),
        (Op::Append, 1, OUTPUT, Some(0), "failed write output\n"),
        (Op::Append, 2, OUTPUT, Some(44), "failed write output\n"),
        (Op::Append, 3, OUTPUT, Some(46), "failed write output\n"),
        (Op::Append, 4, OUTPUT, Some(48), "failed write output\n"),
        (Op::Append, 5, Status::Ok, Some(50), ""),
    ];
    for (op, number, status, size, said) in rows {
        let mut files = store(alloc, session_with(alloc, 4, "pattern 1")?, INPUT)?;
        files.fail(alloc, op, number)?;
        let mut say = MemSay::new(alloc)?;
        assert_eq!(rt;
            render(&rt, alloc, &mut files, &mut say)?,
            status,
            "{op:?} {number}"
        );
        assert_eq!(rt;
            files.get("out.wav"),
            size.and_then(|n| INPUT.get(..n)),
            "{op:?} {number}"
        );
        if !said.is_empty() {
            assert_eq!(rt; say.said(), said.as_bytes(), "{op:?} {number}");
        }
    }
    Ok(())
}

#[test]
fn nothing_can_be_said(rt: HostRuntime) -> Result<(), Fail> {
    let alloc = rt.alloc();
    let mut files = store(alloc, session_with(alloc, 9, "")?, INPUT)?;
    let mut say = MemSay::new(alloc)?;
    say.fail(alloc, 1)?;
    assert_eq!(rt;
        render(&rt, alloc, &mut files, &mut say)?,
        Status::WriteFault(Place::Report)
    );
    assert_eq!(rt; files.get("out.wav"), Some(INPUT));
    assert_eq!(rt; say.said(), b"".as_slice());
    assert_eq!(rt; render(&rt, alloc, &mut files, &mut say)?, Status::Ok);
    assert_eq!(rt; say.said(), REPORT.as_bytes());
    let mut none = MemFiles::new(alloc)?;
    let mut say = MemSay::new(alloc)?;
    say.fail(alloc, 1)?;
    assert_eq!(rt; render(&rt, alloc, &mut none, &mut say)?, SESSION);
    assert_eq!(rt; say.said(), b"".as_slice());
    Ok(())
}

#[test]
fn one_byte_at_a_time(rt: HostRuntime) -> Result<(), Fail> {
    let alloc = rt.alloc();
    let mut files: Trickle<MemFiles> = Trickle {
        files: store(alloc, session_with(alloc, 4, "pattern 2")?, INPUT)?,
    };
    let mut say = MemSay::new(alloc)?;
    assert_eq!(rt; render(&rt, alloc, &mut files, &mut say)?, Status::Ok);
    assert_eq!(rt; files.files.get("out.wav"), Some(INPUT));
    assert_eq!(rt; say.said().get(26..35), Some(b"pieces 2\n".as_slice()));
    Ok(())
}

#[test]
fn a_journals_calls_fail_in_turn(rt: HostRuntime) -> Result<(), Fail> {
    let alloc = rt.alloc();
    let journal = "vsthost journal 1\n0 0 0 begin a 0\n0 0 1 perform a 0 0\nclose\n";
    let fault = Status::ReadFault(Place::Journal);
    let rows = [
        (Op::Size, 3, fault, None),
        (Op::Read, 6, fault, None),
        (Op::Read, 7, Status::Ok, Some(50)),
        (Op::Append, 1, OUTPUT, Some(0)),
    ];
    for (op, number, status, size) in rows {
        let mut files = store(alloc, session_with(alloc, 9, "")?, INPUT)?;
        files.put(alloc, "j", Vec::from_slice(alloc, journal.as_bytes())?)?;
        files.fail(alloc, op, number)?;
        let mut say = MemSay::new(alloc)?;
        assert_eq!(rt;
            run_words(
                &rt,
                alloc,
                "replay s in.wav out.wav j",
                &mut files,
                &mut say
            )?,
            status,
            "{op:?} {number}"
        );
        assert_eq!(rt;
            files.get("out.wav").map(<[u8]>::len),
            size,
            "{op:?} {number}"
        );
    }
    Ok(())
}
