use crate::runs::{INPUT, LIVE, Open, live, store};
use std::test::Fail;
use vh_files::{MemSay, Op};
use vh_host::{Place, Status};

const SESSION: Status = Status::ReadFault(Place::Session);

const INPUT_FAULT: Status = Status::ReadFault(Place::Input);

const OUTPUT: Status = Status::WriteFault(Place::Output);

const JOURNAL: Status = Status::WriteFault(Place::Journal);

/// After a call of the store that fails, the samples have so many bytes, the journal is there or not, and everything that
/// was made is ended.
#[test]
fn each_call_fails_in_turn(rt: HostRuntime) -> Result<(), Fail> {
    let alloc = rt.alloc();
    let rows = [
        (Op::Read, 1, SESSION, None, None),
        (Op::Read, 2, INPUT_FAULT, None, None),
        (Op::Read, 5, INPUT_FAULT, None, None),
        (Op::Create, 1, OUTPUT, None, None),
        (Op::Append, 1, OUTPUT, Some(0), None),
        (Op::Append, 3, OUTPUT, Some(46), None),
        (Op::Create, 2, JOURNAL, Some(50), None),
        (Op::Append, 5, JOURNAL, Some(50), Some(0)),
        (Op::Append, 6, Status::Ok, Some(50), Some(40)),
    ];
    for (op, number, status, samples, entries) in rows {
        let mut files = store(alloc, "3", "editor 0\nbegin a 0\n")?;
        files.fail(alloc, op, number)?;
        let mut say = MemSay::new(alloc)?;
        let line = "live s in.wav out.wav journal block=1";
        let ended = live(&rt, alloc, line, &mut files, &mut say, &Open)?;
        assert!(rt; ended == status, "{op:?} {number}");
        assert!(rt;
            files.get("out.wav") == samples.and_then(|n| INPUT.get(..n)),
            "{op:?} {number}"
        );
        assert!(rt;
            files.get("journal").map(<[u8]>::len) == entries,
            "{op:?} {number}"
        );
    }
    Ok(())
}

#[test]
fn nothing_can_be_said(rt: HostRuntime) -> Result<(), Fail> {
    let alloc = rt.alloc();
    let mut files = store(alloc, "3", "editor 0\nbegin a 0\n")?;
    let mut say = MemSay::new(alloc)?;
    say.fail(alloc, 1)?;
    let status = live(&rt, alloc, LIVE, &mut files, &mut say, &Open)?;
    assert!(rt; status == Status::WriteFault(Place::Report) && say.said().is_empty());
    assert!(rt; files.get("out.wav") == Some(INPUT));
    assert!(rt; files.get("journal").map(<[u8]>::len) == Some(40));
    Ok(())
}
