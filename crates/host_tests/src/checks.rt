use crate::stores::run_words;
use std::test::Fail;
use vh_files::{MemFiles, MemSay, Op};
use vh_host::{Place, Status};

/// A session of four nodes.
const NODES: &str =
    "vsthost session 1\nlength 8\nchannels 1\nbits 16\npattern 64\nnode g gain\nnode e gate\nnode m meter\nnode d delay\n";

#[test]
fn the_calls_of_a_check_fail_in_turn(rt: HostRuntime) -> Result<(), Fail> {
    let alloc = rt.alloc();
    let rows = [
        (
            Op::Size,
            1,
            Status::ReadFault(Place::Session),
            "failed read session\n",
        ),
        (Op::Size, 2, Status::Ok, NODES),
        (
            Op::Read,
            1,
            Status::ReadFault(Place::Session),
            "failed read session\n",
        ),
        (Op::Create, 1, Status::Ok, NODES),
        (Op::Append, 1, Status::Ok, NODES),
    ];
    for (op, number, status, said) in rows {
        let mut files = MemFiles::new(alloc)?;
        files.put(alloc, "s", Vec::from_slice(alloc, NODES.as_bytes())?)?;
        files.fail(alloc, op, number)?;
        let mut say = MemSay::new(alloc)?;
        assert_eq!(rt;
            run_words(&rt, alloc, "check s", &mut files, &mut say)?,
            status,
            "{op:?} {number}"
        );
        assert_eq!(rt; say.said(), said.as_bytes(), "{op:?} {number}");
    }
    let mut files = MemFiles::new(alloc)?;
    files.put(alloc, "s", Vec::from_slice(alloc, NODES.as_bytes())?)?;
    let mut say = MemSay::new(alloc)?;
    say.fail(alloc, 1)?;
    assert_eq!(rt;
        run_words(&rt, alloc, "check s", &mut files, &mut say)?,
        Status::WriteFault(Place::Report)
    );
    assert_eq!(rt;
        run_words(&rt, alloc, "check nosuch", &mut files, &mut say)?,
        Status::ReadFault(Place::Session)
    );
    Ok(())
}
