//! A live rendering for which any one call finds no memory. `rt try --test --fail-alloc N` makes the Nth fail.

use crate::runs::{INPUT, LIVE, Open, live, store};
use std::test::Fail;
use vh_files::MemSay;
use vh_host::Status;

/// Where there was no memory nothing was written but a front of the files, and all that was made is ended. The next
/// rendering of the same store is whole.
#[test]
fn where_there_was_no_memory_it_can_be_run_again(rt: HostRuntime) -> Result<(), Fail> {
    let alloc = rt.alloc();
    let mut files = store(
        alloc,
        "3",
        "editor 0\nhold a\nbegin a 0\neditor 1\ntell a\n",
    )?;
    let mut say = MemSay::new(alloc)?;
    let status = live(&rt, alloc, LIVE, &mut files, &mut say, &Open)?;
    if status == Status::Memory {
        assert!(rt; files.get("out.wav").is_none() && files.get("journal").is_none());
    }
    if status != Status::Ok {
        let status = live(&rt, alloc, LIVE, &mut files, &mut say, &Open)?;
        assert!(rt; status == Status::Ok);
    }
    assert!(rt; files.get("out.wav") == Some(INPUT) && files.get("journal").is_some());
    Ok(())
}
