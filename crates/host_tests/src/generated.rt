//! Renderings that are drawn from a number.

use crate::stores::run_words;
use std::alloc::{AllocError, Global};
use std::process::Abort;
use std::test::Fail;
use vh_files::{MemFiles, MemSay};
use vh_host::{Place, Status};

/// What `gen` says of the number of this word.
fn said_of(rt: &impl Abort, alloc: Global, word: &str) -> Result<Vec<u8>, AllocError> {
    let mut files = MemFiles::new(alloc)?;
    let mut say = MemSay::new(alloc)?;
    let mut line = String::from_str(alloc, "gen ")?;
    line.push_str(word)?;
    let _ = run_words(rt, alloc, line.as_str(), &mut files, &mut say)?;
    Vec::from_slice(alloc, say.said())
}

#[test]
fn seven_has_31_nodes(rt: HostRuntime) -> Result<(), Fail> {
    let alloc = rt.alloc();
    let said = said_of(&rt, alloc, "7")?;
    assert!(rt;
        said.as_slice()
            .starts_with(b"vsthost gen 7\nnodes 31\nentries ")
    );
    assert!(rt; said.as_slice().ends_with(b"\nclose\n"));
    assert_eq!(rt; said_of(&rt, alloc, "007")?, said);
    Ok(())
}

#[test]
fn other_words_are_refused(rt: HostRuntime) -> Result<(), Fail> {
    let alloc = rt.alloc();
    for word in ["4294967296", "00000000007", "-1", "7 7", ""] {
        let said = said_of(&rt, alloc, word)?;
        assert_eq!(rt; said.as_slice(), b"refused usage\n".as_slice(), "{word}");
    }
    Ok(())
}

#[test]
fn a_summary_that_cannot_be_said_is_the_reports_fault(rt: HostRuntime) -> Result<(), Fail> {
    let alloc = rt.alloc();
    let mut files = MemFiles::new(alloc)?;
    let mut say = MemSay::new(alloc)?;
    say.fail(alloc, 1)?;
    assert_eq!(rt;
        run_words(&rt, alloc, "gen 1", &mut files, &mut say)?,
        Status::WriteFault(Place::Report)
    );
    Ok(())
}
