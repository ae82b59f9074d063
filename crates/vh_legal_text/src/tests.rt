use super::{laws, read_back};
use std::alloc::Global;
use std::test::Fail;
use vh_ids::Tuid;
use vh_journal::Entry;
use vh_legal::is_legal;
use vh_params::Command::{Begin, End, Tell};
use vh_params::{
    CAN_AUTOMATE, ClassInfo, Classes, Command, Label, ParamInfo, ParamTable, UnitInfo, Words,
};
use vh_session::{Session, read};

/// A session of 192 frames in blocks of 64, with a node of one parameter, and two editors.
fn session(alloc: Global) -> Result<Session, Fail> {
    let level = ParamInfo {
        id: 0,
        title: Label::new(b"Level"),
        units: Label::new(b""),
        steps: 0,
        first: 0,
        unit: 0,
        flags: CAN_AUTOMATE,
    };
    let mut list = Vec::new(alloc);
    list.push(ClassInfo {
        name: Label::new(b"gain"),
        component: Tuid([1; 16]),
        controller: Tuid([2; 16]),
        aux: false,
        params: ParamTable::new(alloc, &[level], &[UnitInfo::root(Label::new(b"Root"))])?,
    })?;
    let classes = Classes::new(alloc, list)?;
    let text =
        "vsthost session 1\nlength 192\nchannels 1\nbits 16\npattern 64\nnode a gain\neditor 0\nbegin a 0\nhold a\nend a 0\neditor 1\ntell a 7 4294967295";
    Ok(read(alloc, text.as_bytes(), &classes)?)
}

const fn entry(sample: u32, editor: u32, seq: u32, command: Command) -> Entry {
    Entry {
        sample,
        editor,
        seq,
        command,
    }
}

#[test]
fn a_legal_journal_is_read_back(rt: HostRuntime) -> Result<(), Fail> {
    let alloc = rt.alloc();
    let session = session(alloc)?;
    let tell = Tell {
        node: 0,
        words: Words::new(&[7, 4_294_967_295]),
    };
    let entries = [
        entry(0, 0, 0, Begin { node: 0, id: 0 }),
        entry(64, 1, 0, tell),
        entry(192, 0, 1, End { node: 0, id: 0 }),
    ];
    assert!(rt; is_legal(alloc, &session, &entries)?);
    let journal = read_back(alloc, &session, &entries)?;
    assert_eq!(rt; journal.entries.as_slice(), entries.as_slice());
    laws::legal_reads_back();
    Ok(())
}
