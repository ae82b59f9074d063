use crate::nodes::nodes;
use std::test::Fail;
use vh_journal::{Entry, Journal};
use vh_journal_text::{JournalFault, JournalKind, print, read};
use vh_num::Refusal;
use vh_params::{Command, Words};

/// What a text is refused for.
fn refused(answer: Result<Journal, Refusal<JournalFault>>) -> Option<(u32, JournalKind)> {
    match answer {
        Err(Refusal::Fault(fault)) => Some((fault.line, fault.kind)),
        Err(Refusal::Memory) => None,
        Ok(_) => None,
    }
}

#[test]
fn faults_with_their_lines(rt: HostRuntime) -> Result<(), Fail> {
    let alloc = rt.alloc();
    let nodes = nodes(&rt, alloc)?;
    let rows = [
        ("", 2, JournalKind::NoClose),
        ("close x", 2, JournalKind::BadLine),
        ("close\n\n", 3, JournalKind::BadLine),
        ("0 8 0 tell c", 2, JournalKind::BadLine),
        ("0 0 0 perform a 1 16777217", 2, JournalKind::BadLine),
        ("4 0 1 begin c 1", 2, JournalKind::SampleOver),
        ("2 0 0 tell a\n1 0 0 tell c", 3, JournalKind::SampleFalls),
        ("0 0 1 begin c 1", 2, JournalKind::UnknownNode),
        ("0 0 1 begin a 1", 2, JournalKind::UnknownParam),
        ("0 0 1 end a 9", 2, JournalKind::ReadOnlyParam),
        ("0 0 0 tell a\n0 1 1 end a 0", 3, JournalKind::SeqWrong(0)),
        ("0 0 0 begin a 0\n0 1 0 end a 0", 3, JournalKind::NotOpen),
        (
            "0 0 0 begin a 0\n0 0 1 begin a 0",
            3,
            JournalKind::AlreadyOpen,
        ),
    ];
    for (lines, line, kind) in rows {
        let text = format!(in alloc; "vsthost journal 1\n{lines}")?;
        let answer = read(alloc, text.as_bytes(), &nodes, 3);
        assert_eq!(rt; refused(answer), Some((line, kind)), "{lines}");
    }
    let answer = read(alloc, b"vsthost journal 01\nclose", &nodes, 3);
    assert_eq!(rt; refused(answer), Some((1, JournalKind::BadHeader)));
    Ok(())
}

#[test]
fn a_journal_is_read_and_printed(rt: HostRuntime) -> Result<(), Fail> {
    let alloc = rt.alloc();
    let nodes = nodes(&rt, alloc)?;
    // an editor that the session hasn't, a carriage return, leading zeros, and a gesture that is left open
    let text = b" vsthost  journal 1 \r\n0 7 0 begin a 00\n3 0 00 tell b_2 1 4294967295\nclose";
    let journal = read(alloc, text, &nodes, 3)?;
    let entries = [
        Entry {
            sample: 0,
            editor: 7,
            seq: 0,
            command: Command::Begin { node: 0, id: 0 },
        },
        Entry {
            sample: 3,
            editor: 0,
            seq: 0,
            command: Command::Tell {
                node: 1,
                words: Words::new(&[1, 4_294_967_295]),
            },
        },
    ];
    assert_eq!(rt; journal.entries.as_slice(), &entries[..]);
    let printed = print(alloc, &journal.entries, &nodes)?;
    assert_eq!(rt;
        printed.as_slice(),
        b"vsthost journal 1\n0 7 0 begin a 0\n3 0 0 tell b_2 1 4294967295\nclose\n".as_slice()
    );
    Ok(())
}
