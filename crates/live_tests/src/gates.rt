use crate::runs::{LIVE, live, replay, store};
use crate::waiting::wait_for;
use std::alloc::{AllocError, Global};
use std::sync::atomic::{AtomicU64, Ordering};
use std::test::Fail;
use vh_builtin::BuiltIn;
use vh_files::{Gate, MemFiles, MemSay};
use vh_host::Status;
use vh_journal_text::read as read_journal;
use vh_legal::is_legal;
use vh_params::Command;
use vh_plugin::PluginSet;
use vh_session::read as read_session;

/// Holds block 1 until word 0 of editor 0 is done, and its word 1 until block 2 is about to begin.
#[derive(Drop)]
struct Interleave {
    words: AtomicU64,
    blocks: AtomicU64,
    /// How often a wait came to its limit.
    late: AtomicU64,
}

impl Interleave {
    fn wait(&self, number: &AtomicU64, least: u64) {
        if !wait_for(number, least) {
            self.late.fetch_add(1, Ordering::SeqCst);
        }
    }
}

impl Gate for Interleave {
    fn before_block(&self, block: u32) {
        self.blocks.store(u64::from(block), Ordering::SeqCst);
        if block == 1 {
            self.wait(&self.words, 1);
        }
    }

    fn before_word(&self, editor: u32, word: u32, _blocks: u32) {
        if editor == 0 && word == 1 {
            self.words.store(1, Ordering::SeqCst);
            self.wait(&self.blocks, 2);
        }
    }
}

const EDITORS: &str = "editor 0\nbegin a 0\nperform a 0 4194304\nend a 0\neditor 1\ntell a\n";

/// What stands before 192 frames of one channel, with 16 bits, at 48,000 frames a second.
const HEADER: &[u8] =
    b"RIFF\xa4\x01\0\0WAVEfmt \x10\0\0\0\x01\0\x01\0\x80\xbb\0\0\0\x77\x01\0\x02\0\x10\0data\x80\x01\0\0";

/// Puts an input of 192 frames, each 1000, so that each value of a gain is heard.
fn put_steady(alloc: Global, files: &mut MemFiles) -> Result<(), AllocError> {
    let mut bytes = Vec::from_slice(alloc, HEADER)?;
    for _ in 0..192 {
        bytes.extend_from_slice(b"\xe8\x03")?;
    }
    files.put(alloc, "in.wav", bytes)
}

/// Editors' words that stand in the journal where the gate puts them, between blocks: so editors and audio ran side by
/// side. The journal is legal, and is replayed to the same samples.
#[test]
fn gate_interleaves(rt: HostRuntime) -> Result<(), Fail> {
    let alloc = rt.alloc();
    let mut files = store(alloc, "192", EDITORS)?;
    put_steady(alloc, &mut files)?;
    let mut say = MemSay::new(alloc)?;
    let gate = Interleave {
        words: AtomicU64::new(0),
        blocks: AtomicU64::new(0),
        late: AtomicU64::new(0),
    };
    let status = live(&rt, alloc, LIVE, &mut files, &mut say, &gate)?;
    assert!(rt; status == Status::Ok);
    assert_eq!(rt; gate.late.load(Ordering::SeqCst), 0);
    let set = BuiltIn::new(alloc)?;
    let text = files.get("s").unwrap_or_default();
    let session = read_session(alloc, text, set.classes())?;
    let text = files.get("journal").unwrap_or_default();
    let journal = read_journal(alloc, text, &session.nodes, session.length)?;
    assert!(rt; is_legal(alloc, &session, &journal.entries)?);
    for entry in &journal.entries {
        match entry.command {
            Command::Begin { .. } => assert!(rt; entry.sample == 0 || entry.sample == 64),
            Command::Perform { .. } => assert!(rt; entry.sample == 128 || entry.sample == 192),
            _ => {}
        }
    }
    assert_eq!(rt; journal.entries.len(), 4);
    let status = replay(alloc, &mut files, &mut say)?;
    assert!(rt; status == Status::Ok);
    assert!(rt; files.get("again.wav") == files.get("out.wav") && files.get("out.wav").is_some());
    Ok(())
}
