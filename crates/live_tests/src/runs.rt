//! The stores of the tests, and the runs of commands over them.

use std::alloc::{AllocError, Global};
use std::process::Abort;
use std::sync::Wait;
use std::thread::Threads;
use vh_builtin::BuiltIn;
use vh_files::{Gate, MemFiles, MemSay};
use vh_host::{Status, run};
use vh_live_host::run_live;
use vh_plugin::PluginSet;

/// Three frames, 0, 1000 and -1, of one channel, with 16 bits, at 48,000 frames a second.
pub const INPUT: &[u8] =
    b"RIFF*\0\0\0WAVEfmt \x10\0\0\0\x01\0\x01\0\x80\xbb\0\0\0\x77\x01\0\x02\0\x10\0data\x06\0\0\0\0\0\xe8\x03\xff\xff";

/// The words of a live rendering of session `s` over `in.wav`.
pub const LIVE: &str = "live s in.wav out.wav journal";

/// A gate that is open.
#[derive(Clone, Copy)]
pub struct Open;

impl Gate for Open {
    fn before_block(&self, _block: u32) {}

    fn before_word(&self, _editor: u32, _word: u32, _blocks: u32) {}
}

/// A store with the session `s` of one node of a class, of so many frames and with these lines more, and an input.
pub fn store_of(
    alloc: Global,
    class: &str,
    frames: &str,
    more: &str,
) -> Result<MemFiles, AllocError> {
    let mut text = Vec::new(alloc);
    for part in [
        "vsthost session 1\nlength ",
        frames,
        "\nchannels 1\nbits 16\npattern 64\nnode a ",
        class,
        "\nwire in a\nwire a out\n",
        more,
    ] {
        text.extend_from_slice(part.as_bytes())?;
    }
    let mut files = MemFiles::new(alloc)?;
    files.put(alloc, "s", text)?;
    files.put(alloc, "in.wav", Vec::from_slice(alloc, INPUT)?)?;
    Ok(files)
}

/// A store with the session of one gain.
pub fn store(alloc: Global, frames: &str, more: &str) -> Result<MemFiles, AllocError> {
    store_of(alloc, "gain", frames, more)
}

/// The words of a line.
fn words(alloc: Global, line: &str) -> Result<Vec<String>, AllocError> {
    let mut words = Vec::new(alloc);
    for word in line.split(' ').filter(|word| !word.is_empty()) {
        words.push(String::from_str(alloc, word)?)?;
    }
    Ok(words)
}

/// Runs a live rendering of these words with a set, and sees that what it made is ended.
pub fn live_over<R: Threads + Wait + Sync + Abort, S: PluginSet, G: Gate + Sync>(
    rt: &R,
    alloc: Global,
    line: &str,
    files: &mut MemFiles,
    say: &mut MemSay,
    set: &mut S,
    gate: &G,
) -> Result<Status, AllocError> {
    let words = words(alloc, line)?;
    let status = run_live(rt, alloc, &words, files, say, set, gate);
    assert!(rt; set.ended() == set.made(), "{line}");
    Ok(status)
}

/// So with the built-in set.
pub fn live<R: Threads + Wait + Sync + Abort, G: Gate + Sync>(
    rt: &R,
    alloc: Global,
    line: &str,
    files: &mut MemFiles,
    say: &mut MemSay,
    gate: &G,
) -> Result<Status, AllocError> {
    let mut set = BuiltIn::new(alloc)?;
    live_over(rt, alloc, line, files, say, &mut set, gate)
}

/// Replays the journal that was written into `again.wav`.
pub fn replay(alloc: Global, files: &mut MemFiles, say: &mut MemSay) -> Result<Status, AllocError> {
    let words = words(alloc, "replay s in.wav again.wav journal")?;
    let mut set = BuiltIn::new(alloc)?;
    Ok(run(alloc, &words, files, say, &mut set))
}
