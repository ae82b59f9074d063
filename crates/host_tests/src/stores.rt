//! The stores of the tests, and the run of a command over them.

use std::alloc::{AllocError, Global};
use std::process::Abort;
use vh_builtin::BuiltIn;
use vh_files::{Failed, Files, MemFiles, MemSay, Say};
use vh_host::{Status, run};
use vh_plugin::PluginSet;

/// The lines of a session of one gain.
pub const LINES: [&str; 8] = [
    "vsthost session 1",
    "length 3",
    "channels 1",
    "bits 16",
    "pattern 64",
    "node a gain",
    "wire in a",
    "wire a out",
];

/// Three frames, 0, 1000 and -1, of one channel, with 16 bits, at 48,000 frames a second.
pub const INPUT: &[u8] =
    b"RIFF*\0\0\0WAVEfmt \x10\0\0\0\x01\0\x01\0\x80\xbb\0\0\0\x77\x01\0\x02\0\x10\0data\x06\0\0\0\0\0\xe8\x03\xff\xff";

/// The report of the session over the input.
pub const REPORT: &str =
    "vsthost report 1\nframes 3\npieces 1\nparam a 0 8388608 0.5000\nparam a 1 0 Off\nclose\n";

/// The session with other words in the line of this index.
pub fn session_with(alloc: Global, index: usize, line: &str) -> Result<Vec<u8>, AllocError> {
    let mut text = Vec::new(alloc);
    for (i, known) in LINES.iter().enumerate() {
        let line = if i == index { line } else { *known };
        text.extend_from_slice(line.as_bytes())?;
        text.push(b'\n')?;
    }
    Ok(text)
}

/// A store with this session and this input.
pub fn store(alloc: Global, session: Vec<u8>, input: &[u8]) -> Result<MemFiles, AllocError> {
    let mut files = MemFiles::new(alloc)?;
    files.put(alloc, "s", session)?;
    files.put(alloc, "in.wav", Vec::from_slice(alloc, input)?)?;
    Ok(files)
}

/// Runs a command of the words of this line, and sees that what it made is ended.
pub fn run_words<F: Files, Y: Say>(
    rt: &impl Abort,
    alloc: Global,
    line: &str,
    files: &mut F,
    say: &mut Y,
) -> Result<Status, AllocError> {
    let mut command = Vec::new(alloc);
    for word in line.split(' ').filter(|word| !word.is_empty()) {
        command.push(String::from_str(alloc, word)?)?;
    }
    let mut set = BuiltIn::new(alloc)?;
    let status = run(alloc, command.as_slice(), files, say, &mut set);
    assert_eq!(rt; set.ended(), set.made(), "{line}");
    Ok(status)
}

/// Renders session `s` over `in.wav` to `out.wav`.
pub fn render<F: Files, Y: Say>(
    rt: &impl Abort,
    alloc: Global,
    files: &mut F,
    say: &mut Y,
) -> Result<Status, AllocError> {
    run_words(rt, alloc, "render s in.wav out.wav", files, say)
}

/// A store that gives and takes one byte at a time.
#[derive(Drop)]
pub struct Trickle<F: Files + Drop> {
    pub files: F,
}

impl<F: Files + Drop> Files for Trickle<F> {
    ghost held = { λ t. F.held t.files };

    ghost complete = { λ t. F.complete t.files };

    ghost read_faults = { λ t. F.read_faults t.files };

    ghost write_faults = { λ t. F.write_faults t.files };

    fn size(&mut self, name: &str) -> Result<u64, Failed> {
        self.files.size(name)
    }

    fn read(&mut self, name: &str, at: u64, buf: &mut [u8]) -> Result<usize, Failed> {
        let n = buf.len().min(1);
        self.files.read(name, at, &mut buf[..n])
    }

    fn create(&mut self, name: &str) -> Result<(), Failed> {
        self.files.create(name)
    }

    fn append(&mut self, name: &str, bytes: &[u8]) -> Result<usize, Failed> {
        let n = bytes.len().min(1);
        self.files.append(name, &bytes[..n])
    }
}
