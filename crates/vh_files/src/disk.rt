//! Thin adapters over real files and standard output. They tell nothing of content.

ghost use Rattle.std.specs.Prelude.{◌≡◌, ◌≤◌, ℕ, Bool, false, List, length, None, IfOk, IfSome};
ghost use Rattle.std.specs.FinMap.{empty};
ghost use Rattle.vh_files.specs.Store.{TakesPart};

use crate::outside::{Failed, Files, Say};
use std::fs::{self, OpenFile, OpenOptions};
use std::io::{self, ErrorKind, Read, Seek, SeekFrom, Write};
use std::rt::Files as Disk;

/// A file that stays open, and where its next byte is read.
#[derive(Drop)]
struct Kept<F: Drop> {
    name: String,
    file: F,
    at: u64,
}

/// The runtime, and the file that was read last and the one that was written last.
#[derive(Drop)]
struct Handles<R: Disk + AllocGlobal + Drop> {
    rt: R,
    reader: Option<Kept<R::File>>,
    writer: Option<Kept<R::File>>,
}

/// Real files. The file that was read last and the one that was written last stay open.
#[derive(Drop)]
pub struct DiskFiles<R: Disk + AllocGlobal + Drop> {
    handles: Handles<R>,
    read_faults: u64,
    write_faults: u64,
}

impl<R: Disk + AllocGlobal + Drop> DiskFiles<R> {
    ghost use Rattle.vh_files.specs.Disk.{disk_read_faults, disk_write_faults};

    /// Real files through this runtime. No fault was counted yet.
    pub fn new(rt: R) -> DiskFiles<R>
        ensures read_faults { disk_read_faults result ≡ 0 }
        ensures write_faults { disk_write_faults result ≡ 0 }
    {
        DiskFiles {
            handles: Handles {
                rt,
                reader: None,
                writer: None,
            },
            read_faults: 0,
            write_faults: 0,
        }
    }
}

/// Standard output.
#[derive(Drop)]
pub struct OutSay<R: Print + Drop> {
    rt: R,
    faults: u64,
}

impl<R: Print + Drop> OutSay<R> {
    ghost use Rattle.vh_files.specs.Disk.{out_faults};

    /// Standard output of this runtime. No fault was counted yet.
    pub fn new(rt: R) -> OutSay<R>
        ensures { out_faults result ≡ 0 }
    {
        OutSay { rt, faults: 0 }
    }
}

impl<R: Print + Drop> Say for OutSay<R> {
    ghost said = { λ _. None };

    ghost faults = { λ say. say.faults };

    fn write(&mut self, bytes: &[u8]) -> Result<usize, Failed> {
        let done = write_on(&mut io::writer(&self.rt), bytes);
        if done == 0 && !bytes.is_empty() {
            self.faults = self.faults.saturating_add(1);
            return Err(Failed);
        }
        Ok(done)
    }
}

/// Writes a front part of `bytes`: all of them, or those before the writer's first error.
fn write_on<W: Write>(writer: &mut W, bytes: &[u8]) -> usize
    ensures { result ≤ length bytes.now }
{
    let mut done = 0;
    for _ in 0..u64::MAX {
        if done == bytes.len() {
            break;
        }
        match writer.write(&bytes[done..]) {
            Ok(0) => break,
            Ok(n) => done += n,
            Err(error) if error.kind() == ErrorKind::Interrupted => {}
            Err(_) => break,
        }
    }
    done
}

/// Reads into the front of `buf` until it is full, the reader is at its end, or an error comes. None
/// where an error comes first.
fn read_into<F: Read>(reader: &mut F, buf: &mut [u8]) -> Option<usize>
    ensures { IfSome result (λ n. n ≤ length buf.new) }
{
    let mut done = 0;
    for _ in 0..u64::MAX {
        if done == buf.len() {
            break;
        }
        match reader.read(&mut buf[done..]) {
            Ok(0) => break,
            Ok(n) => done += n,
            Err(error) if error.kind() == ErrorKind::Interrupted => {}
            Err(_) if done == 0 => return None,
            Err(_) => break,
        }
    }
    Some(done)
}

impl<R: Disk + AllocGlobal + Drop> Handles<R> {
    /// The file of this name for reading, opened where it isn't the one that was read last.
    fn open_reader(&mut self, name: &str) -> io::Result<Kept<R::File>> {
        if let Some(kept) = self.reader.take() {
            if kept.name.as_str() == name {
                return Ok(kept);
            }
        }
        Ok(Kept {
            name: String::from_str(self.rt.alloc(), name)?,
            file: fs::open(&self.rt, name)?,
            at: 0,
        })
    }

    /// The file of this name for appending, opened where it isn't the one that was written last.
    fn open_writer(&mut self, name: &str) -> io::Result<Kept<R::File>> {
        if let Some(kept) = self.writer.take() {
            if kept.name.as_str() == name {
                return Ok(kept);
            }
        }
        Ok(Kept {
            name: String::from_str(self.rt.alloc(), name)?,
            file: OpenOptions::new().append(true).open(&self.rt, name)?,
            at: 0,
        })
    }

    fn size(&mut self, name: &str) -> io::Result<u64> {
        let kept = self.open_reader(name)?;
        let size = kept.file.metadata()?.len();
        self.reader = Some(kept);
        Ok(size)
    }

    fn read(&mut self, name: &str, at: u64, buf: &mut [u8]) -> io::Result<Option<usize>>
        ensures { IfOk result (λ done. IfSome done (λ n. n ≤ length buf.new)) }
    {
        let mut kept = self.open_reader(name)?;
        if kept.at != at {
            kept.file.seek(SeekFrom::Start(at))?;
        }
        let done = read_into(&mut kept.file, buf);
        if let Some(n) = done {
            kept.at = at.saturating_add(n as u64);
            self.reader = Some(kept);
        }
        Ok(done)
    }

    fn create(&mut self, name: &str) -> io::Result<()> {
        self.writer = None;
        fs::create(&self.rt, name)?;
        Ok(())
    }

    fn append(&mut self, name: &str, bytes: &[u8]) -> io::Result<usize>
        ensures { IfOk result (λ n. n ≤ length bytes.now) }
    {
        let mut kept = self.open_writer(name)?;
        let done = write_on(&mut kept.file, bytes);
        self.writer = Some(kept);
        Ok(done)
    }
}

#[tactic(auto, using(crate::proofs::Untold::told_empty))]
impl<R: Disk + AllocGlobal + Drop> Files for DiskFiles<R> {
    ghost held = { λ _. empty };

    ghost complete = { λ _. false };

    ghost read_faults = { λ files. files.read_faults };

    ghost write_faults = { λ files. files.write_faults };

    fn size(&mut self, name: &str) -> Result<u64, Failed> {
        match self.handles.size(name) {
            Ok(size) => Ok(size),
            Err(_) => {
                self.read_faults = self.read_faults.saturating_add(1);
                Err(Failed)
            }
        }
    }

    fn read(&mut self, name: &str, at: u64, buf: &mut [u8]) -> Result<usize, Failed> {
        match self.handles.read(name, at, buf) {
            Ok(Some(done)) => Ok(done),
            _ => {
                self.read_faults = self.read_faults.saturating_add(1);
                Err(Failed)
            }
        }
    }

    fn create(&mut self, name: &str) -> Result<(), Failed> {
        match self.handles.create(name) {
            Ok(()) => Ok(()),
            Err(_) => {
                self.write_faults = self.write_faults.saturating_add(1);
                Err(Failed)
            }
        }
    }

    fn append(&mut self, name: &str, bytes: &[u8]) -> Result<usize, Failed> {
        match self.handles.append(name, bytes) {
            Ok(done) if done > 0 || bytes.is_empty() => Ok(done),
            _ => {
                self.write_faults = self.write_faults.saturating_add(1);
                Err(Failed)
            }
        }
    }
}
