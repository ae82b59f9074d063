//! A store that reads and adds few bytes at once.

ghost use Rattle.std.specs.Prelude.{◌≡◌, ◌≤◌};

use vh_files::{Failed, Files, MemFiles};

/// Files in memory, of which each call reads or adds at most so many bytes.
#[derive(Drop)]
pub struct Pieces {
    pub files: MemFiles,
    pub most: usize,
    ghost some: { 1 ≤ most },
}

impl Files for Pieces {
    ghost use Rattle.std.specs.Prelude.{true};
    ghost use Rattle.vh_files.specs.MemFiles.{files_in, read_faults_in, write_faults_in};

    ghost held = { λ p. files_in p.files };

    ghost complete = { λ _. true };

    ghost read_faults = { λ p. read_faults_in p.files };

    ghost write_faults = { λ p. write_faults_in p.files };

    fn size(&mut self, name: &str) -> Result<u64, Failed> {
        self.files.size(name)
    }

    fn read(&mut self, name: &str, at: u64, buf: &mut [u8]) -> Result<usize, Failed> {
        let most = self.most.min(buf.len());
        self.files.read(name, at, &mut buf[..most])
    }

    fn create(&mut self, name: &str) -> Result<(), Failed> {
        self.files.create(name)
    }

    fn append(&mut self, name: &str, bytes: &[u8]) -> Result<usize, Failed> {
        let most = self.most.min(bytes.len());
        self.files.append(name, &bytes[..most])
    }
}
