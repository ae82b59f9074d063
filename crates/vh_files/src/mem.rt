//! Stores in memory that fail where they are told to.

ghost use Rattle.std.specs.Prelude.{◌≡◌, ◌≢◌, ◌↔◌, ◌⊎◌, ◌≤◌, ℕ, min, Bool, true, List, [], ◌∷◌, ◌++◌, length, take, drop, Option, Some, None, OnOk, OnErr, IfOk, IsErr, IsOk, Contains, option_copied};
ghost use Rattle.std.specs.FinMap.{empty};
ghost use Rattle.vh_files.specs.Causes.{Rose, HasCause, HasCauseOrLacks, CountsOnce};
ghost use Rattle.vh_files.specs.Due.{no_calls, next_number, counted, IsDue};
ghost use Rattle.vh_files.specs.Store.{told, Lacks, ReadsAt, HasNow, TakesPart, SameElsewhere, Grows, SaysMore};

use crate::due::{Calls, Op, is_due};
use crate::outside::{Failed, Files, Say};
use crate::shelf::Shelf;
use std::alloc::{AllocError, Global};

/// A store of files in memory. It is complete, and its calls fail where they are listed by
/// [`MemFiles::fail`]; `create` and `append` fail also where there is no memory.
#[derive(Drop)]
pub struct MemFiles {
    alloc: Global,
    shelf: Shelf,
    failing: Vec<(Op, u64)>,
    calls: Calls,
    read_faults: u64,
    write_faults: u64,
}

impl MemFiles {
    ghost use Rattle.vh_files.specs.MemFiles.{files_in, failing_in, calls_in, read_faults_in, write_faults_in};

    /// A store without files, of which no call was made and no fault was counted.
    pub fn new(alloc: Global) -> Result<MemFiles, AllocError>
        ensures files { IfOk result (λ store. files_in store ≡ empty) }
        ensures failing { IfOk result (λ store. failing_in store ≡ []) }
        ensures calls { IfOk result (λ store. calls_in store ≡ no_calls) }
        ensures read_faults { IfOk result (λ store. read_faults_in store ≡ 0) }
        ensures write_faults { IfOk result (λ store. write_faults_in store ≡ 0) }
        ensures succeeds { IsOk result }
    {
        Ok(MemFiles {
            alloc,
            shelf: Shelf::new(alloc),
            failing: Vec::new(alloc),
            calls: Calls::NONE,
            read_faults: 0,
            write_faults: 0,
        })
    }

    /// Adds a file, in place of one of that name. After want of memory the store is as before.
    pub fn put(&mut self, alloc: Global, name: &str, bytes: Vec<u8>) -> Result<(), AllocError>
        ensures ok { OnOk result (told (files_in self.new) name.now ≡ Some bytes.items) }
        ensures others { SameElsewhere name.now (files_in self.old) (files_in self.new) }
        ensures err { OnErr result (files_in self.new ≡ files_in self.old) }
        ensures failing { failing_in self.new ≡ failing_in self.old }
        ensures calls { calls_in self.new ≡ calls_in self.old }
        ensures read_faults { read_faults_in self.new ≡ read_faults_in self.old }
        ensures write_faults { write_faults_in self.new ≡ write_faults_in self.old }
    {
        self.shelf.put(alloc, name, bytes)
    }

    /// Makes call number `number` of this kind fail; numbers count from 1. After want of memory the
    /// store is as before.
    pub fn fail(&mut self, alloc: Global, op: Op, number: u64) -> Result<(), AllocError>
        ensures ok { OnOk result (failing_in self.new ≡ failing_in self.old ++ (op, number) ∷ []) }
        ensures err { OnErr result (failing_in self.new ≡ failing_in self.old) }
        ensures files { files_in self.new ≡ files_in self.old }
        ensures calls { calls_in self.new ≡ calls_in self.old }
        ensures read_faults { read_faults_in self.new ≡ read_faults_in self.old }
        ensures write_faults { write_faults_in self.new ≡ write_faults_in self.old }
    {
        self.failing.push((op, number))?;
        Ok(())
    }

    /// The bytes of a file.
    pub fn get(&self, name: &str) -> Option<&[u8]>
        ensures { option_copied result ≡ told (files_in self.now) name.now }
    {
        self.shelf.get(name)
    }
}

impl Files for MemFiles {
    ghost use Rattle.vh_files.specs.MemFiles.{files_in, failing_in, calls_in, read_faults_in, write_faults_in};

    ghost held = { files_in };

    ghost complete = { λ _. true };

    ghost read_faults = { read_faults_in };

    ghost write_faults = { write_faults_in };

    fn size(&mut self, name: &str) -> Result<u64, Failed>
        ensures length { (bytes : List ℕ) → told (files_in self.old) name.now ≡ Some bytes → IfOk result (λ n. n ≡ length bytes) }
        ensures lacking { Lacks true (files_in self.old) name.now → IsErr result }
        ensures cause { HasCauseOrLacks (Lacks true (files_in self.old) name.now) (read_faults_in self.old) (read_faults_in self.new) result }
        ensures held { files_in self.new ≡ files_in self.old }
        ensures writes { write_faults_in self.new ≡ write_faults_in self.old }
        // It fails where the name is missing or the call is listed, and nowhere else.
        ensures fails { IsErr result ↔ ((told (files_in self.old) name.now ≡ None) ⊎ IsDue (failing_in self.old) (calls_in self.old) Op.Size) }
        ensures counted { calls_in self.new ≡ counted (calls_in self.old) Op.Size }
        ensures once { CountsOnce (read_faults_in self.old) (read_faults_in self.new) result }
        ensures failing { failing_in self.new ≡ failing_in self.old }
    {
        let due = is_due(self.failing.as_slice(), &mut self.calls, Op::Size);
        let Some(bytes) = self.shelf.get(name) else {
            return Err(Failed);
        };
        if due {
            self.read_faults = self.read_faults.saturating_add(1);
            return Err(Failed);
        }
        Ok(bytes.len() as u64)
    }

    fn read(&mut self, name: &str, at: u64, buf: &mut [u8]) -> Result<usize, Failed>
        ensures bound { IfOk result (λ n. n ≤ length buf.new) }
        ensures bytes { (bytes : List ℕ) → told (files_in self.old) name.now ≡ Some bytes → IfOk result (λ n. ReadsAt bytes at n buf.new) }
        ensures lacking { Lacks true (files_in self.old) name.now → IsErr result }
        ensures cause { HasCauseOrLacks (Lacks true (files_in self.old) name.now) (read_faults_in self.old) (read_faults_in self.new) result }
        ensures held { files_in self.new ≡ files_in self.old }
        ensures writes { write_faults_in self.new ≡ write_faults_in self.old }
        // As much is read as is there and fits.
        ensures full { (bytes : List ℕ) → told (files_in self.old) name.now ≡ Some bytes → IfOk result (λ n. n ≡ min (length buf.new) (length (drop at bytes))) }
        ensures fails { IsErr result ↔ ((told (files_in self.old) name.now ≡ None) ⊎ IsDue (failing_in self.old) (calls_in self.old) Op.Read) }
        ensures counted { calls_in self.new ≡ counted (calls_in self.old) Op.Read }
        ensures once { CountsOnce (read_faults_in self.old) (read_faults_in self.new) result }
        ensures failing { failing_in self.new ≡ failing_in self.old }
    {
        let due = is_due(self.failing.as_slice(), &mut self.calls, Op::Read);
        let Some(bytes) = self.shelf.get(name) else {
            return Err(Failed);
        };
        if due {
            self.read_faults = self.read_faults.saturating_add(1);
            return Err(Failed);
        }
        Ok(copy_from(bytes, at, buf))
    }

    fn create(&mut self, name: &str) -> Result<(), Failed>
        ensures empty { OnOk result (HasNow true (told (files_in self.new) name.now) []) }
        ensures others { SameElsewhere name.now (files_in self.old) (files_in self.new) }
        ensures err { OnErr result (files_in self.new ≡ files_in self.old) }
        ensures cause { HasCause (write_faults_in self.old) (write_faults_in self.new) result }
        ensures reads { read_faults_in self.new ≡ read_faults_in self.old }
        ensures fails { IsDue (failing_in self.old) (calls_in self.old) Op.Create → IsErr result }
        ensures counted { calls_in self.new ≡ counted (calls_in self.old) Op.Create }
        ensures once { CountsOnce (write_faults_in self.old) (write_faults_in self.new) result }
        ensures failing { failing_in self.new ≡ failing_in self.old }
    {
        let due = is_due(self.failing.as_slice(), &mut self.calls, Op::Create);
        if due
            || self
                .shelf
                .put(self.alloc, name, Vec::new(self.alloc))
                .is_err()
        {
            self.write_faults = self.write_faults.saturating_add(1);
            return Err(Failed);
        }
        Ok(())
    }

    fn append(&mut self, name: &str, bytes: &[u8]) -> Result<usize, Failed>
        ensures part { IfOk result (TakesPart bytes.now) }
        ensures added { IfOk result (λ n. Grows true (told (files_in self.old) name.now) (told (files_in self.new) name.now) (take n bytes.now)) }
        ensures others { SameElsewhere name.now (files_in self.old) (files_in self.new) }
        ensures err { OnErr result (files_in self.new ≡ files_in self.old) }
        ensures lacking { Lacks true (files_in self.old) name.now → IsErr result }
        ensures cause { HasCauseOrLacks (Lacks true (files_in self.old) name.now) (write_faults_in self.old) (write_faults_in self.new) result }
        ensures reads { read_faults_in self.new ≡ read_faults_in self.old }
        // All of the bytes are taken.
        ensures all { IfOk result (λ n. n ≡ length bytes.now) }
        ensures fails { IsDue (failing_in self.old) (calls_in self.old) Op.Append → IsErr result }
        ensures counted { calls_in self.new ≡ counted (calls_in self.old) Op.Append }
        ensures once { CountsOnce (write_faults_in self.old) (write_faults_in self.new) result }
        ensures failing { failing_in self.new ≡ failing_in self.old }
    {
        let due = is_due(self.failing.as_slice(), &mut self.calls, Op::Append);
        if self.shelf.get(name).is_none() {
            return Err(Failed);
        }
        if due || self.shelf.extend(name, bytes).is_err() {
            self.write_faults = self.write_faults.saturating_add(1);
            return Err(Failed);
        }
        Ok(bytes.len())
    }
}

/// Copies bytes from place `at` on, as many as there are and fit.
pub fn copy_from(bytes: &[u8], at: u64, buf: &mut [u8]) -> usize
    ensures bytes { take result buf.new ≡ take result (drop at bytes.now) }
    ensures full { result ≡ min (length buf.new) (length (drop at bytes.now)) }
{
    if at >= bytes.len() as u64 {
        return 0;
    }
    let rest = &bytes[at as usize..];
    let n = rest.len().min(buf.len());
    buf[..n].copy_from_slice(&rest[..n]);
    n
}

/// A text in memory. Its writes fail where they are listed by [`MemSay::fail`], and where there is no
/// memory.
#[derive(Drop)]
pub struct MemSay {
    said: Vec<u8>,
    failing: Vec<u64>,
    writes: u64,
    faults: u64,
}

impl MemSay {
    ghost use Rattle.vh_files.specs.MemFiles.{said_in, failing_writes_in, writes_in, faults_in};

    /// Nothing is said yet, and no fault was counted.
    pub fn new(alloc: Global) -> Result<MemSay, AllocError>
        ensures said { IfOk result (λ say. said_in say ≡ []) }
        ensures failing { IfOk result (λ say. failing_writes_in say ≡ []) }
        ensures writes { IfOk result (λ say. writes_in say ≡ 0) }
        ensures faults { IfOk result (λ say. faults_in say ≡ 0) }
        ensures succeeds { IsOk result }
    {
        Ok(MemSay {
            said: Vec::new(alloc),
            failing: Vec::new(alloc),
            writes: 0,
            faults: 0,
        })
    }

    /// The bytes so far.
    pub fn said(&self) -> &[u8]
        ensures { result.now ≡ said_in self.now }
    {
        self.said.as_slice()
    }

    /// Makes write number `number` fail; numbers count from 1. After want of memory all is as before.
    pub fn fail(&mut self, alloc: Global, number: u64) -> Result<(), AllocError>
        ensures ok { OnOk result (failing_writes_in self.new ≡ failing_writes_in self.old ++ number ∷ []) }
        ensures err { OnErr result (failing_writes_in self.new ≡ failing_writes_in self.old) }
        ensures said { said_in self.new ≡ said_in self.old }
        ensures writes { writes_in self.new ≡ writes_in self.old }
        ensures faults { faults_in self.new ≡ faults_in self.old }
    {
        self.failing.push(number)?;
        Ok(())
    }
}

impl Say for MemSay {
    ghost use Rattle.vh_files.specs.MemFiles.{said_in, failing_writes_in, writes_in, faults_in};

    ghost said = { λ say. Some (said_in say) };

    ghost faults = { faults_in };

    fn write(&mut self, bytes: &[u8]) -> Result<usize, Failed>
        ensures part { IfOk result (TakesPart bytes.now) }
        ensures added { IfOk result (λ n. SaysMore (Some (said_in self.old)) (Some (said_in self.new)) (take n bytes.now)) }
        ensures err { OnErr result (Some (said_in self.new) ≡ Some (said_in self.old)) }
        ensures cause { HasCause (faults_in self.old) (faults_in self.new) result }
        // All of the bytes are taken.
        ensures all { IfOk result (λ n. n ≡ length bytes.now) }
        ensures fails { Contains (failing_writes_in self.old) (next_number (writes_in self.old)) → IsErr result }
        ensures counted { writes_in self.new ≡ next_number (writes_in self.old) }
        ensures once { CountsOnce (faults_in self.old) (faults_in self.new) result }
        ensures failing { failing_writes_in self.new ≡ failing_writes_in self.old }
    {
        self.writes = self.writes.saturating_add(1);
        let due = self.failing.contains(&self.writes);
        if due || self.said.extend_from_slice(bytes).is_err() {
            self.faults = self.faults.saturating_add(1);
            return Err(Failed);
        }
        Ok(bytes.len())
    }
}
