//! Stores that never fail, for what is rendered in memory: what is written to them is dropped.

ghost use Rattle.std.specs.Prelude.{◌≡◌, ◌≤◌, ℕ, min, Bool, false, List, [], length, take, drop, Option, Some, None, OnOk, OnErr, IfOk, IsErr, IsOk, option_copied};
ghost use Rattle.std.specs.FinMap.{empty};
ghost use Rattle.vh_files.specs.Causes.{HasCause, HasCauseOrLacks};
ghost use Rattle.vh_files.specs.Store.{told, Lacks, ReadsAt, HasNow, TakesPart, SameElsewhere, Grows, SaysMore};

use crate::mem::copy_from;
use crate::outside::{Failed, Files, Say};
use crate::shelf::Shelf;
use std::alloc::{AllocError, Global};

/// A store of files in memory that isn't complete and never fails. It tells the files that were put;
/// any other name has the size 0. A name that is created or appended to is told no more, and what is
/// appended is dropped.
#[derive(Drop)]
pub struct SureFiles {
    shelf: Shelf,
}

impl SureFiles {
    ghost use Rattle.vh_files.specs.SureFiles.{files_put};

    /// A store without files.
    pub fn new(alloc: Global) -> Result<SureFiles, AllocError>
        ensures files { IfOk result (λ store. files_put store ≡ empty) }
        ensures succeeds { IsOk result }
    {
        Ok(SureFiles {
            shelf: Shelf::new(alloc),
        })
    }

    /// Adds a file, in place of one of that name. After want of memory the store is as before.
    pub fn put(&mut self, alloc: Global, name: &str, bytes: Vec<u8>) -> Result<(), AllocError>
        ensures ok { OnOk result (told (files_put self.new) name.now ≡ Some bytes.items) }
        ensures others { SameElsewhere name.now (files_put self.old) (files_put self.new) }
        ensures err { OnErr result (files_put self.new ≡ files_put self.old) }
    {
        self.shelf.put(alloc, name, bytes)
    }

    /// The bytes of a file that is told.
    pub fn get(&self, name: &str) -> Option<&[u8]>
        ensures { option_copied result ≡ told (files_put self.now) name.now }
    {
        self.shelf.get(name)
    }
}

impl Files for SureFiles {
    ghost use Rattle.vh_files.specs.SureFiles.{files_put};

    ghost held = { files_put };

    ghost complete = { λ _. false };

    ghost read_faults = { λ _. 0 };

    ghost write_faults = { λ _. 0 };

    fn size(&mut self, name: &str) -> Result<u64, Failed>
        ensures length { (bytes : List ℕ) → told (files_put self.old) name.now ≡ Some bytes → IfOk result (λ n. n ≡ length bytes) }
        ensures cause { HasCauseOrLacks (Lacks false (files_put self.old) name.now) 0 0 result }
        ensures held { files_put self.new ≡ files_put self.old }
        ensures succeeds { IsOk result }
        // A name that isn't told has no bytes.
        ensures untold { told (files_put self.old) name.now ≡ None → result ≡ Ok 0 }
    {
        Ok(self.shelf.get(name).map_or(0, |bytes| bytes.len() as u64))
    }

    fn read(&mut self, name: &str, at: u64, buf: &mut [u8]) -> Result<usize, Failed>
        ensures bound { IfOk result (λ n. n ≤ length buf.new) }
        ensures bytes { (bytes : List ℕ) → told (files_put self.old) name.now ≡ Some bytes → IfOk result (λ n. ReadsAt bytes at n buf.new) }
        ensures cause { HasCauseOrLacks (Lacks false (files_put self.old) name.now) 0 0 result }
        ensures held { files_put self.new ≡ files_put self.old }
        ensures succeeds { IsOk result }
        // As much is read as is there and fits; of a name that isn't told nothing is.
        ensures full { (bytes : List ℕ) → told (files_put self.old) name.now ≡ Some bytes → IfOk result (λ n. n ≡ min (length buf.new) (length (drop at bytes))) }
        ensures untold { told (files_put self.old) name.now ≡ None → result ≡ Ok 0 }
    {
        match self.shelf.get(name) {
            Some(bytes) => Ok(copy_from(bytes, at, buf)),
            None => Ok(0),
        }
    }

    fn create(&mut self, name: &str) -> Result<(), Failed>
        ensures empty { OnOk result (HasNow false (told (files_put self.new) name.now) []) }
        ensures others { SameElsewhere name.now (files_put self.old) (files_put self.new) }
        ensures err { OnErr result (files_put self.new ≡ files_put self.old) }
        ensures cause { HasCause 0 0 result }
        ensures succeeds { IsOk result }
        ensures gone { told (files_put self.new) name.now ≡ None }
    {
        self.shelf.remove(name);
        Ok(())
    }

    fn append(&mut self, name: &str, bytes: &[u8]) -> Result<usize, Failed>
        ensures part { IfOk result (TakesPart bytes.now) }
        ensures added { IfOk result (λ n. Grows false (told (files_put self.old) name.now) (told (files_put self.new) name.now) (take n bytes.now)) }
        ensures others { SameElsewhere name.now (files_put self.old) (files_put self.new) }
        ensures err { OnErr result (files_put self.new ≡ files_put self.old) }
        ensures cause { HasCauseOrLacks (Lacks false (files_put self.old) name.now) 0 0 result }
        ensures succeeds { IsOk result }
        ensures gone { told (files_put self.new) name.now ≡ None }
        // All of the bytes are taken.
        ensures all { result ≡ Ok (length bytes.now) }
    {
        self.shelf.remove(name);
        Ok(bytes.len())
    }
}

/// Where texts are dropped. It never fails.
#[derive(Drop)]
pub struct SureSay;

impl SureSay {
    /// Nothing is kept of what is said.
    pub fn new() -> SureSay {
        SureSay
    }
}

impl Say for SureSay {
    ghost said = { λ _. None };

    ghost faults = { λ _. 0 };

    fn write(&mut self, bytes: &[u8]) -> Result<usize, Failed>
        ensures part { IfOk result (TakesPart bytes.now) }
        ensures added { IfOk result (λ n. SaysMore None None (take n bytes.now)) }
        ensures cause { HasCause 0 0 result }
        // All of the bytes are taken.
        ensures all { result ≡ Ok (length bytes.now) }
    {
        Ok(bytes.len())
    }
}
