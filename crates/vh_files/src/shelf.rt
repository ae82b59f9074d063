//! Files in memory, seen as the map from their names to their bytes.

ghost use Rattle.std.specs.Prelude.{◌≡◌, ◌≢◌, ℕ, true, ◌++◌, Option, Some, None, IsSome, OnOk, OnErr, option_copied};
ghost use Rattle.slab.specs.Slab.{get, ContainsKey};
ghost use Rattle.vh_files.specs.Store.{told, SameElsewhere, Grows};

use slab::Slab;
use std::alloc::{AllocError, Global};
use std::marker::Model;

/// A name, and the key of its bytes.
#[derive(Drop)]
pub struct Named {
    name: String,
    key: usize,
}

/// Files by name. Their bytes stand in a slab, and a list of names has the keys.
#[derive(Drop)]
pub struct Shelf {
    bytes: Slab<Vec<u8>>,
    names: Vec<Named>,
}

impl Model for Shelf {
    ghost use Rattle.std.specs.Coded.{coded_ℕ, coded_list};
    ghost use Rattle.std.specs.FinMap as map;
    ghost use Rattle.vh_files.specs.Store.{Held};

    ghost Value = { Held };

    ghost coded = { map.code (coded_list coded_ℕ) (coded_list coded_ℕ) };

    ghost use Rattle.vh_files.specs.Shelf.{held_in, IsShelf};

    ghost view = { λ s. held_in s.bytes s.names.items };

    ghost invariant = { λ s. IsShelf s.bytes s.names.items };
}

impl Shelf {
    ghost use Rattle.std.specs.FinMap.{empty};

    /// A shelf without files.
    pub fn new(alloc: Global) -> Self
        ensures { result ≡ empty }
    {
        Shelf {
            bytes: Slab::new(alloc),
            names: Vec::new(alloc),
        }
    }

    /// The bytes of a file.
    pub fn get(&self, name: &str) -> Option<&[u8]>
        ensures { option_copied result ≡ told self.now name.now }
    {
        let key = key_of(self.names.as_slice(), name)?;
        let bytes = self.bytes.get(key)?;
        Some(bytes.as_slice())
    }

    /// Adds a file, in place of one of that name.
    pub fn put(&mut self, alloc: Global, name: &str, bytes: Vec<u8>) -> Result<(), AllocError>
        ensures ok { OnOk result (told self.new name.now ≡ Some bytes.items) }
        ensures others { SameElsewhere name.now self.old self.new }
        ensures err { OnErr result (self.new ≡ self.old) }
    {
        match key_of(self.names.as_slice(), name) {
            Some(key) => replace_at(&mut self.bytes, key, bytes),
            None => {
                let name = String::from_str(alloc, name)?;
                self.names.reserve(1)?;
                self.bytes.reserve(1)?;
                let key = self.bytes.insert_reserved(bytes);
                self.names.push_reserved(Named { name, key });
            }
        }
        Ok(())
    }

    /// Takes a file away.
    pub fn remove(&mut self, name: &str)
        ensures gone { told self.new name.now ≡ None }
        ensures others { SameElsewhere name.now self.old self.new }
    {
        if let Some(key) = key_of(self.names.as_slice(), name) {
            drop(self.bytes.remove(key));
            forget(&mut self.names, name);
        }
    }

    /// Adds bytes to the end of a file that is there.
    pub fn extend(&mut self, name: &str, more: &[u8]) -> Result<(), AllocError>
        requires { IsSome (told self.old name.now) }
        ensures ok { OnOk result (Grows true (told self.old name.now) (told self.new name.now) more.now) }
        ensures others { SameElsewhere name.now self.old self.new }
        ensures err { OnErr result (self.new ≡ self.old) }
    {
        match key_of(self.names.as_slice(), name) {
            Some(key) => extend_at(&mut self.bytes, key, more),
            None => Ok(()),
        }
    }
}

ghost use Rattle.std.specs.Prelude.{List};
ghost use Rattle.std.specs.List.{filter};
ghost use Rattle.vh_files.specs.Shelf.{key_in, bytes_at, has_other_name};

/// The key of the first of `names` that is `name`.
fn key_of(names: &[Named], name: &str) -> Option<usize>
    ensures { result ≡ key_in names.now name.now }
{
    for named in names {
        if name == named.name.as_str() {
            return Some(named.key);
        }
    }
    None
}

/// Takes a name away.
fn forget(names: &mut Vec<Named>, name: &str)
    ensures { names.new.items ≡ filter (has_other_name name.now) names.old.items }
{
    names.retain(|named| named.name.as_str() != name);
}

/// Puts `bytes` in place of those under a key.
fn replace_at(slab: &mut Slab<Vec<u8>>, key: usize, bytes: Vec<u8>)
    requires { ContainsKey slab.old key }
    ensures kept { ContainsKey slab.new key }
    ensures bytes { bytes_at slab.new key ≡ bytes.items }
    ensures others { (other : ℕ) → other ≢ key → get slab.new other ≡ get slab.old other }
{
    if let Some(place) = slab.get_mut(key) {
        *place = bytes;
    }
}

/// Adds `more` to the bytes under a key.
fn extend_at(slab: &mut Slab<Vec<u8>>, key: usize, more: &[u8]) -> Result<(), AllocError>
    requires { ContainsKey slab.old key }
    ensures kept { ContainsKey slab.new key }
    ensures ok { OnOk result (bytes_at slab.new key ≡ bytes_at slab.old key ++ more.now) }
    ensures err { OnErr result (bytes_at slab.new key ≡ bytes_at slab.old key) }
    ensures others { (other : ℕ) → other ≢ key → get slab.new other ≡ get slab.old other }
{
    match slab.get_mut(key) {
        Some(bytes) => bytes.extend_from_slice(more),
        None => Ok(()),
    }
}
