ghost use Rattle.std.specs.Prelude.{◌≡◌, ◌≢◌, ℕ, ◌≤◌, Bool, true, List, [], length, take, Option, Some, OnOk, OnErr, IfOk, IsErr};
ghost use Rattle.vh_files.specs.Causes.{HasCause, HasCauseOrLacks};
ghost use Rattle.vh_files.specs.Store.{Held, told, Lacks, ReadsAt, HasNow, TakesPart, SameElsewhere, Grows, SaysMore};

use thiserror::Error;

/// A call on the outside that failed. The object that failed counts why.
#[derive(Clone, Copy, Debug, PartialEq, Eq, Error)]
#[error("the call failed")]
pub struct Failed;

/// Files by name.
///
/// `held` is the files that the store tells, with their bytes; in a complete store these are all
/// files. `read_faults` counts faults of `size` and `read`, `write_faults` those of `create` and
/// `append`; neither falls, and each stays at its last value. A call changes no file but the one
/// that it names, a failed call changes none, and no call changes whether the store is complete.
pub trait Files {
    ghost held: { Self → Held };

    ghost complete: { Self → Bool };

    ghost read_faults: { Self → ℕ };

    ghost write_faults: { Self → ℕ };

    /// The length of a file, in bytes.
    fn size(&mut self, name: &str) -> Result<u64, Failed>
        ensures length { (bytes : List ℕ) → told (held self.old) name.now ≡ Some bytes → IfOk result (λ n. n ≡ length bytes) }
        ensures lacking { Lacks (complete self.old) (held self.old) name.now → IsErr result }
        ensures cause { HasCauseOrLacks (Lacks (complete self.old) (held self.old) name.now) (read_faults self.old) (read_faults self.new) result }
        ensures held { held self.new ≡ held self.old }
        ensures complete { complete self.new ≡ complete self.old }
        ensures writes { write_faults self.new ≡ write_faults self.old };

    /// Fills the front of `buf` with bytes of a file from byte `at` on, and answers how many: at
    /// least one where the file goes on and `buf` isn't empty, and 0 from the file's end on.
    fn read(&mut self, name: &str, at: u64, buf: &mut [u8]) -> Result<usize, Failed>
        ensures bound { IfOk result (λ n. n ≤ length buf.new) }
        ensures bytes { (bytes : List ℕ) → told (held self.old) name.now ≡ Some bytes → IfOk result (λ n. ReadsAt bytes at n buf.new) }
        ensures lacking { Lacks (complete self.old) (held self.old) name.now → IsErr result }
        ensures cause { HasCauseOrLacks (Lacks (complete self.old) (held self.old) name.now) (read_faults self.old) (read_faults self.new) result }
        ensures held { held self.new ≡ held self.old }
        ensures complete { complete self.new ≡ complete self.old }
        ensures writes { write_faults self.new ≡ write_faults self.old };

    /// Makes an empty file, in place of one of that name.
    fn create(&mut self, name: &str) -> Result<(), Failed>
        ensures empty { OnOk result (HasNow (complete self.old) (told (held self.new) name.now) []) }
        ensures others { SameElsewhere name.now (held self.old) (held self.new) }
        ensures err { OnErr result (held self.new ≡ held self.old) }
        ensures cause { HasCause (write_faults self.old) (write_faults self.new) result }
        ensures complete { complete self.new ≡ complete self.old }
        ensures reads { read_faults self.new ≡ read_faults self.old };

    /// Adds a front part of `bytes` to a file, at least one byte where there is one, and answers how
    /// many.
    fn append(&mut self, name: &str, bytes: &[u8]) -> Result<usize, Failed>
        ensures part { IfOk result (TakesPart bytes.now) }
        ensures added { IfOk result (λ n. Grows (complete self.old) (told (held self.old) name.now) (told (held self.new) name.now) (take n bytes.now)) }
        ensures others { SameElsewhere name.now (held self.old) (held self.new) }
        ensures err { OnErr result (held self.new ≡ held self.old) }
        ensures lacking { Lacks (complete self.old) (held self.old) name.now → IsErr result }
        ensures cause { HasCauseOrLacks (Lacks (complete self.old) (held self.old) name.now) (write_faults self.old) (write_faults self.new) result }
        ensures complete { complete self.new ≡ complete self.old }
        ensures reads { read_faults self.new ≡ read_faults self.old };
}

/// Where the host says its texts.
///
/// `said` is the bytes so far, where they are told; `faults` counts failed writes, never falls, and
/// stays at its last value.
pub trait Say {
    ghost said: { Self → Option (List ℕ) };

    ghost faults: { Self → ℕ };

    /// Says a front part of `bytes`, at least one byte where there is one, and answers how many.
    fn write(&mut self, bytes: &[u8]) -> Result<usize, Failed>
        ensures part { IfOk result (TakesPart bytes.now) }
        ensures added { IfOk result (λ n. SaysMore (said self.old) (said self.new) (take n bytes.now)) }
        ensures err { OnErr result (said self.new ≡ said self.old) }
        ensures cause { HasCause (faults self.old) (faults self.new) result };
}

/// Where a live run may be held, so that a test can fix its schedule. A gate has a stated limit of
/// turns and then goes on.
pub trait Gate {
    /// Called before block `b` takes from the inbox.
    fn before_block(&self, b: u32);

    /// Called before script word number `word` of an editor; `blocks` is the number of the `wait`
    /// word directly before it, or 0.
    fn before_word(&self, editor: u32, word: u32, blocks: u32);
}

impl<F: Files> Files for &mut F {
    ghost held = { λ f. F.held f.now };

    ghost complete = { λ f. F.complete f.now };

    ghost read_faults = { λ f. F.read_faults f.now };

    ghost write_faults = { λ f. F.write_faults f.now };

    fn size(&mut self, name: &str) -> Result<u64, Failed> {
        Files::size(&mut **self, name)
    }

    fn read(&mut self, name: &str, at: u64, buf: &mut [u8]) -> Result<usize, Failed> {
        Files::read(&mut **self, name, at, buf)
    }

    fn create(&mut self, name: &str) -> Result<(), Failed> {
        Files::create(&mut **self, name)
    }

    fn append(&mut self, name: &str, bytes: &[u8]) -> Result<usize, Failed> {
        Files::append(&mut **self, name, bytes)
    }
}

impl<Y: Say> Say for &mut Y {
    ghost said = { λ y. Y.said y.now };

    ghost faults = { λ y. Y.faults y.now };

    fn write(&mut self, bytes: &[u8]) -> Result<usize, Failed> {
        Say::write(&mut **self, bytes)
    }
}
