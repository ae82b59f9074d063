//! Loops over the calls of a store that give or take a part.

ghost use Rattle.std.specs.Prelude.{◌≡◌, ◌≢◌, ℕ, ◌+◌, ◌<◌, ◌≤◌, ◌^◌, min, Bool, true, List, [], length, take, drop, Option, Some, OnOk, OnErr, IfOk, IsErr};
ghost use Rattle.vh_files.specs.Causes.{HasCause, HasCauseOrLacks};
ghost use Rattle.vh_files.specs.Store.{told, Lacks, FillsFrom, SameElsewhere, Grows, GrowsInPart, SaysMore, SaysInPart};

use crate::outside::{Failed, Files, Say};

/// Fills `buf` with bytes of a file from byte `at` on, and answers how many: fewer than `buf` has
/// room for only at the file's end.
pub fn fill<F: Files>(files: &mut F, name: &str, at: u64, buf: &mut [u8]) -> Result<usize, Failed>
    requires { at + length buf.old < 2 ^ 64 }
    ensures bound { IfOk result (λ n. n ≤ length buf.new) }
    ensures bytes { (bytes : List ℕ) → told (F.held files.old) name.now ≡ Some bytes → IfOk result (λ n. FillsFrom bytes at n buf.new) }
    ensures lacking { Lacks (F.complete files.old) (F.held files.old) name.now → 0 < length buf.new → IsErr result }
    ensures cause { HasCauseOrLacks (Lacks (F.complete files.old) (F.held files.old) name.now) (F.read_faults files.old) (F.read_faults files.new) result }
    ensures held { F.held files.new ≡ F.held files.old }
    ensures complete { F.complete files.new ≡ F.complete files.old }
    ensures writes { F.write_faults files.new ≡ F.write_faults files.old }
{
    let mut done = 0;
    while done < buf.len() {
        let got = files.read(name, at + done as u64, &mut buf[done..])?;
        if got == 0 {
            return Ok(done);
        }
        done += got;
    }
    Ok(done)
}

/// Adds all of `bytes` to a file, where need be by more than one call.
pub fn append_all<F: Files>(files: &mut F, name: &str, bytes: &[u8]) -> Result<(), Failed>
    ensures ok { OnOk result (Grows (F.complete files.old) (told (F.held files.old) name.now) (told (F.held files.new) name.now) bytes.now) }
    ensures err { OnErr result (GrowsInPart (F.complete files.old) (told (F.held files.old) name.now) (told (F.held files.new) name.now) bytes.now) }
    ensures others { SameElsewhere name.now (F.held files.old) (F.held files.new) }
    ensures cause { HasCauseOrLacks (Lacks (F.complete files.old) (F.held files.old) name.now) (F.write_faults files.old) (F.write_faults files.new) result }
    ensures complete { F.complete files.new ≡ F.complete files.old }
    ensures reads { F.read_faults files.new ≡ F.read_faults files.old }
{
    let mut done = 0;
    while done < bytes.len() {
        done += files.append(name, &bytes[done..])?;
    }
    Ok(())
}

/// Says all of `bytes`, where need be by more than one call.
pub fn say_all<Y: Say>(say: &mut Y, bytes: &[u8]) -> Result<(), Failed>
    ensures ok { OnOk result (SaysMore (Y.said say.old) (Y.said say.new) bytes.now) }
    ensures err { OnErr result (SaysInPart (Y.said say.old) (Y.said say.new) bytes.now) }
    ensures cause { HasCause (Y.faults say.old) (Y.faults say.new) result }
{
    let mut done = 0;
    while done < bytes.len() {
        done += say.write(&bytes[done..])?;
    }
    Ok(())
}
