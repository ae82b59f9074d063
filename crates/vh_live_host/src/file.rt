//! A file that is written whole.

ghost use Rattle.std.specs.Prelude.{◌≡◌, ◌≤◌, OnOk, OnErr, ◌⊎◌};
ghost use Rattle.vh_files.specs.Causes.{Rose};
ghost use Rattle.vh_files.specs.Store.{told, HasNow, SameElsewhere};
ghost use Rattle.vh_render.specs.Playing.{HasPart};

use vh_files::{Failed, Files, append_all};

/// Writes a file that has these bytes.
///
/// It fails where a call of the store does. Then no file was created, or the file has a front part of its bytes.
pub(crate) fn write_file<F: Files>(files: &mut F, name: &str, bytes: &[u8]) -> Result<(), Failed>
    ensures whole { OnOk result (HasNow (F.complete files.old) (told (F.held files.new) name.now) bytes.now) }
    ensures part { OnErr result ((F.held files.new ≡ F.held files.old) ⊎ HasPart (F.complete files.old) (told (F.held files.new) name.now) bytes.now) }
    ensures rose { OnErr result (Rose (F.write_faults files.old) (F.write_faults files.new)) }
    ensures others { SameElsewhere name.now (F.held files.old) (F.held files.new) }
    ensures later { F.write_faults files.old ≤ F.write_faults files.new }
    ensures complete { F.complete files.new ≡ F.complete files.old }
    ensures reads { F.read_faults files.new ≡ F.read_faults files.old }
{
    files.create(name)?;
    append_all(files, name, bytes)
}
