//! `preset-show`.

ghost use Rattle.std.specs.Prelude.{◌≡◌, ◌≤◌, ⊤};
ghost use Rattle.vh_answers.specs.Outside.{store, outside, OnlyReads};
ghost use Rattle.vh_answers.specs.Steps.{EndsUnsaid};
ghost use Rattle.vh_host.specs.Commands.{show_steps};
ghost use Rattle.vh_host.specs.Named.{status_of};

use std::alloc::Global;
use vh_answers::{Line, Place, Status, say_listing};
use vh_files::{Files, Say};
use vh_reading::read_preset;

/// Says the listing of a preset.
pub(crate) fn preset_show<F: Files, Y: Say>(
    alloc: Global,
    name: &str,
    files: &mut F,
    say: &mut Y,
) -> Result<(), Status>
    ensures ends { EndsUnsaid (λ calls. calls ≡ 0) (outside F.Files Y.Say files.old files.new say.old say.new) (show_steps name.now) (status_of result) }
    ensures only_read { OnlyReads (store F.Files files.old) (store F.Files files.new) }
    ensures faults { Y.faults say.old ≤ Y.faults say.new }
{
    let Ok(mut line) = Line::new(alloc) else {
        return Err(Status::Memory);
    };
    let preset = match read_preset(alloc, files, name, None) {
        Ok(preset) => preset,
        Err(status) => return Err(status),
    };
    match say_listing(&mut line, say, &preset) {
        Ok(()) => Ok(()),
        Err(_) => Err(Status::WriteFault(Place::Report)),
    }
}
