//! `check`.

ghost use Rattle.std.specs.Prelude.{◌≡◌, ◌≤◌, ⊤};
ghost use Rattle.vh_params.specs.ClassList.{classes_of};
ghost use Rattle.vh_answers.specs.Outside.{store, outside, OnlyReads};
ghost use Rattle.vh_answers.specs.Steps.{EndsUnsaid};
ghost use Rattle.vh_host.specs.Commands.{check_steps};
ghost use Rattle.vh_host.specs.Named.{status_of};

use crate::session::read_session;
use std::alloc::Global;
use vh_answers::{Place, Status};
use vh_files::{Files, Say, say_all};
use vh_params::Classes;

/// Says the canonical text of a session.
pub(crate) fn check<F: Files, Y: Say>(
    alloc: Global,
    name: &str,
    files: &mut F,
    say: &mut Y,
    classes: &Classes,
) -> Result<(), Status>
    ensures ends { EndsUnsaid (λ calls. calls ≡ 0) (outside F.Files Y.Say files.old files.new say.old say.new) (check_steps (classes_of classes.now) name.now) (status_of result) }
    ensures only_read { OnlyReads (store F.Files files.old) (store F.Files files.new) }
    ensures faults { Y.faults say.old ≤ Y.faults say.new }
{
    let session = read_session(alloc, files, name, classes)?;
    let Ok(text) = session.print(alloc) else {
        return Err(Status::Memory);
    };
    match say_all(say, text.as_slice()) {
        Ok(()) => Ok(()),
        Err(_) => Err(Status::WriteFault(Place::Report)),
    }
}
