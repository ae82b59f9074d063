//! Reading a session.

ghost use Rattle.std.specs.Prelude.{◌≡◌, ◌≤◌, length, IfOk, IfErr};
ghost use Rattle.vh_params.specs.ClassList.{classes_of};
ghost use Rattle.vh_session.specs.Ended.{SaysSession};
ghost use Rattle.vh_session.specs.Keeps.{StandsUnder};
ghost use Rattle.vh_session.specs.Names.{content_of};
ghost use Rattle.vh_answers.specs.Outside.{store, OnlyReads};
ghost use Rattle.vh_answers.specs.Steps.{Gives, Halts};
ghost use Rattle.vh_host.specs.Commands.{session_step, IsTextFault};

use std::alloc::Global;
use vh_answers::{Place, Status};
use vh_files::Files;
use vh_num::Refusal;
use vh_params::Classes;
use vh_reading::read_text;
use vh_session::{SESSION_LIMIT, Session, SessionFault, SessionKind, read};

/// What refuses a session that has too many bytes.
const TOO_LONG: Status = Status::SessionRefused(SessionFault {
    line: 0,
    kind: SessionKind::TooLong,
});

/// The session that a text says, or its first fault.
fn parse(alloc: Global, text: &[u8], classes: &Classes) -> Result<Session, Status>
    ensures says { IfOk result (λ session. SaysSession (classes_of classes.now) text.now (content_of session)) }
    ensures stands { IfOk result (λ session. StandsUnder (classes_of classes.now) (content_of session)) }
    ensures stop { IfErr result (IsTextFault (classes_of classes.now) text.now) }
{
    match read(alloc, text, classes) {
        Ok(session) => Ok(session),
        Err(Refusal::Fault(fault)) => Err(Status::SessionRefused(fault)),
        Err(Refusal::Memory) => Err(Status::Memory),
    }
}

/// Reads a session.
pub(crate) fn read_session<F: Files>(
    alloc: Global,
    files: &mut F,
    name: &str,
    classes: &Classes,
) -> Result<Session, Status>
    ensures gives { IfOk result (λ session. Gives (store F.Files files.old) (session_step (classes_of classes.now) name.now) (content_of session)) }
    ensures stands { IfOk result (λ session. StandsUnder (classes_of classes.now) (content_of session)) }
    ensures stop { IfErr result (Halts (store F.Files files.old) (store F.Files files.new) (session_step (classes_of classes.now) name.now)) }
    ensures only_read { OnlyReads (store F.Files files.old) (store F.Files files.new) }
{
    let text = read_text(alloc, files, name, Place::Session, SESSION_LIMIT, TOO_LONG)?;
    parse(alloc, text.as_slice(), classes)
}
