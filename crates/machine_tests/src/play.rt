//! A session over which a machine runs.

ghost use Rattle.std.specs.Prelude.{◌≡◌, ◌<◌, ◌+◌, ◌-◌, ◌^◌, [], length, IfOk};
ghost use Rattle.vh_session.specs.Keeps.{StandsUnder};
ghost use Rattle.vh_session.specs.Names.{content_of};

use crate::players::{first_values, players};
use engine_part::Heard;
use std::alloc::{AllocError, Global};
use vh_builtin::BuiltIn;
use vh_core::{Event, Machine};
use vh_journal::Entry;
use vh_plugin::{PluginSet, Processor};
use vh_session::{Session, read};

/// What a machine came to.
#[derive(Drop)]
pub(crate) struct Ran {
    pub(crate) puts: usize,
    pub(crate) journal: Vec<Entry>,
    pub(crate) pos: u32,
    /// The frames' samples, one frame behind the other.
    pub(crate) frames: Vec<i32>,
    pub(crate) values: Vec<u32>,
    pub(crate) controllers: Vec<u32>,
}

impl Ran {
    /// What this machine came to.
    fn of<P: Processor + Drop>(alloc: Global, machine: &Machine<P>) -> Result<Ran, AllocError> {
        Ok(Ran {
            puts: machine.puts().len(),
            journal: Vec::from_slice(alloc, machine.journal())?,
            pos: machine.pos(),
            frames: Vec::from_slice(alloc, machine.frames())?,
            values: Vec::from_slice(alloc, machine.values())?,
            controllers: Vec::from_slice(alloc, machine.controllers())?,
        })
    }

    /// Whether it has the frames and values that an engine made of its journal. From a silent input all frames
    /// are silent, so their order isn't told apart.
    pub(crate) fn is_heard(&self, heard: &Heard) -> bool {
        self.frames == heard.samples
            && self.values == heard.values
            && self.controllers == heard.values
    }

    /// Whether another machine came to the same, by whatever was put.
    pub(crate) fn is_like(&self, other: &Ran) -> bool {
        self.journal == other.journal
            && self.pos == other.pos
            && self.frames == other.frames
            && self.values == other.values
            && self.controllers == other.controllers
    }
}

/// Runs a machine over a session of the built-in classes without presets. Nothing where the text is no session.
pub(crate) fn run(alloc: Global, text: &str, events: &[Event]) -> Result<Option<Ran>, AllocError> {
    let mut set = BuiltIn::new(alloc)?;
    let Ok(session) = read(alloc, text.as_bytes(), set.classes()) else {
        return Ok(None);
    };
    if events.len() > 10_000 {
        return Ok(None);
    }
    Ok(Some(run_session(alloc, &mut set, &session, events)?))
}

/// Runs it over such a session.
fn run_session<S: PluginSet>(
    alloc: Global,
    set: &mut S,
    session: &Session,
    events: &[Event],
) -> Result<Ran, AllocError>
    requires stands { StandsUnder (S.infos set.old) (content_of session.now) }
    requires few { length events.now < 2 ^ 32 - 1 }
{
    let first = first_values(alloc, session)?;
    let processors = players(alloc, set, session, &first)?;
    let Ok(mut machine) = Machine::new(alloc, session, &first, processors) else {
        return Err(AllocError);
    };
    machine.run(alloc, events)?;
    Ran::of(alloc, &machine)
}
