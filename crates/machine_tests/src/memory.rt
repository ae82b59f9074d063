//! A machine for which any one call finds no memory. `rt try --test --fail-alloc N` makes the Nth fail.

ghost use Rattle.std.specs.Prelude.{◌≡◌, length};
ghost use Rattle.vh_params.specs.Nodes.{nodes_of};
ghost use Rattle.vh_legal.specs.Values.{AreFirsts};
ghost use Rattle.vh_session.specs.Keeps.{StandsUnder};
ghost use Rattle.vh_session.specs.Names.{content_of};
ghost use Rattle.vh_core.specs.Machine.{AreReady};

use crate::players::{first_values, players};
use crate::tests::{ALL, audio, back, begin, end, perform, tell};
use std::alloc::{AllocError, Global};
use std::process::Abort;
use std::test::Fail;
use vh_builtin::BuiltIn;
use vh_core::{Event, Machine};
use vh_plugin::{PluginSet, Processor};
use vh_session::{Session, read};

/// How many events there are.
const COUNT: usize = 10;

/// What is shown before each event and behind the last.
type Shown = [u64; COUNT + 1];

fn mixed(sum: u64, number: u64) -> u64 {
    sum.wrapping_mul(1_000_003).wrapping_add(number)
}

/// What a machine shows, as one number, for which no memory is needed.
fn shown<P: Processor + Drop>(machine: &Machine<P>) -> u64 {
    let mut sum = mixed(u64::from(machine.pos()), machine.puts().len() as u64);
    sum = mixed(sum, machine.journal().len() as u64);
    sum = mixed(sum, machine.frames().len() as u64);
    for value in machine.values() {
        sum = mixed(sum, u64::from(*value));
    }
    for value in machine.controllers() {
        sum = mixed(sum, u64::from(*value));
    }
    sum
}

/// A machine, of the same processors again where there was no memory for it.
fn made<'s, P: Processor + Drop>(
    alloc: Global,
    session: &'s Session,
    first: &[u32],
    processors: Vec<P>,
) -> Result<Machine<'s, P>, AllocError>
    requires { AreReady P.class_of P.code P.state P.values P.phase P.last_setup (content_of session.now) first.now processors.items }
{
    let back = match Machine::new(alloc, session, first, processors) {
        Ok(machine) => return Ok(machine),
        Err(back) => back,
    };
    Machine::new(alloc, session, first, back).map_err(|_| AllocError)
}

/// Whether there was memory for an event.
fn is_done<P: Processor + Drop>(
    rt: &impl Abort,
    alloc: Global,
    machine: &mut Machine<P>,
    event: &Event,
) -> bool {
    assert!(rt; machine.puts().len() < 1000);
    machine.step(alloc, event).is_ok()
}

/// Each event, once more where there was no memory for it and nothing had changed.
fn step_each<P: Processor + Drop>(
    rt: &impl Abort,
    alloc: Global,
    machine: &mut Machine<P>,
    events: &[Event; COUNT],
) -> Shown {
    let mut behind = [shown(machine); COUNT + 1];
    for place in 0..COUNT {
        if !is_done(rt, alloc, machine, &events[place]) {
            assert_eq!(rt; shown(machine), behind[place], "at {place}");
            assert!(rt; is_done(rt, alloc, machine, &events[place]));
        }
        behind[place + 1] = shown(machine);
    }
    behind
}

/// Whether there was memory for these events.
fn are_done<P: Processor + Drop>(
    rt: &impl Abort,
    alloc: Global,
    machine: &mut Machine<P>,
    events: &[Event],
) -> bool {
    assert!(rt; machine.puts().len() < 1000 && events.len() < 1000);
    machine.run(alloc, events).is_ok()
}

/// All events at once, or those that are left where there was no memory for one.
fn run_all<P: Processor + Drop>(
    rt: &impl Abort,
    alloc: Global,
    machine: &mut Machine<P>,
    events: &[Event; COUNT],
    behind: &Shown,
) {
    if !are_done(rt, alloc, machine, events) {
        let stands = shown(machine);
        let done = behind.iter().position(|each| *each == stands);
        let done = done.expect(rt, "no front of the events");
        assert!(rt; done < COUNT);
        assert!(rt; are_done(rt, alloc, machine, &events[done..]));
    }
    assert_eq!(rt; shown(machine), behind[COUNT]);
}

/// Runs two machines over a session, the second where what the first showed is known.
fn pass<S: PluginSet>(
    rt: &impl Abort,
    alloc: Global,
    set: &mut S,
    session: &Session,
    events: &[Event; COUNT],
    known: Option<Shown>,
) -> Result<Shown, AllocError>
    requires { StandsUnder (S.infos set.old) (content_of session.now) }
{
    let first = first_values(alloc, session)?;
    let processors = players(alloc, set, session, &first)?;
    let mut machine = made(alloc, session, &first, processors)?;
    match known {
        None => Ok(step_each(rt, alloc, &mut machine, events)),
        Some(behind) => {
            run_all(rt, alloc, &mut machine, events, &behind);
            Ok(behind)
        }
    }
}

#[test]
fn what_finds_no_memory_changes_nothing(rt: HostRuntime) -> Result<(), Fail> {
    let alloc = rt.alloc();
    let events = [
        begin(0, 0),
        perform(0, 0, 1_000_000),
        audio(9, 20),
        tell(0, 6, 1),
        audio(9, 30),
        back(99),
        audio(9, 99),
        end(0, 0),
        Event::Flush,
        back(99),
    ];
    let mut set = BuiltIn::new(alloc)?;
    let session = read(alloc, ALL.as_bytes(), set.classes())?;
    let behind = pass(&rt, alloc, &mut set, &session, &events, None)?;
    let mut set = BuiltIn::new(alloc)?;
    let session = read(alloc, ALL.as_bytes(), set.classes())?;
    pass(&rt, alloc, &mut set, &session, &events, Some(behind))?;
    Ok(())
}
