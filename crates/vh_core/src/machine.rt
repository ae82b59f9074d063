//! The machine over processors.

ghost use Rattle.std.specs.Prelude.{◌≡◌, ◌≤◌, ◌<◌, ◌+◌, ◌-◌, ◌^◌, ℕ, [], ◌∷◌, length, map, take, IfOk, IfErr, OnOk, OnErr};
ghost use Rattle.vh_params.specs.Nodes.{nodes_of};
ghost use Rattle.vh_legal.specs.Values.{AreFirsts};
ghost use Rattle.vh_session.specs.Names.{content_of};
ghost use Rattle.vh_core.specs.declared.event.Event.TheVariants.{Put, Audio, Back, Flush};
ghost use Rattle.vh_core.specs.State.{seen};
ghost use Rattle.vh_core.specs.Sound.{IsSound};
ghost use Rattle.vh_core.specs.Run.{setting_in, begins, stepped, through};
ghost use Rattle.vh_core.specs.Stage.{IsPlan, IsRoom};
ghost use Rattle.vh_core.specs.Kept.{run_in, samples_of, HasNothing};
ghost use Rattle.vh_core.specs.Machine.{AreReady, IsMachine};

use crate::event::Event;
use crate::kept::{Kept, put, take_in};
use crate::play::{give_messages, play};
use crate::returns::{give_back, tell};
use crate::show::show;
use crate::stage::{Plan, Room};
use std::alloc::{AllocError, Global};
use std::marker::Model;
use vh_journal::Entry;
use vh_params::Word;
use vh_plugin::Processor;
use vh_session::Session;

/// A machine over processors, one for each node, and the empty input. It plays one sample at a time, tells each change
/// at once, and is never fast: what an event comes to is what its definition says.
#[derive(Drop)]
pub struct Machine<'s, P: Processor + Drop> {
    session: &'s Session,
    processors: Vec<P>,
    plan: Plan,
    room: Room,
    kept: Kept,
}

impl<'s, P: Processor + Drop> Model for Machine<'s, P> {
    ghost use Rattle.vh_session.specs.Names.{content_of};
    ghost use Rattle.vh_core.specs.Run.{Run};
    ghost use Rattle.vh_core.specs.Kept.{run_in};
    ghost use Rattle.vh_core.specs.Machine.{IsMachine};

    ghost Value = { Run };

    ghost view = { λ m. run_in P.code (content_of m.session.now) m.plan m.processors.items m.kept };

    ghost invariant = { λ m. IsMachine P.class_of P.code P.state P.phase P.last_setup (content_of m.session.now) m.plan m.room m.processors.items m.kept };
}

impl<'s, P: Processor + Drop> Machine<'s, P> {
    /// A machine before its first event. `first` has the normalised first values, node by node and within each by
    /// rising id. For want of memory it gives the processors back.
    pub fn new(
        alloc: Global,
        session: &'s Session,
        first: &[u32],
        processors: Vec<P>,
    ) -> Result<Machine<'s, P>, Vec<P>>
        requires { AreReady P.class_of P.code P.state P.values P.phase P.last_setup (content_of session.now) first.now processors.items }
        ensures begins { IfOk result (λ made. made ≡ begins P.class_of (content_of session.now) (map P.code processors.items) first.now) }
        ensures back { IfErr result (λ back. back ≡ processors) }
    {
        match parts(alloc, session, first) {
            Ok((plan, room, kept)) => Ok(Machine {
                session,
                processors,
                plan,
                room,
                kept,
            }),
            Err(AllocError) => Err(processors),
        }
    }

    /// One event. After want of memory nothing has changed.
    pub fn step(&mut self, alloc: Global, event: &Event) -> Result<(), AllocError>
        requires { length self.old.state.puts + 1 < 2 ^ 32 - 1 }
        ensures ok { OnOk result (self.new ≡ stepped P.class_of event.now self.old) }
        ensures err { OnErr result (self.new ≡ self.old) }
        ensures sound { IsSound (setting_in P.class_of self.new) self.new.state }
    {
        let done = self.follow(alloc, event);
        let _kept = &self.kept;
        done
    }

    /// Several events, one after another. After want of memory it stands behind the first of them, as many as were
    /// done.
    pub fn run(&mut self, alloc: Global, events: &[Event]) -> Result<(), AllocError>
        requires { length self.old.state.puts + length events.now < 2 ^ 32 - 1 }
        ensures ok { OnOk result (self.new ≡ through P.class_of events.now self.old) }
        ensures err { OnErr result ((done : ℕ) × (done < length events.now) × (self.new ≡ through P.class_of (take done events.now) self.old)) }
        ensures sound { IsSound (setting_in P.class_of self.new) self.new.state }
    {
        for event in events {
            self.step(alloc, event)?;
        }
        let _kept = &self.kept;
        Ok(())
    }

    /// What editors put so far, whether it was accepted or not.
    pub fn puts(&self) -> &[(u32, Word)]
        ensures { result.now ≡ self.now.state.puts }
    {
        &self.kept.puts
    }

    /// What was taken, at which samples.
    pub fn journal(&self) -> &[Entry]
        ensures { result.now ≡ self.now.state.journal }
    {
        &self.kept.journal
    }

    /// How many samples were rendered.
    pub fn pos(&self) -> u32
        ensures { result ≡ self.now.state.pos }
    {
        self.kept.pos
    }

    /// The frames that were rendered, one behind the other, in 2^-23 of full scale.
    pub fn frames(&self) -> &[i32]
        ensures { result.now ≡ samples_of self.now.state.frames }
    {
        &self.kept.frames
    }

    /// What is seen of all parameters, node by node: the first values before any sample, then those of the last sample,
    /// and behind the flush the final ones. A read-only parameter has what its processor shows.
    pub fn values(&self) -> &[u32]
        ensures { result.now ≡ seen (setting_in P.class_of self.now) self.now.state }
    {
        &self.kept.values
    }

    /// What the controllers have. Once all came back, it is what is seen.
    pub fn controllers(&self) -> &[u32]
        ensures value { result.now ≡ self.now.state.controllers }
        ensures equal { self.now.state.returns ≡ [] → result.now ≡ seen (setting_in P.class_of self.now) self.now.state }
    {
        &self.kept.controllers
    }
}

/// Each kind of event.
impl<'s, P: Processor + Drop> Machine<'s, P> {
    fn follow(&mut self, alloc: Global, event: &Event) -> Result<(), AllocError>
        requires { length self.old.state.puts < 2 ^ 32 - 1 }
        ensures ok { OnOk result (self.new ≡ stepped P.class_of event.now self.old) }
        ensures err { OnErr result (self.new ≡ self.old) }
    {
        match *event {
            Event::Put { editor, word } => self.put(alloc, editor, word),
            Event::Audio { take, frames } => self.audio(alloc, take, frames),
            Event::Back { take } => {
                self.give_back(take);
                Ok(())
            }
            Event::Flush => self.flush(alloc),
        }
    }

    fn put(&mut self, alloc: Global, editor: u32, word: Word) -> Result<(), AllocError>
        requires { length self.old.state.puts < 2 ^ 32 - 1 }
        ensures ok { OnOk result (self.new ≡ stepped P.class_of (Put editor word) self.old) }
        ensures err { OnErr result (self.new ≡ self.old) }
    {
        let (nodes, kept) = (&self.session.nodes, &mut self.kept);
        put(alloc, nodes, editor, word, &mut kept.puts, &mut kept.inbox)?;
        Ok(())
    }

    fn audio(&mut self, alloc: Global, take: u32, frames: u32) -> Result<(), AllocError>
        ensures ok { OnOk result (self.new ≡ stepped P.class_of (Audio take frames) self.old) }
        ensures err { OnErr result (self.new ≡ self.old) }
    {
        audio(
            alloc,
            self.session,
            &self.plan,
            &mut self.processors,
            &mut self.room,
            &mut self.kept,
            take,
            frames,
        )
    }

    fn give_back(&mut self, take: u32)
        ensures { self.new ≡ stepped P.class_of (Back take) self.old }
    {
        give_back(take, &mut self.kept.returns, &mut self.kept.controllers);
    }

    fn flush(&mut self, alloc: Global) -> Result<(), AllocError>
        ensures ok { OnOk result (self.new ≡ stepped P.class_of Flush self.old) }
        ensures err { OnErr result (self.new ≡ self.old) }
    {
        flush(
            alloc,
            self.session,
            &self.plan,
            &mut self.processors,
            &mut self.room,
            &mut self.kept,
        )
    }
}

/// What a machine is made of beside its processors.
fn parts(alloc: Global, session: &Session, first: &[u32]) -> Result<(Plan, Room, Kept), AllocError>
    requires { AreFirsts (nodes_of session.now.nodes) first.now }
    ensures plan { IfOk result (λ parts. IsPlan (content_of session.now) parts.0) }
    ensures firsts { IfOk result (λ parts. parts.0.firsts.items ≡ first.now) }
    ensures room { IfOk result (λ parts. IsRoom (content_of session.now) parts.1) }
    ensures values { IfOk result (λ parts. parts.2.values.items ≡ first.now) }
    ensures controllers { IfOk result (λ parts. parts.2.controllers.items ≡ first.now) }
    ensures nothing { IfOk result (λ parts. HasNothing parts.2) }
{
    let plan = Plan::new(alloc, session, first)?;
    let room = Room::new(alloc, session)?;
    let kept = Kept::new(alloc, first)?;
    Ok((plan, room, kept))
}

/// Takes so much of what waits, and plays so many frames, at most to the end.
fn audio<P: Processor + Drop>(
    alloc: Global,
    session: &Session,
    plan: &Plan,
    processors: &mut [P],
    room: &mut Room,
    kept: &mut Kept,
    take: u32,
    frames: u32,
) -> Result<(), AllocError>
    requires machine { IsMachine P.class_of P.code P.state P.phase P.last_setup (content_of session.now) plan.now room.old processors.old kept.old }
    ensures ok { OnOk result (run_in P.code (content_of session.now) plan.now processors.new kept.new ≡ stepped P.class_of (Audio take frames) (run_in P.code (content_of session.now) plan.now processors.old kept.old)) }
    ensures err { OnErr result (run_in P.code (content_of session.now) plan.now processors.new kept.new ≡ run_in P.code (content_of session.now) plan.now processors.old kept.old) }
    ensures machine { IsMachine P.class_of P.code P.state P.phase P.last_setup (content_of session.now) plan.now room.new processors.new kept.new }
{
    if kept.flushed {
        return Ok(());
    }
    let count = (take as usize).min(kept.inbox.len());
    let more = frames.min(session.length - kept.pos);
    let samples = usize::from(session.channels) * more as usize;
    let mut shown = kept.reserve(alloc, count, samples)?;
    take_in(count, kept.pos, &mut kept.inbox, &mut kept.journal);
    if more == 0 {
        return Ok(());
    }
    let (journal, from) = (&kept.journal, kept.pos);
    let (out, returns) = (&mut kept.frames, &mut kept.returns);
    play(
        session, plan, processors, room, journal, from, more, out, returns,
    );
    kept.pos += more;
    let last = kept.pos - 1;
    show(session, plan, processors, room, journal, last, &mut shown);
    tell(&kept.values, &shown, returns);
    kept.values = shown;
    Ok(())
}

/// Behind the last sample, takes all that waits, gives the messages at the end, and tells each change.
fn flush<P: Processor + Drop>(
    alloc: Global,
    session: &Session,
    plan: &Plan,
    processors: &mut [P],
    room: &mut Room,
    kept: &mut Kept,
) -> Result<(), AllocError>
    requires machine { IsMachine P.class_of P.code P.state P.phase P.last_setup (content_of session.now) plan.now room.old processors.old kept.old }
    ensures ok { OnOk result (run_in P.code (content_of session.now) plan.now processors.new kept.new ≡ stepped P.class_of Flush (run_in P.code (content_of session.now) plan.now processors.old kept.old)) }
    ensures err { OnErr result (run_in P.code (content_of session.now) plan.now processors.new kept.new ≡ run_in P.code (content_of session.now) plan.now processors.old kept.old) }
    ensures machine { IsMachine P.class_of P.code P.state P.phase P.last_setup (content_of session.now) plan.now room.new processors.new kept.new }
{
    if kept.flushed {
        return Ok(());
    }
    if kept.pos != session.length {
        return Ok(());
    }
    let count = kept.inbox.len();
    let mut shown = kept.reserve(alloc, count, 0)?;
    take_in(count, kept.pos, &mut kept.inbox, &mut kept.journal);
    let (journal, end) = (&kept.journal, kept.pos);
    let returns = &mut kept.returns;
    give_messages(session, plan, processors, room, journal, end, returns);
    show(session, plan, processors, room, journal, end, &mut shown);
    tell(&kept.values, &shown, returns);
    kept.values = shown;
    kept.flushed = true;
    Ok(())
}
