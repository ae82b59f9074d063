//! One block.

ghost use Rattle.std.specs.Prelude.{◌≡◌, ◌≢◌, ◌≤◌, ◌+◌, ◌*◌, ◌++◌, ◌⊎◌, List, [], length, map, false, OnOk, OnErr};
ghost use Rattle.vh_files.specs.Causes.{Rose};
ghost use Rattle.vh_num.specs.Frames.{Frame};
ghost use Rattle.vh_plugin.specs.Counts.{raised};
ghost use Rattle.vh_journal.specs.declared.entry.Entry.{Entry as Stored};
ghost use Rattle.vh_meaning.specs.Rendering.{Answer};
ghost use Rattle.vh_engine.specs.Kept.{scene_in, MayCarry, IsSameEngine};
ghost use Rattle.vh_stage.specs.Carried.{AreOn};
ghost use Rattle.vh_stage.specs.Parameters.{param_count};
ghost use Rattle.vh_stage.specs.Playing.{HasClasses, IsUnderWay, AreAt, IsRead, IsHeard, IsFront};

use crate::carried::are_on;
use crate::stopped::Stopped;
use vh_engine::Engine;
use vh_journal::Entry;
use vh_num::laws::frames_are_in_place;
use vh_plugin::Processor;
use vh_wav::Frames;

/// Reads the frames of the next block, renders them under these further entries, and adds what comes out.
fn sound<P: Processor + Drop, I: Frames>(
    engine: &mut Engine<P>,
    entries: &[Entry],
    n: usize,
    frames: &mut I,
    ins: &mut [i32],
    outs: &mut [i32],
) -> Result<(), Stopped>
    requires some { 1 ≤ n }
    requires most { n ≤ engine.old.max }
    requires within { engine.old.at + n ≤ engine.old.session.length }
    requires going { engine.old.flushed ≡ false }
    requires entries { MayCarry (scene_in P.class_of engine.old) engine.old.at (engine.old.at + n) engine.old.room entries.now }
    requires at { AreAt engine.old.at entries.now }
    requires classes { HasClasses P.class_of engine.old }
    requires ins { length ins.old ≡ engine.old.session.channels * n }
    requires outs { length outs.old ≡ engine.old.session.channels * n }
    requires some_channels { (engine.old.session.channels ≡ 1) ⊎ (engine.old.session.channels ≡ 2) }
    requires channels { I.channels frames.old ≡ engine.old.session.channels }
    requires max { n ≤ I.max frames.old }
    requires whole { I.cut frames.old ≡ [] }
    requires space { I.pushed frames.old + n ≤ I.room frames.old }
    ensures heard { (input before : List Frame) (h : List Stored) → IsHeard I.reads I.wrote P.class_of engine.old frames.old input before h
        → OnOk result (IsHeard I.reads I.wrote P.class_of engine.new frames.new input before (h ++ entries.now)) }
    ensures front { (input before : List Frame) (h : List Stored) → IsHeard I.reads I.wrote P.class_of engine.old frames.old input before h
        → OnErr result (IsFront I.wrote (scene_in P.class_of engine.old) frames.new (I.cut frames.new) input before (h ++ entries.now) (engine.old.at + n)) }
    ensures stands { (input : List Frame) (h : List Stored) → IsRead I.reads P.class_of engine.old frames.old input h
        → OnOk result (IsRead I.reads P.class_of engine.new frames.new input (h ++ entries.now)) }
    ensures under_way { (h : List Stored) → IsUnderWay P.class_of engine.old h → OnOk result (IsUnderWay P.class_of engine.new (h ++ entries.now)) }
    ensures values { (h : List Stored) → IsUnderWay P.class_of engine.old h → OnOk result (length engine.new.values ≡ param_count engine.old.session.nodes) }
    ensures answers { (h : List Stored) → IsUnderWay P.class_of engine.old h → OnOk result ((later : List Answer) × (engine.new.answers ≡ engine.old.answers ++ later)) }
    ensures at { OnOk result (engine.new.at ≡ engine.old.at + n) }
    ensures going { OnOk result (engine.new.flushed ≡ false) }
    ensures room { OnOk result (engine.old.room ≤ engine.new.room + length entries.now) }
    ensures calls { OnOk result (engine.new.calls ≡ map raised engine.old.calls) }
    ensures same { IsSameEngine engine.old engine.new }
    ensures pushed { OnOk result (I.pushed frames.new ≡ I.pushed frames.old + n) }
    ensures uncut { OnOk result (I.cut frames.new ≡ []) }
    ensures cut { result ≡ Err Stopped.WriteFailed → I.cut frames.new ≢ [] }
    ensures read { result ≡ Err Stopped.ReadFailed → Rose (I.pull_faults frames.old) (I.pull_faults frames.new) }
    ensures write { result ≡ Err Stopped.WriteFailed → Rose (I.push_faults frames.old) (I.push_faults frames.new) }
    ensures reads_later { I.pull_faults frames.old ≤ I.pull_faults frames.new }
    ensures writes_later { I.push_faults frames.old ≤ I.push_faults frames.new }
    ensures channels { I.channels frames.new ≡ I.channels frames.old }
    ensures space { I.room frames.new ≡ I.room frames.old }
    ensures max { I.max frames.new ≡ I.max frames.old }
    ensures rest { I.rest frames.new ≡ I.rest frames.old }
    ensures fit { result ≢ Err Stopped.Unfit }
{
    frames_are_in_place();
    match frames.pull(n, ins) {
        Ok(()) => {}
        Err(_) => return Err(Stopped::ReadFailed),
    }
    engine.block(n, entries, ins, outs);
    match frames.push(n, outs) {
        Ok(()) => Ok(()),
        Err(_) => Err(Stopped::WriteFailed),
    }
}

/// Reads the frames of the next block, renders them under these further entries, and adds what comes out. It stops
/// where the entries are on no parameter that can be set, where the frames can't be read, or where they can't be added.
/// `ins` and `outs` have room for the samples of the longest block.
pub(crate) fn play_block<P: Processor + Drop, I: Frames>(
    engine: &mut Engine<P>,
    entries: &[Entry],
    n: usize,
    frames: &mut I,
    ins: &mut [i32],
    outs: &mut [i32],
) -> Result<(), Stopped>
    requires some { 1 ≤ n }
    requires most { n ≤ engine.old.max }
    requires within { engine.old.at + n ≤ engine.old.session.length }
    requires going { engine.old.flushed ≡ false }
    requires classes { HasClasses P.class_of engine.old }
    requires at { AreAt engine.old.at entries.now }
    requires few { length entries.now ≤ engine.old.room }
    requires ins { engine.old.session.channels * engine.old.max ≤ length ins.old }
    requires outs { engine.old.session.channels * engine.old.max ≤ length outs.old }
    requires channels { I.channels frames.old ≡ engine.old.session.channels }
    requires max { n ≤ I.max frames.old }
    requires whole { I.cut frames.old ≡ [] }
    requires space { I.pushed frames.old + n ≤ I.room frames.old }
    ensures heard { (input before : List Frame) (h : List Stored) → IsHeard I.reads I.wrote P.class_of engine.old frames.old input before h
        → OnOk result (IsHeard I.reads I.wrote P.class_of engine.new frames.new input before (h ++ entries.now)) }
    ensures front { (input before : List Frame) (h : List Stored) → IsHeard I.reads I.wrote P.class_of engine.old frames.old input before h
        → OnErr result (IsFront I.wrote (scene_in P.class_of engine.old) frames.new (I.cut frames.new) input before (h ++ entries.now) (engine.old.at + n)) }
    ensures stands { (input : List Frame) (h : List Stored) → IsRead I.reads P.class_of engine.old frames.old input h
        → OnOk result (IsRead I.reads P.class_of engine.new frames.new input (h ++ entries.now)) }
    ensures under_way { (h : List Stored) → IsUnderWay P.class_of engine.old h → OnOk result (IsUnderWay P.class_of engine.new (h ++ entries.now)) }
    ensures values { (h : List Stored) → IsUnderWay P.class_of engine.old h → OnOk result (length engine.new.values ≡ param_count engine.old.session.nodes) }
    ensures answers { (h : List Stored) → IsUnderWay P.class_of engine.old h → OnOk result ((later : List Answer) × (engine.new.answers ≡ engine.old.answers ++ later)) }
    ensures at { OnOk result (engine.new.at ≡ engine.old.at + n) }
    ensures going { OnOk result (engine.new.flushed ≡ false) }
    ensures room { OnOk result (engine.old.room ≤ engine.new.room + length entries.now) }
    ensures calls { OnOk result (engine.new.calls ≡ map raised engine.old.calls) }
    ensures same { IsSameEngine engine.old engine.new }
    ensures pushed { OnOk result (I.pushed frames.new ≡ I.pushed frames.old + n) }
    ensures uncut { OnOk result (I.cut frames.new ≡ []) }
    ensures cut { result ≡ Err Stopped.WriteFailed → I.cut frames.new ≢ [] }
    ensures read { result ≡ Err Stopped.ReadFailed → Rose (I.pull_faults frames.old) (I.pull_faults frames.new) }
    ensures write { result ≡ Err Stopped.WriteFailed → Rose (I.push_faults frames.old) (I.push_faults frames.new) }
    ensures reads_later { I.pull_faults frames.old ≤ I.pull_faults frames.new }
    ensures writes_later { I.push_faults frames.old ≤ I.push_faults frames.new }
    ensures channels { I.channels frames.new ≡ I.channels frames.old }
    ensures space { I.room frames.new ≡ I.room frames.old }
    ensures max { I.max frames.new ≡ I.max frames.old }
    ensures rest { I.rest frames.new ≡ I.rest frames.old }
    ensures unfit { result ≡ Err Stopped.Unfit → ¬ AreOn engine.old.session.nodes entries.now }
{
    let session = engine.session();
    if !are_on(&session.nodes, entries) {
        return Err(Stopped::Unfit);
    }
    let size = usize::from(session.channels) * n;
    sound(
        engine,
        entries,
        n,
        frames,
        &mut ins[..size],
        &mut outs[..size],
    )
}
