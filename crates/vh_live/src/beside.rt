//! The threads of a run.

ghost use Rattle.std.specs.Thread.{IsSync};
ghost use Rattle.std.specs.Prelude.{◌≡◌, ◌≤◌, ℕ, List, [], false, All};
ghost use Rattle.vh_live.specs.Runs.{MayBegin, AreLeft, IsSounded, IsWorked};

use crate::run::Run;
use std::sync::Wait;
use std::sync::atomic::{AtomicBool, Ordering};
use std::thread::{Threads, join_mut};
use vh_editors::{Editors, Takings};
use vh_files::Gate;
use vh_hands::Hands;
use vh_plugin::{Controller, Processor};
use vh_stage::{Stage, Stopped};
use vh_wav::Frames;

/// What is beside the audio: the editors work at their scripts, each in a thread of its own, and the controllers follow.
fn work<R: Threads + Wait + Sync, C: Controller + Drop, G: Gate + Sync>(
    rt: &R,
    gate: &G,
    editors: &mut Editors,
    hands: &mut Hands<C>,
    ended: &AtomicBool,
)
    requires { editors.old.done ≡ false }
    ensures { IsWorked C.class_of (record { code = C.code; values = C.values; mode = C.mode }) editors.old editors.new hands.old hands.new }
{
    join_mut(
        rt,
        &mut ||
            requires { IsSync R.row × IsSync G.row × (editors.now.done ≡ false) }
        { editors.work(rt, gate) },
        &mut || hands.follow_until(rt, ended),
    );
}

/// The audio: plays all blocks, and tells those beside it that it has ended.
fn sound<P: Processor + Drop, R: Wait, G: Gate, I: Frames>(
    stage: &mut Stage<P>,
    sizes: &[u32],
    takings: &mut Takings<'_, R, G>,
    frames: &mut I,
    ended: &AtomicBool,
) -> Result<(), Stopped>
    requires begin { MayBegin P.class_of I.Frames frames.old sizes.now stage.old }
    requires untaken { takings.old.drain.taken ≡ [] }
    ensures sounded { IsSounded P.class_of I.Frames frames.old frames.new sizes.now stage.old stage.new takings.old.drain takings.new.drain result }
    ensures left { AreLeft I.Frames frames.old frames.new result }
{
    let result = vh_stage::play(stage, sizes, takings, frames);
    ended.store(true, Ordering::SeqCst);
    result
}

/// Plays all blocks of a run, on this thread, while its editors work and its controllers follow beside it.
pub(crate) fn perform<
    R: Threads + Wait + Sync,
    P: Processor + Drop,
    C: Controller + Drop + Send + Sync,
    G: Gate + Sync,
    I: Frames,
>(rt: &R, gate: &G, run: Run<P, C>, frames: &mut I) -> (Run<P, C>, Result<(), Stopped>)
    requires begin { MayBegin P.class_of I.Frames frames.old run.sizes.items run.stage }
    requires untaken { run.drain.taken ≡ [] }
    requires waiting { run.editors.done ≡ false }
    ensures sounded { IsSounded P.class_of I.Frames frames.old frames.new run.sizes.items run.stage result.0.stage run.drain result.0.drain result.1 }
    ensures left { AreLeft I.Frames frames.old frames.new result.1 }
    ensures worked { IsWorked C.class_of (record { code = C.code; values = C.values; mode = C.mode }) run.editors result.0.editors run.hands result.0.hands }
    ensures components { result.0.components ≡ run.components }
    ensures refused { result.0.refused ≡ run.refused }
{
    let Run {
        mut stage,
        mut editors,
        drain,
        mut hands,
        components,
        sizes,
        refused,
    } = run;
    let mut takings = Takings::new(rt, gate, drain);
    let ended = AtomicBool::new(false);
    let (_, result) = join_mut(
        rt,
        &mut ||
            requires { IsSync R.row × IsSync G.row × (editors.done ≡ false) }
        { work(rt, gate, &mut editors, &mut hands, &ended) },
        &mut ||
            requires { MayBegin P.class_of I.Frames frames.now sizes.items stage × (takings.drain.taken ≡ []) }
        { sound(&mut stage, &sizes, &mut takings, frames, &ended) },
    );
    let run = Run {
        stage,
        editors,
        drain: takings.into_drain(),
        hands,
        components,
        sizes,
        refused,
    };
    (run, result)
}
