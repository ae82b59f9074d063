//! Callers that know nothing of a set but its contracts.

ghost use Rattle.std.specs.Prelude.{◌≡◌, ◌≤◌, ◌<◌, ◌*◌, length, IfOk};
ghost use Rattle.vh_component.specs.declared.setup.Phase.TheVariants.{Created as AtCreated, Processing as AtProcessing};
ghost use Rattle.vh_component.specs.States.{of_processing};
ghost use Rattle.vh_counted.specs.Held.{object_of, object_of_opened, numbers_of_opened, value_of_opened};
ghost use Rattle.vh_counted.specs.Objects.{IsWhole};
ghost use Rattle.vh_counted.specs.Steps.{first_numbers};
ghost use Rattle.vh_points.specs.Model.{queues_of};
ghost use Rattle.vh_plugin.specs.Class.{firsts_of};
ghost use Rattle.vh_plugin.specs.Blocks.{AreFor};
ghost use Rattle.vh_plugin.specs.Counts.{raised};
ghost use Rattle.plugin_example.specs.Rows.{AreRow};

use std::alloc::{AllocError, Global};
use vh_component::{Created, Layout, Processing, Setup};
use vh_counted::{Counted, Opened, Shell};
use vh_plugin::{PluginSet, Processor, laws};
use vh_points::Points;

/// Brings a component that was created to processing.
fn started<T: Processor + Drop>(opener: Opened<T>, aux: bool, setup: &Setup) -> Processing<T>
    requires { T.phase (value_of_opened opener) ≡ AtCreated }
    ensures phase { T.phase (value_of_opened (of_processing result)) ≡ AtProcessing }
    ensures setup { T.last_setup (value_of_opened (of_processing result)) ≡ setup.now }
    ensures rest { T.rest (value_of_opened (of_processing result)) ≡ T.rest (value_of_opened opener) }
    ensures object { object_of_opened (of_processing result) ≡ object_of_opened opener }
    ensures numbers { numbers_of_opened (of_processing result) ≡ numbers_of_opened opener }
{
    let initialized = Created::from(opener).initialize(Layout::new(setup.channels, aux));
    initialized.set_up(setup).activate().start()
}

/// Brings a component of a class of the set to processing.
pub fn brought<S: PluginSet>(
    alloc: Global,
    set: &mut S,
    class: u32,
    aux: bool,
    setup: &Setup,
) -> Result<(Counted<S::P>, Processing<S::P>), AllocError>
    requires { class < length (S.infos set.old) }
    ensures code { IfOk result (λ made. S.P.Processor.code (value_of_opened (of_processing made.1)) ≡ S.code set.old class) }
    ensures values { IfOk result (λ made. S.P.Processor.values (value_of_opened (of_processing made.1)) ≡ firsts_of (S.P.Processor.class_of (S.code set.old class)).params) }
    ensures state { IfOk result (λ made. S.P.Processor.state (value_of_opened (of_processing made.1)) ≡ (S.P.Processor.class_of (S.code set.old class)).start) }
    ensures calls { IfOk result (λ made. S.P.Processor.calls (value_of_opened (of_processing made.1)) ≡ 0) }
    ensures phase { IfOk result (λ made. S.P.Life.phase (value_of_opened (of_processing made.1)) ≡ AtProcessing) }
    ensures setup { IfOk result (λ made. S.P.Life.last_setup (value_of_opened (of_processing made.1)) ≡ setup.now) }
    ensures interfaces { IfOk result (λ made. (object_of made.0).interfaces ≡ 5) }
    ensures object { IfOk result (λ made. object_of_opened (of_processing made.1) ≡ object_of made.0) }
    ensures numbers { IfOk result (λ made. numbers_of_opened (of_processing made.1) ≡ first_numbers (object_of made.0).cap) }
    ensures whole { IfOk result (λ made. IsWhole (object_of made.0).cap (numbers_of_opened (of_processing made.1))) }
{
    let component = set.create_component(alloc, class)?;
    let (object, opener) = Shell::new(alloc, 5, 0)?.fill(component);
    Ok((object, started(opener, aux, setup)))
}

/// Plays a block of `n` samples of each channel, and one of `m` behind it, without aux frames.
pub fn two_in_a_row<P: Processor>(
    processor: &mut P,
    n: usize,
    points: &Points,
    main: &[i32],
    out: &mut [i32],
    m: usize,
    later_points: &Points,
    later_main: &[i32],
    later_out: &mut [i32],
)
    requires processing { P.phase processor.old ≡ AtProcessing }
    requires most { n ≤ (P.last_setup processor.old).max }
    requires main { length main.now ≡ (P.last_setup processor.old).channels * n }
    requires out { length out.old ≡ (P.last_setup processor.old).channels * n }
    requires points { AreFor (P.class_of (P.code processor.old)) n (queues_of points.now) }
    requires later_most { m ≤ (P.last_setup processor.old).max }
    requires later_main { length later_main.now ≡ (P.last_setup processor.old).channels * m }
    requires later_out { length later_out.old ≡ (P.last_setup processor.old).channels * m }
    requires later_points { AreFor (P.class_of (P.code processor.old)) m (queues_of later_points.now) }
    ensures stream { AreRow (P.class_of (P.code processor.old)) (P.last_setup processor.old).channels (P.state processor.old) (P.values processor.old) n (queues_of points.now) main.now out.new m (queues_of later_points.now) later_main.now later_out.new (P.state processor.new) }
    ensures calls { P.calls processor.new ≡ raised (raised (P.calls processor.old)) }
    ensures phase { P.phase processor.new ≡ AtProcessing }
{
    laws::block_goes_on();
    processor.process(n, points, main, &[], out);
    processor.process(m, later_points, later_main, &[], later_out);
}
