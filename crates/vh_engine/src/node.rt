//! One node over a block.
//!
//! A call of `laws` does nothing: the proof uses what it ensures.

ghost use Rattle.std.specs.Prelude.{◌≡◌, ◌≤◌, ◌<◌, ◌+◌, ◌*◌, ℕ, length, true};
ghost use Rattle.vh_component.specs.States.{of_processing};
ghost use Rattle.vh_component.specs.declared.setup.Phase.TheVariants.{Processing as AtProcessing};
ghost use Rattle.vh_counted.specs.Held.{value_of_opened, object_of_opened, numbers_of_opened};
ghost use Rattle.vh_num.specs.Frames.{frame_at};
ghost use Rattle.vh_plugin.specs.Blocks.{AreAux};
ghost use Rattle.vh_plugin.specs.Counts.{raised};
ghost use Rattle.vh_points.specs.Model.{queues_of, most_points};
ghost use Rattle.vh_engine.specs.Nodes.{values_in, sent_of, AreOf, AreBehind, aux_frame, stream_of, IsRun};
ghost use Rattle.vh_engine.specs.Queued.{most_queues, AreControls, AreSent};

use crate::control::Control;
use crate::span::Span;
use vh_component::Processing;
use vh_plugin::Processor;
use vh_points::Points;

/// Sends all parameters of a node.
pub(crate) fn send_all(controls: &mut [Control], span: &Span, node: u32, points: &mut Points)
    requires controls { AreControls span.now node controls.old }
    requires queue_room { length controls.old ≤ most_queues points.old }
    requires room { length controls.old * span.now.frames ≤ most_points points.old }
    ensures points { AreSent span.now node controls.old (queues_of points.new) }
    ensures behind { AreBehind span.now node controls.old controls.new }
    ensures most_queues { most_queues points.new ≡ most_queues points.old }
    ensures most_points { most_points points.new ≡ most_points points.old }
{
    vh_lane::laws::points_mean_values();
    points.clear();
    for control in controls {
        if !control.shown {
            control.send(span, node, points);
        }
    }
}

/// Runs a node: sends its parameters and has it process the block. Samples stand channel after channel; `aux`
/// is empty where no wire reaches the aux bus.
pub(crate) fn run_node<P: Processor + Drop>(
    processor: &mut Processing<P>,
    controls: &mut [Control],
    span: &Span,
    node: u32,
    points: &mut Points,
    main: &[i32],
    aux: &[i32],
    out: &mut [i32],
)
    requires processing { P.phase (value_of_opened (of_processing processor.old)) ≡ AtProcessing }
    requires most { span.now.frames ≤ (P.last_setup (value_of_opened (of_processing processor.old))).max }
    requires main { length main.now ≡ (P.last_setup (value_of_opened (of_processing processor.old))).channels * span.now.frames }
    requires aux { AreAux (P.class_of (P.code (value_of_opened (of_processing processor.old)))) (P.last_setup (value_of_opened (of_processing processor.old))).channels span.now.frames aux.now }
    requires out { length out.old ≡ length main.now }
    requires controls { AreControls span.now node controls.old }
    requires params { AreOf (P.class_of (P.code (value_of_opened (of_processing processor.old)))).params controls.old }
    requires sent { P.values (value_of_opened (of_processing processor.old)) ≡ sent_of controls.old }
    requires queue_room { length controls.old ≤ most_queues points.old }
    requires room { length controls.old * span.now.frames ≤ most_points points.old }
    ensures run { IsRun (P.class_of (P.code (value_of_opened (of_processing processor.old))))
        (stream_of (P.last_setup (value_of_opened (of_processing processor.old))).channels (values_in span.now node controls.old)
        (frame_at (P.last_setup (value_of_opened (of_processing processor.old))).channels span.now.frames main.now)
        (aux_frame (P.last_setup (value_of_opened (of_processing processor.old))).channels span.now.frames aux.now))
        span.now.frames (P.state (value_of_opened (of_processing processor.old))) (P.state (value_of_opened (of_processing processor.new))) out.new }
    ensures long { length out.new ≡ length out.old }
    ensures behind { AreBehind span.now node controls.old controls.new }
    ensures sent { P.values (value_of_opened (of_processing processor.new)) ≡ sent_of controls.new }
    ensures calls { P.calls (value_of_opened (of_processing processor.new)) ≡ raised (P.calls (value_of_opened (of_processing processor.old))) }
    ensures code { P.code (value_of_opened (of_processing processor.new)) ≡ P.code (value_of_opened (of_processing processor.old)) }
    ensures phase { P.phase (value_of_opened (of_processing processor.new)) ≡ P.phase (value_of_opened (of_processing processor.old)) }
    ensures setup { P.last_setup (value_of_opened (of_processing processor.new)) ≡ P.last_setup (value_of_opened (of_processing processor.old)) }
    ensures object { object_of_opened (of_processing processor.new) ≡ object_of_opened (of_processing processor.old) }
    ensures numbers { numbers_of_opened (of_processing processor.new) ≡ numbers_of_opened (of_processing processor.old) }
    ensures most_queues { most_queues points.new ≡ most_queues points.old }
    ensures most_points { most_points points.new ≡ most_points points.old }
{
    vh_lane::laws::points_mean_values();
    vh_plugin::laws::block_goes_on();
    send_all(controls, span, node, points);
    processor
        .value_mut()
        .process(span.frames as usize, points, main, aux, out);
}
