//! All nodes over a block, in their order.
//!
//! A call of `laws` does nothing: the proof uses what it ensures.

ghost use Rattle.std.specs.Prelude.{◌≡◌, ◌≢◌, ◌≤◌, ◌<◌, ◌*◌, ◌^◌, ℕ, List, [], length, map, slice_index_or, All};
ghost use Rattle.vh_component.specs.States.{of_processing};
ghost use Rattle.vh_component.specs.declared.setup.Phase.{Phase};
ghost use Rattle.vh_counted.specs.Held.{value_of_opened, object_of_opened, numbers_of_opened};
ghost use Rattle.vh_component.specs.declared.setup.Phase.TheVariants.{Processing as AtProcessing};
ghost use Rattle.vh_component.specs.declared.setup.Setup.{Setup};
ghost use Rattle.vh_plugin.specs.Counts.{raised};
ghost use Rattle.vh_engine.specs.declared.seat.Seat.{Seat as Place};
ghost use Rattle.vh_engine.specs.Buses.{rows_of, row_at, IsSource, HaveRoom};
ghost use Rattle.vh_points.specs.Model.{most_points};
ghost use Rattle.vh_engine.specs.Nodes.{sent_of, AreBehind};
ghost use Rattle.vh_engine.specs.Queued.{most_queues};
ghost use Rattle.vh_engine.specs.Runs.{HasRun, AreAfter, IsSpacious, IsNodeReady, IsFlushReady};
ghost use Rattle.vh_engine.specs.Staged.{of_all, holders_of, boards_of, board_at};

use crate::bus::{mix, mix_aux};
use crate::control::Control;
use crate::node::{run_node, send_all};
use crate::seat::Seat;
use crate::space::Space;
use crate::span::Span;
use std::mem;
use vh_component::Processing;
use vh_plugin::Processor;
use vh_points::Points;

/// Runs one node in the room that is given: mixes what reaches it, and puts its samples at the start of `out`. Samples
/// stand channel after channel.
fn run_in<P: Processor + Drop>(
    node: u32,
    seat: &Seat,
    span: &Span,
    ins: &[i32],
    processor: &mut Processing<P>,
    controls: &mut [Control],
    rows: &[Vec<i32>],
    points: &mut Points,
    sums: &mut [i64],
    main: &mut [i32],
    aux: &mut [i32],
    out: &mut [i32],
)
    requires channels { 1 ≤ (P.last_setup (value_of_opened (of_processing processor.old))).channels }
    requires size { length ins.now ≡ (P.last_setup (value_of_opened (of_processing processor.old))).channels * span.now.frames }
    requires ready { (params : ℕ) × (params ≤ most_queues points.old) × (params * span.now.frames ≤ most_points points.old)
        × IsNodeReady (P.class_of (P.code (value_of_opened (of_processing processor.old)))) (P.phase (value_of_opened (of_processing processor.old))) (P.last_setup (value_of_opened (of_processing processor.old)))
        (P.values (value_of_opened (of_processing processor.old))) (P.last_setup (value_of_opened (of_processing processor.old))).channels params span.now node seat.now controls.old }
    requires main { All (IsSource (length rows.now)) seat.now.main.items }
    requires aux { All (IsSource (length rows.now)) seat.now.aux.items }
    requires rows { HaveRoom (length ins.now) (rows_of rows.now) }
    requires sums { length ins.now ≤ length sums.old }
    requires main_room { length ins.now ≤ length main.old }
    requires aux_room { length ins.now ≤ length aux.old }
    requires out { length ins.now ≤ length out.old }
    ensures run { HasRun (P.class_of (P.code (value_of_opened (of_processing processor.old)))) (P.last_setup (value_of_opened (of_processing processor.old))).channels span.now ins.now (rows_of rows.now) seat.now node
        controls.old controls.new (P.state (value_of_opened (of_processing processor.old))) (P.state (value_of_opened (of_processing processor.new))) out.new }
    ensures sent { P.values (value_of_opened (of_processing processor.new)) ≡ sent_of controls.new }
    ensures calls { P.calls (value_of_opened (of_processing processor.new)) ≡ raised (P.calls (value_of_opened (of_processing processor.old))) }
    ensures code { P.code (value_of_opened (of_processing processor.new)) ≡ P.code (value_of_opened (of_processing processor.old)) }
    ensures phase { P.phase (value_of_opened (of_processing processor.new)) ≡ P.phase (value_of_opened (of_processing processor.old)) }
    ensures setup { P.last_setup (value_of_opened (of_processing processor.new)) ≡ P.last_setup (value_of_opened (of_processing processor.old)) }
    ensures object { object_of_opened (of_processing processor.new) ≡ object_of_opened (of_processing processor.old) }
    ensures numbers { numbers_of_opened (of_processing processor.new) ≡ numbers_of_opened (of_processing processor.old) }
    ensures most_queues { most_queues points.new ≡ most_queues points.old }
    ensures most_points { most_points points.new ≡ most_points points.old }
{
    let size = ins.len();
    let sums = &mut sums[..size];
    let main = mix(&seat.main, ins, rows, sums, &mut main[..size]);
    let aux = mix_aux(&seat.aux, ins, rows, sums, &mut aux[..size]);
    run_node(
        processor,
        controls,
        span,
        node,
        points,
        main,
        aux,
        &mut out[..size],
    );
}

/// Runs one node, and has its row hold its samples.
fn run_at<P: Processor + Drop>(
    node: u32,
    seat: &Seat,
    span: &Span,
    ins: &[i32],
    processor: &mut Processing<P>,
    controls: &mut [Control],
    rows: &mut [Vec<i32>],
    space: &mut Space,
)
    requires node { node < length rows.old }
    requires channels { 1 ≤ (P.last_setup (value_of_opened (of_processing processor.old))).channels }
    requires size { length ins.now ≡ (P.last_setup (value_of_opened (of_processing processor.old))).channels * span.now.frames }
    requires ready { (params : ℕ) × IsSpacious space.old (length ins.now) params span.now.frames
        × IsNodeReady (P.class_of (P.code (value_of_opened (of_processing processor.old)))) (P.phase (value_of_opened (of_processing processor.old))) (P.last_setup (value_of_opened (of_processing processor.old)))
        (P.values (value_of_opened (of_processing processor.old))) (P.last_setup (value_of_opened (of_processing processor.old))).channels params span.now node seat.now controls.old }
    requires main { All (IsSource (length rows.old)) seat.now.main.items }
    requires aux { All (IsSource (length rows.old)) seat.now.aux.items }
    requires room { HaveRoom (length ins.now) (rows_of rows.old) }
    ensures run { HasRun (P.class_of (P.code (value_of_opened (of_processing processor.old)))) (P.last_setup (value_of_opened (of_processing processor.old))).channels span.now ins.now (rows_of rows.old) seat.now node
        controls.old controls.new (P.state (value_of_opened (of_processing processor.old))) (P.state (value_of_opened (of_processing processor.new))) (row_at (rows_of rows.new) node) }
    ensures others { (other : ℕ) → other ≢ node → row_at (rows_of rows.new) other ≡ row_at (rows_of rows.old) other }
    ensures long { length rows.new ≡ length rows.old }
    ensures room { (size params frames : ℕ) → HaveRoom size (rows_of rows.old) → IsSpacious space.old size params frames
        → HaveRoom size (rows_of rows.new) × IsSpacious space.new size params frames }
    ensures sent { P.values (value_of_opened (of_processing processor.new)) ≡ sent_of controls.new }
    ensures calls { P.calls (value_of_opened (of_processing processor.new)) ≡ raised (P.calls (value_of_opened (of_processing processor.old))) }
    ensures code { P.code (value_of_opened (of_processing processor.new)) ≡ P.code (value_of_opened (of_processing processor.old)) }
    ensures phase { P.phase (value_of_opened (of_processing processor.new)) ≡ P.phase (value_of_opened (of_processing processor.old)) }
    ensures setup { P.last_setup (value_of_opened (of_processing processor.new)) ≡ P.last_setup (value_of_opened (of_processing processor.old)) }
    ensures object { object_of_opened (of_processing processor.new) ≡ object_of_opened (of_processing processor.old) }
    ensures numbers { numbers_of_opened (of_processing processor.new) ≡ numbers_of_opened (of_processing processor.old) }
{
    run_in(
        node,
        seat,
        span,
        ins,
        processor,
        controls,
        rows,
        &mut space.points,
        &mut space.sums,
        &mut space.main,
        &mut space.aux,
        &mut space.out,
    );
    mem::swap(&mut rows[node as usize], &mut space.out);
}

/// Runs all nodes.
pub(crate) fn run_nodes<P: Processor + Drop>(
    order: &[u32],
    seats: &[Seat],
    span: &Span,
    ins: &[i32],
    processors: &mut [Processing<P>],
    boards: &mut [Vec<Control>],
    rows: &mut [Vec<i32>],
    space: &mut Space,
)
    requires processors { length processors.old ≡ length seats.now }
    requires boards { length boards.old ≡ length seats.now }
    requires rows { length rows.old ≡ length seats.now }
    requires order { AreAfter (length seats.now) seats.now [] order.now }
    requires ready { (channels params : ℕ) × (length ins.now ≡ channels * span.now.frames) × (1 ≤ channels) × IsSpacious space.old (length ins.now) params span.now.frames
        × ((node c : ℕ) (p : Phase) (s : Setup) (d : Place) → node < length seats.now
        → IsNodeReady (P.class_of (slice_index_or (of_all P.code processors.old) node c)) (slice_index_or (of_all P.phase processors.old) node p) (slice_index_or (of_all P.last_setup processors.old) node s)
        (slice_index_or (of_all P.values processors.old) node []) channels params span.now node (slice_index_or seats.now node d) (board_at (boards_of boards.old) node)) }
    requires room { HaveRoom (length ins.now) (rows_of rows.old) }
    ensures run { (channels node c : ℕ) (d : Place) → length ins.now ≡ channels * span.now.frames → node < length seats.now
        → HasRun (P.class_of (slice_index_or (of_all P.code processors.old) node c)) channels span.now ins.now (rows_of rows.new) (slice_index_or seats.now node d) node
        (board_at (boards_of boards.old) node) (board_at (boards_of boards.new) node)
        (slice_index_or (of_all P.state processors.old) node []) (slice_index_or (of_all P.state processors.new) node []) (row_at (rows_of rows.new) node) }
    ensures sent { of_all P.values processors.new ≡ map sent_of (boards_of boards.new) }
    ensures calls { of_all P.calls processors.new ≡ map raised (of_all P.calls processors.old) }
    ensures codes { of_all P.code processors.new ≡ of_all P.code processors.old }
    ensures phases { of_all P.phase processors.new ≡ of_all P.phase processors.old }
    ensures setups { of_all P.last_setup processors.new ≡ of_all P.last_setup processors.old }
    ensures holders { holders_of processors.new ≡ holders_of processors.old }
    ensures boards { length boards.new ≡ length boards.old }
    ensures rows { length rows.new ≡ length rows.old }
    ensures room { (size params frames : ℕ) → HaveRoom size (rows_of rows.old) → IsSpacious space.old size params frames
        → HaveRoom size (rows_of rows.new) × IsSpacious space.new size params frames }
{
    for &node in order {
        let k = node as usize;
        run_at(
            node,
            &seats[k],
            span,
            ins,
            &mut processors[k],
            &mut boards[k],
            rows,
            space,
        );
    }
}

/// Has one node take the values of a sample, without a frame.
fn flush_at<P: Processor + Drop>(
    node: u32,
    span: &Span,
    processor: &mut Processing<P>,
    controls: &mut [Control],
    points: &mut Points,
)
    requires sample { span.now.frames ≡ 1 }
    requires ready { (params : ℕ) × (params ≤ most_queues points.old) × (params ≤ most_points points.old)
        × IsFlushReady (P.class_of (P.code (value_of_opened (of_processing processor.old)))) (P.phase (value_of_opened (of_processing processor.old))) (P.values (value_of_opened (of_processing processor.old)))
        params span.now node controls.old }
    ensures behind { AreBehind span.now node controls.old controls.new }
    ensures state { P.state (value_of_opened (of_processing processor.new)) ≡ P.state (value_of_opened (of_processing processor.old)) }
    ensures sent { P.values (value_of_opened (of_processing processor.new)) ≡ sent_of controls.new }
    ensures calls { P.calls (value_of_opened (of_processing processor.new)) ≡ raised (P.calls (value_of_opened (of_processing processor.old))) }
    ensures code { P.code (value_of_opened (of_processing processor.new)) ≡ P.code (value_of_opened (of_processing processor.old)) }
    ensures phase { P.phase (value_of_opened (of_processing processor.new)) ≡ P.phase (value_of_opened (of_processing processor.old)) }
    ensures setup { P.last_setup (value_of_opened (of_processing processor.new)) ≡ P.last_setup (value_of_opened (of_processing processor.old)) }
    ensures object { object_of_opened (of_processing processor.new) ≡ object_of_opened (of_processing processor.old) }
    ensures numbers { numbers_of_opened (of_processing processor.new) ≡ numbers_of_opened (of_processing processor.old) }
    ensures queues { most_queues points.new ≡ most_queues points.old }
    ensures points { most_points points.new ≡ most_points points.old }
{
    vh_lane::laws::points_mean_values();
    send_all(controls, span, node, points);
    processor.value_mut().process(0, points, &[], &[], &mut []);
}

/// Has all nodes take the values of a sample, without a frame.
pub(crate) fn flush_nodes<P: Processor + Drop>(
    span: &Span,
    processors: &mut [Processing<P>],
    boards: &mut [Vec<Control>],
    points: &mut Points,
)
    requires boards { length boards.old ≡ length processors.old }
    requires few { length processors.old < 2 ^ 32 }
    requires sample { span.now.frames ≡ 1 }
    requires ready { (params : ℕ) × (params ≤ most_queues points.old) × (params ≤ most_points points.old)
        × ((node c : ℕ) (p : Phase) → node < length processors.old
        → IsFlushReady (P.class_of (slice_index_or (of_all P.code processors.old) node c)) (slice_index_or (of_all P.phase processors.old) node p)
        (slice_index_or (of_all P.values processors.old) node []) params span.now node (board_at (boards_of boards.old) node)) }
    ensures behind { (node : ℕ) → node < length processors.old → AreBehind span.now node (board_at (boards_of boards.old) node) (board_at (boards_of boards.new) node) }
    ensures states { of_all P.state processors.new ≡ of_all P.state processors.old }
    ensures sent { of_all P.values processors.new ≡ map sent_of (boards_of boards.new) }
    ensures calls { of_all P.calls processors.new ≡ map raised (of_all P.calls processors.old) }
    ensures codes { of_all P.code processors.new ≡ of_all P.code processors.old }
    ensures phases { of_all P.phase processors.new ≡ of_all P.phase processors.old }
    ensures setups { of_all P.last_setup processors.new ≡ of_all P.last_setup processors.old }
    ensures holders { holders_of processors.new ≡ holders_of processors.old }
    ensures boards { length boards.new ≡ length boards.old }
    ensures queues { most_queues points.new ≡ most_queues points.old }
    ensures points { most_points points.new ≡ most_points points.old }
{
    for node in 0..processors.len() {
        flush_at(
            node as u32,
            span,
            &mut processors[node],
            &mut boards[node],
            points,
        );
    }
}
