//! What every class needs once: a block is run in stretches in which no value changes.

ghost use Rattle.std.specs.Prelude.{◌≡◌, ◌≤◌, ◌<◌, ◌*◌, ◌-◌, ◌^◌, ◌⊎◌, ℤ, List, [], All, length};
ghost use Rattle.vh_points.specs.Model.{queues_of};
ghost use Rattle.vh_points.specs.Values.{value_behind, points_of};
ghost use Rattle.vh_plugin.specs.Quiet.{ids_of, IsQueueOf, IsMoved, AreMoved, Stands, AllStand, AreBehind};
ghost use Rattle.vh_plugin.specs.Class.{Class, AreValues};
ghost use Rattle.vh_plugin.specs.Blocks.{values_behind, block_of, state_in, IsOutput, AreAux};
ghost use Rattle.vh_plugin.specs.Runs.{mono, stereo, aux_mono, aux_stereo, AreBeside, run_state, IsRun};
ghost use Rattle.vh_plugin.specs.Stretch.{IsPart, stretch_state, IsStretch};

use vh_points::Points;

/// The number of a parameter's queue.
fn queue_of(points: &Points, id: u32) -> Option<usize>
    ensures { IsQueueOf (queues_of points.now) id result }
{
    for i in 0..points.queues() {
        if points.queue(i).0 == id {
            return Some(i);
        }
    }
    None
}

/// Applies a parameter's points from number `passed` on, up to those at an offset. The answer is how many are
/// passed then, the value, and where it may change next, at most at a limit.
fn moved(
    points: &Points,
    id: u32,
    passed: usize,
    value: u32,
    from: usize,
    limit: usize,
) -> (usize, u32, usize)
    requires limit { from < limit }
    requires value { value ≤ 2 ^ 24 }
    ensures value { result.1 ≤ 2 ^ 24 }
    ensures moved { IsMoved (points_of (queues_of points.now) id) passed value from result.0 result.1 result.2 }
    ensures after { from < result.2 }
    ensures within { result.2 ≤ limit }
{
    let mut passed = passed;
    let mut value = value;
    if let Some(q) = queue_of(points, id) {
        while passed < points.queue(q).1 {
            let (offset, point) = points.point(q, passed);
            if offset as usize > from {
                return (passed, value, limit.min(offset as usize));
            }
            value = point;
            passed += 1;
        }
    }
    (passed, value, limit)
}

/// The same where the value stands until `next`: nothing is to be applied before.
fn move_on(
    points: &Points,
    id: u32,
    passed: usize,
    value: u32,
    next: usize,
    from: usize,
    limit: usize,
) -> (usize, u32, usize)
    requires limit { from < limit }
    requires value { value ≤ 2 ^ 24 }
    requires stands { Stands (points_of (queues_of points.now) id) passed value from next }
    ensures value { result.1 ≤ 2 ^ 24 }
    ensures moved { IsMoved (points_of (queues_of points.now) id) passed value from result.0 result.1 result.2 }
    ensures stands { Stands (points_of (queues_of points.now) id) result.0 result.1 from result.2 }
    ensures after { from < result.2 }
{
    if next > from {
        (passed, value, next)
    } else {
        moved(points, id, passed, value, from, limit)
    }
}

/// Applies the points of all parameters up to those at an offset, and answers where a value may change next,
/// at most at a limit. Of each parameter it is kept where its value may change next.
fn move_all(
    ids: &[u32],
    points: &Points,
    passed: &mut [usize],
    nexts: &mut [usize],
    values: &mut [u32],
    from: usize,
    limit: usize,
) -> usize
    requires limit { from < limit }
    requires passed { length passed.old ≡ length ids.now }
    requires nexts { length nexts.old ≡ length ids.now }
    requires values { length values.old ≡ length ids.now }
    requires within { All (λ value. value ≤ 2 ^ 24) values.old }
    requires stand { AllStand ids.now (queues_of points.now) passed.old values.old from nexts.old }
    ensures within_one { All (λ value. value ≤ 2 ^ 24) values.new }
    ensures moved { AreMoved ids.now (queues_of points.now) passed.old values.old from passed.new values.new result }
    ensures stand { AllStand ids.now (queues_of points.now) passed.new values.new from nexts.new }
    ensures after { from < result }
    ensures within { result ≤ limit }
{
    let mut next = limit;
    for i in 0..ids.len() {
        let (count, value, sooner) = move_on(
            points, ids[i], passed[i], values[i], nexts[i], from, limit,
        );
        passed[i] = count;
        values[i] = value;
        nexts[i] = sooner;
        next = next.min(sooner);
    }
    next
}

/// Makes each parameter's value the one behind the block.
fn values_after(ids: &[u32], points: &Points, values: &mut [u32])
    requires values { length values.old ≡ length ids.now }
    requires within { All (λ value. value ≤ 2 ^ 24) values.old }
    ensures within_one { All (λ value. value ≤ 2 ^ 24) values.new }
    ensures behind { AreBehind ids.now (queues_of points.now) values.old (length ids.now) values.new }
{
    for i in 0..ids.len() {
        values[i] = value_after(points, ids[i], values[i]);
    }
}

/// The value of a parameter behind the block.
#[tactic(auto, using(crate::proofs::Stretches::behind_at, crate::proofs::Stretches::behind_none))]
fn value_after(points: &Points, id: u32, before: u32) -> u32
    requires { before ≤ 2 ^ 24 }
    ensures within { result ≤ 2 ^ 24 }
    ensures value { result ≡ value_behind before (points_of (queues_of points.now) id) }
{
    let Some(q) = queue_of(points, id) else {
        return before;
    };
    match points.queue(q).1.checked_sub(1) {
        Some(last) => points.point(q, last).1,
        None => before,
    }
}

/// What a class of processors writes: what it does in a stretch of a block in which no value changes.
pub trait Kernel {
    /// What its class means.
    ghost class: { Class };

    /// What it keeps between samples.
    ghost state: { Self → List ℤ };

    /// Processes a stretch of one channel at these values of its parameters. `aux` is empty where there is no
    /// aux frame.
    fn mono(&mut self, values: &[u32], main: &[i32], aux: &[i32], out: &mut [i32])
        requires values { AreValues class.params values.now }
        requires aux { AreBeside class (length main.now) aux.now }
        requires out { length out.old ≡ length main.now }
        ensures out { IsRun class 1 (state self.old) values.now (mono main.now) (aux_mono aux.now) (length main.now) (mono out.new) }
        ensures state { state self.new ≡ run_state class 1 (state self.old) values.now (mono main.now) (aux_mono aux.now) (length main.now) };

    /// Processes a stretch of two channels.
    fn stereo(
        &mut self,
        values: &[u32],
        left: &[i32],
        right: &[i32],
        aux_left: &[i32],
        aux_right: &[i32],
        out_left: &mut [i32],
        out_right: &mut [i32],
    )
        requires values { AreValues class.params values.now }
        requires right { length right.now ≡ length left.now }
        requires aux_left { AreBeside class (length left.now) aux_left.now }
        requires aux_right { length aux_right.now ≡ length aux_left.now }
        requires out_left { length out_left.old ≡ length left.now }
        requires out_right { length out_right.old ≡ length left.now }
        ensures out { IsRun class 2 (state self.old) values.now (stereo left.now right.now) (aux_stereo aux_left.now aux_right.now) (length left.now) (stereo out_left.new out_right.new) }
        ensures state { state self.new ≡ run_state class 2 (state self.old) values.now (stereo left.now right.now) (aux_stereo aux_left.now aux_right.now) (length left.now) };
}

/// A stretch of aux samples, where there are any.
fn part_of(aux: &[i32], from: usize, to: usize) -> &[i32]
    requires from { from ≤ to }
    requires to { (length aux.now ≡ 0) ⊎ (to ≤ length aux.now) }
    ensures { IsPart from to aux.now result.now }
{
    if aux.is_empty() { aux } else { &aux[from..to] }
}

/// Runs a stretch of a block of one channel.
fn run_mono<K: Kernel>(
    kernel: &mut K,
    values: &[u32],
    from: usize,
    to: usize,
    main: &[i32],
    aux: &[i32],
    out: &mut [i32],
)
    requires values { AreValues K.class.params values.now }
    requires from { from < to }
    requires to { to ≤ length main.now }
    requires aux { AreBeside K.class (length main.now) aux.now }
    requires out { length out.old ≡ length main.now }
    ensures out { IsStretch K.class (K.state kernel.old) values.now (block_of 1 (length main.now) [] [] main.now aux.now) from to out.old out.new }
    ensures state { K.state kernel.new ≡ stretch_state K.class (K.state kernel.old) values.now (block_of 1 (length main.now) [] [] main.now aux.now) from (to - from) }
{
    let aux = part_of(aux, from, to);
    kernel.mono(values, &main[from..to], aux, &mut out[from..to]);
}

/// Runs a stretch of a block of two channels of `n` samples.
fn run_stereo<K: Kernel>(
    kernel: &mut K,
    values: &[u32],
    n: usize,
    from: usize,
    to: usize,
    main: &[i32],
    aux: &[i32],
    out: &mut [i32],
)
    requires values { AreValues K.class.params values.now }
    requires from { from < to }
    requires to { to ≤ n }
    requires main { length main.now ≡ 2 * n }
    requires aux { AreAux K.class 2 n aux.now }
    requires out { length out.old ≡ 2 * n }
    ensures out { IsStretch K.class (K.state kernel.old) values.now (block_of 2 n [] [] main.now aux.now) from to out.old out.new }
    ensures state { K.state kernel.new ≡ stretch_state K.class (K.state kernel.old) values.now (block_of 2 n [] [] main.now aux.now) from (to - from) }
{
    let (left, right) = main.split_at(n);
    let (out_left, out_right) = out.split_at_mut(n);
    let (aux_left, aux_right) = aux.split_at(n.min(aux.len()));
    let aux_left = part_of(aux_left, from, to);
    let aux_right = part_of(aux_right, from, to);
    kernel.stereo(
        values,
        &left[from..to],
        &right[from..to],
        aux_left,
        aux_right,
        &mut out_left[from..to],
        &mut out_right[from..to],
    );
}

/// Runs a stretch of a block of `n` samples of each channel.
fn run_stretch<K: Kernel>(
    kernel: &mut K,
    values: &[u32],
    channels: u16,
    n: usize,
    from: usize,
    to: usize,
    main: &[i32],
    aux: &[i32],
    out: &mut [i32],
)
    requires values { AreValues K.class.params values.now }
    requires channels { (channels ≡ 1) ⊎ (channels ≡ 2) }
    requires from { from < to }
    requires to { to ≤ n }
    requires main { length main.now ≡ channels * n }
    requires aux { AreAux K.class channels n aux.now }
    requires out { length out.old ≡ channels * n }
    ensures out { IsStretch K.class (K.state kernel.old) values.now (block_of channels n [] [] main.now aux.now) from to out.old out.new }
    ensures state { K.state kernel.new ≡ stretch_state K.class (K.state kernel.old) values.now (block_of channels n [] [] main.now aux.now) from (to - from) }
{
    if channels == 1 {
        run_mono(kernel, values, from, to, main, aux, out);
    } else {
        run_stereo(kernel, values, n, from, to, main, aux, out);
    }
}

/// Plays a block of `n` samples of each channel over a kernel, whose parameters have these identifiers, with their values
/// before it and behind it. Samples stand channel after channel; `aux` is empty where there is no aux frame.
pub fn play<K: Kernel>(
    kernel: &mut K,
    ids: &[u32],
    values: &mut [u32],
    points: &Points,
    channels: u16,
    n: usize,
    main: &[i32],
    aux: &[i32],
    out: &mut [i32],
)
    requires ids { ids_of K.class.params ≡ ids.now }
    requires few { length ids.now ≤ 64 }
    requires values { AreValues K.class.params values.old }
    requires channels { (channels ≡ 1) ⊎ (channels ≡ 2) }
    requires main { length main.now ≡ channels * n }
    requires aux { AreAux K.class channels n aux.now }
    requires out { length out.old ≡ channels * n }
    ensures out { IsOutput K.class (K.state kernel.old) (block_of channels n (queues_of points.now) values.old main.now aux.now) out.new }
    ensures state { K.state kernel.new ≡ state_in K.class (K.state kernel.old) (block_of channels n (queues_of points.now) values.old main.now aux.now) n }
    ensures values { values.new ≡ values_behind K.class.params (queues_of points.now) values.old }
    ensures valued { AreValues K.class.params values.new }
{
    let mut passed_store = [0usize; 64];
    let mut nexts_store = [0usize; 64];
    let passed = &mut passed_store[..ids.len()];
    let nexts = &mut nexts_store[..ids.len()];
    let mut from = 0;
    while from < n {
        let to = move_all(ids, points, passed, nexts, values, from, n);
        run_stretch(kernel, values, channels, n, from, to, main, aux, out);
        from = to;
    }
    values_after(ids, points, values);
}
