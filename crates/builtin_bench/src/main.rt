//! `builtin_bench CLASS BLOCK POINTS BLOCKS`: plays blocks of two channels over a built-in class, with so many
//! points in each block, and prints the sum of the last block's samples. The benchmark times it beside the same
//! loops in C++.
#![tactic(auto)]

ghost use Rattle.std.specs.Prelude.{◌≡◌, ◌≤◌, ◌<◌, ◌+◌, ◌*◌, ◌^◌, ◌⊎◌, [], length, All, IfOk};
ghost use Rattle.vh_component.specs.declared.setup.Phase.TheVariants.{Processing};
ghost use Rattle.vh_points.specs.Model.{queues_of};
ghost use Rattle.vh_plugin.specs.Class.{AreValues, has_writable};
ghost use Rattle.vh_plugin.specs.Blocks.{AreFor};
ghost use Rattle.builtin_bench.specs.Filled.{IsFilled};

use std::alloc::{AllocError, Global};
use std::env;
use std::process::ExitCode;
use vh_builtin::BuiltIn;
use vh_component::{Created, Layout, Setup};
use vh_counted::Shell;
use vh_plugin::{PluginSet, Processor};
use vh_points::Points;
use vh_text::number;

/// Adds a queue of the first parameter, with so many points in a block, or as many as there are samples.
#[tactic(auto, using(crate::proofs::Filling::filled_first, crate::proofs::Filling::filled_none))]
fn fill(points: &mut Points, n: u32, count: u32)
    requires { queues_of points.old ≡ [] }
    ensures { IsFilled n (queues_of points.new) }
{
    if points.free_queues() == 0 || !points.lacks(0) || count == 0 {
        return;
    }
    let q = points.add_queue(0);
    let gap = (n / count).max(1);
    for k in 0..count {
        let offset = k.saturating_mul(gap);
        let value = if k % 2 == 0 { 9_000_000 } else { 3_000_000 };
        add(points, q, n, offset, value);
    }
}

/// Adds a point of the last queue, where it may stand there.
fn add(points: &mut Points, q: usize, n: u32, offset: u32, value: u32)
    requires filled { IsFilled n (queues_of points.old) }
    requires last { q + 1 ≡ length (queues_of points.old) }
    requires value { value ≤ 2 ^ 24 }
    ensures filled { IsFilled n (queues_of points.new) }
    ensures last { q + 1 ≡ length (queues_of points.new) }
{
    if offset < n && points.free_points() > 0 && points.may_follow(q, offset, value) {
        points.add_point(q, offset, value);
    }
}

/// Samples that look random, of 24 bits.
fn make_input(alloc: Global, n: usize) -> Result<Vec<i32>, AllocError>
    ensures { IfOk result (λ samples. length samples.items ≡ n) }
{
    let mut samples = vec![in alloc; 0i32; n]?;
    let mut state = 7u32;
    for i in 0..n {
        state = state.wrapping_mul(1_664_525).wrapping_add(1_013_904_223);
        samples[i] = (state / 256) as i32 - 8_388_608;
    }
    Ok(samples)
}

/// Plays the same block so many times.
fn play_blocks<P: Processor>(
    processor: &mut P,
    blocks: u32,
    n: usize,
    points: &Points,
    main: &[i32],
    out: &mut [i32],
)
    requires processing { P.phase processor.old ≡ Processing }
    requires most { n ≤ (P.last_setup processor.old).max }
    requires main { length main.now ≡ (P.last_setup processor.old).channels * n }
    requires out { length out.old ≡ (P.last_setup processor.old).channels * n }
    requires points { AreFor (P.class_of (P.code processor.old)) n (queues_of points.now) }
    ensures phase { P.phase processor.new ≡ Processing }
{
    for _ in 0..blocks {
        processor.process(n, points, main, &[], out);
    }
}

/// Plays so many blocks of `n` samples of each of two channels over a class, with so many points in each, and
/// answers the sum of the last block's samples, or nothing where there is no such class.
fn run(
    alloc: Global,
    class: u32,
    n: u32,
    count: u32,
    blocks: u32,
) -> Result<Option<i64>, AllocError>
    requires { n ≤ 8192 }
{
    let mut set = BuiltIn::new(alloc)?;
    let mut points = Points::new(alloc, 1, 8192)?;
    if class >= set.classes().len() || n == 0 {
        return Ok(None);
    }
    let samples = 2 * n as usize;
    let main = make_input(alloc, samples)?;
    let mut out = vec![in alloc; 0i32; samples]?;
    if class != 6 {
        fill(&mut points, n, count);
    }
    let component = set.create_component(alloc, class)?;
    let (object, opener) = Shell::new(alloc, 5, 0)?.fill(component);
    let setup = Setup {
        channels: 2,
        max: n,
    };
    let initialized = Created::from(opener).initialize(Layout::new(2, false));
    let mut processing = initialized.set_up(&setup).activate().start();
    play_blocks(
        processing.value_mut(),
        blocks,
        n as usize,
        &points,
        &main,
        &mut out,
    );
    let opener = processing.stop().deactivate().terminate();
    let (holder, ended) = object.end(opener, 0);
    set.end_component(ended);
    object.dissolve(holder);
    let mut sum = 0i64;
    for i in 0..samples {
        sum = sum.wrapping_add(i64::from(out[i]));
    }
    Ok(Some(sum))
}

/// The numbers of the words.
fn numbers(words: &[String]) -> Option<(u32, u32, u32, u32)> {
    match words {
        [class, n, count, blocks] => Some((
            number(class.as_bytes())?,
            number(n.as_bytes())?,
            number(count.as_bytes())?,
            number(blocks.as_bytes())?,
        )),
        _ => None,
    }
}

fn main(rt: HostRuntime) -> ExitCode {
    let Ok(args) = env::args(&rt) else {
        return ExitCode::from(1);
    };
    let Ok(words) = args.skip(1).collect::<Vec<String>>(rt.alloc()) else {
        return ExitCode::from(1);
    };
    let Some((class, n, count, blocks)) = numbers(words.as_slice()) else {
        return ExitCode::from(1);
    };
    match run(rt.alloc(), class, n.min(8192), count, blocks) {
        Ok(Some(sum)) => {
            let _ = println!(rt; "{sum}");
            ExitCode::from(0)
        }
        Ok(None) => ExitCode::from(1),
        Err(_) => ExitCode::from(2),
    }
}
