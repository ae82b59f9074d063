//! `engine_bench WORK BLOCK BLOCKS`: an engine plays so many blocks of two channels, each the same noise, over one gain
//! (`gain`), over a gain with a lane, a filter, a delay and a meter (`chain`), or over thirty nodes in six chains that
//! are mixed (`chains`). It prints the sum of the last block's samples. The benchmark times it beside the same graphs in
//! C++.
#![tactic(auto)]

use engine_part::repeat;
use std::alloc::{AllocError, Global};
use std::env;
use std::process::ExitCode;
use vh_text::number;

/// What is played.
#[derive(Clone, Copy)]
enum Work {
    Gain,
    Chain,
    Chains,
}

/// The work of a name.
fn work_named(name: &str) -> Option<Work> {
    match name {
        "gain" => Some(Work::Gain),
        "chain" => Some(Work::Chain),
        "chains" => Some(Work::Chains),
        _ => None,
    }
}

const GAIN: &str = "node a gain
param a 0 6000000
wire in a
wire a out
";

const CHAIN: &str = "node a gain
node t onepole
node d delay
node m meter
param t 0 4000000
param d 0 8000000
param d 2 9000000
wire in a
wire a t
wire t d
wire d m
wire m out
lane a 0 12 0 0
point 8640000 8388608
";

/// One of six chains of five nodes.
fn one_chain(alloc: Global, k: u32) -> Result<String, AllocError> {
    format!(in alloc;
        "node g{k} gain
node t{k} onepole
node d{k} delay
node b{k} balance
node h{k} gain
param t{k} 0 {k}500000
param d{k} 0 {k}900000
param d{k} 2 9000000
param b{k} 0 {k}000000
param h{k} 0 {k}400000
wire in g{k}
wire g{k} t{k}
wire t{k} d{k}
wire d{k} b{k}
wire b{k} h{k}
wire h{k} out
"
    )
}

/// The lines of a work's nodes, first values, wires and lanes.
fn lines(alloc: Global, work: Work) -> Result<String, AllocError> {
    match work {
        Work::Gain => String::from_str(alloc, GAIN),
        Work::Chain => String::from_str(alloc, CHAIN),
        Work::Chains => {
            let mut text = String::new(alloc);
            for k in 1..7 {
                text.push_str(one_chain(alloc, k)?.as_str())?;
            }
            Ok(text)
        }
    }
}

/// Samples that look random, of 24 bits.
fn noise(alloc: Global, n: usize) -> Result<Vec<i32>, AllocError> {
    let mut samples = vec![in alloc; 0i32; n]?;
    let mut state = 7u32;
    for sample in &mut samples {
        state = state.wrapping_mul(1_664_525).wrapping_add(1_013_904_223);
        *sample = (state / 256) as i32 - 8_388_608;
    }
    Ok(samples)
}

/// Plays a work, and answers the sum of the last block's samples, or nothing where there is no such session.
fn run(alloc: Global, work: Work, block: u32, blocks: u32) -> Result<Option<i64>, AllocError> {
    let Some(frames) = block.checked_mul(blocks) else {
        return Ok(None);
    };
    let nodes = lines(alloc, work)?;
    let text = format!(in alloc;
        "vsthost session 1\nlength {frames}\nchannels 2\nbits 24\npattern 64\n{nodes}"
    )?;
    let samples = noise(alloc, 2 * block as usize)?;
    repeat(alloc, text.as_str(), &samples, block)
}

/// What the words ask for.
fn parsed(words: &[String]) -> Option<(Work, u32, u32)> {
    match words {
        [work, block, blocks] => Some((
            work_named(work.as_str())?,
            number(block.as_bytes())?,
            number(blocks.as_bytes())?,
        )),
        _ => None,
    }
}

fn main(rt: HostRuntime) -> ExitCode {
    let Ok(args) = env::args(&rt) else {
        return ExitCode::from(1);
    };
    let Ok(words) = args.skip(1).collect::<Vec<String>>(rt.alloc()) else {
        return ExitCode::from(1);
    };
    let Some((work, block, blocks)) = parsed(words.as_slice()) else {
        return ExitCode::from(1);
    };
    match run(rt.alloc(), work, block, blocks) {
        Ok(Some(sum)) => {
            let _ = println!(rt; "{sum}");
            ExitCode::from(0)
        }
        Ok(None) => ExitCode::from(1),
        Err(_) => ExitCode::from(2),
    }
}
