//! An engine that plays one block over and over.

ghost use Rattle.std.specs.Prelude.{◌≡◌, ◌≤◌, ◌*◌, length, false, All};
ghost use Rattle.vh_component.specs.declared.setup.Phase.TheVariants.{Processing as AtProcessing};
ghost use Rattle.vh_engine.specs.Kept.{IsSameEngine};
ghost use Rattle.vh_engine.specs.Parts.{AreParts};
ghost use Rattle.vh_engine.specs.Staged.{of_all, holders_of};

use std::alloc::{AllocError, Global};
use vh_engine::{Engine, Parts};
use vh_journal::Entry;
use vh_plugin::Processor;

/// Plays a block of `size` frames so many times, without entries.
#[tactic(auto, using(crate::proofs::Carrying::none_carried))]
fn repeat_blocks<P: Processor + Drop>(
    engine: &mut Engine<P>,
    blocks: u32,
    block: &[i32],
    size: u32,
    outs: &mut [i32],
)
    requires some { 1 ≤ size }
    requires max { size ≤ engine.old.max }
    requires at { engine.old.at ≡ 0 }
    requires going { engine.old.flushed ≡ false }
    requires within { blocks * size ≤ engine.old.session.length }
    requires block { length block.now ≡ engine.old.session.channels * size }
    requires outs { length outs.old ≡ engine.old.session.channels * size }
    ensures same { IsSameEngine engine.old engine.new }
    ensures outs { length outs.new ≡ length outs.old }
{
    let entries: &[Entry] = &[];
    for _ in 0..blocks {
        engine.block(size as usize, entries, block, outs);
    }
}

/// Plays an engine of these parts, and gives them back, with the sum of the last block's samples.
pub(crate) fn repeat_parts<P: Processor + Drop>(
    alloc: Global,
    parts: Parts<P>,
    blocks: u32,
    block: &[i32],
    size: u32,
) -> (Parts<P>, Result<i64, AllocError>)
    requires parts { AreParts P.class_of P.code P.state P.values P.phase P.last_setup parts size }
    requires some { 1 ≤ size }
    requires most { size ≤ 8192 }
    requires within { blocks * size ≤ parts.session.length }
    requires block { length block.now ≡ parts.session.channels * size }
    ensures processing { All (λ at. at ≡ AtProcessing) (of_all P.phase result.0.processors.items) }
    ensures holders { holders_of result.0.processors.items ≡ holders_of parts.processors.items }
{
    let Ok(mut outs) = vec![in alloc; 0i32; block.len()] else {
        return (parts, Err(AllocError));
    };
    match Engine::new(alloc, parts, size as usize, 0) {
        Ok(mut engine) => {
            repeat_blocks(&mut engine, blocks, block, size, &mut outs);
            (engine.finish(), Ok(sum_of(&outs)))
        }
        Err(parts) => (parts, Err(AllocError)),
    }
}

/// The sum of samples.
fn sum_of(samples: &[i32]) -> i64 {
    let mut sum = 0i64;
    for &sample in samples {
        sum = sum.wrapping_add(i64::from(sample));
    }
    sum
}
