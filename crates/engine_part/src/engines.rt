//! An engine that is played to its end.

ghost use Rattle.std.specs.Prelude.{◌≡◌, ◌≤◌, length, false, All};
ghost use Rattle.vh_component.specs.declared.setup.Phase.TheVariants.{Processing as AtProcessing};
ghost use Rattle.vh_engine.specs.Parts.{AreParts};
ghost use Rattle.vh_engine.specs.Staged.{of_all, holders_of};
ghost use Rattle.engine_part.specs.Playing.{HasClasses};

use crate::blocks::{Score, play_blocks};
use std::alloc::{AllocError, Global};
use vh_engine::{Engine, Parts};
use vh_params::Reply;
use vh_plugin::Processor;

/// What a rendering gave.
#[derive(Drop)]
pub struct Heard {
    /// The output's samples, channel after channel, 2^-23 of full scale each.
    pub samples: Vec<i32>,
    /// The final values, node by node and within each by rising id.
    pub values: Vec<u32>,
    pub replies: Vec<Reply>,
}

/// Plays an engine of these parts, and gives them back.
pub(crate) fn play_parts<P: Processor + Drop>(
    alloc: Global,
    parts: Parts<P>,
    score: &Score,
) -> (Parts<P>, Result<Option<Heard>, AllocError>)
    requires parts { AreParts P.class_of P.code P.state P.values P.phase P.last_setup parts score.now.size }
    requires length { parts.session.length ≡ score.now.frames }
    requires channels { parts.session.channels ≡ score.now.channels }
    ensures processing { All (λ at. at ≡ AtProcessing) (of_all P.phase result.0.processors.items) }
    ensures holders { holders_of result.0.processors.items ≡ holders_of parts.processors.items }
{
    match Engine::new(alloc, parts, score.size as usize, score.entries.len()) {
        Ok(engine) => play_engine(alloc, engine, score),
        Err(parts) => (parts, Err(AllocError)),
    }
}

/// Plays an engine to its end, and gives its parts back.
fn play_engine<P: Processor + Drop>(
    alloc: Global,
    engine: Engine<P>,
    score: &Score,
) -> (Parts<P>, Result<Option<Heard>, AllocError>)
    requires at { engine.at ≡ 0 }
    requires going { engine.flushed ≡ false }
    requires length { engine.session.length ≡ score.now.frames }
    requires channels { engine.session.channels ≡ score.now.channels }
    requires size { engine.max ≡ score.now.size }
    requires room { length score.now.entries.now ≤ engine.room }
    requires classes { HasClasses P.class_of engine }
    ensures processing { All (λ at. at ≡ AtProcessing) (of_all P.phase result.0.processors.items) }
    ensures holders { holders_of result.0.processors.items ≡ engine.holders }
{
    let mut engine = engine;
    let heard = hear(alloc, &mut engine, score);
    (engine.finish(), heard)
}

/// Plays an engine to its end, where its blocks may carry the entries.
fn hear<P: Processor + Drop>(
    alloc: Global,
    engine: &mut Engine<P>,
    score: &Score,
) -> Result<Option<Heard>, AllocError>
    requires at { engine.old.at ≡ 0 }
    requires going { engine.old.flushed ≡ false }
    requires length { engine.old.session.length ≡ score.now.frames }
    requires channels { engine.old.session.channels ≡ score.now.channels }
    requires size { engine.old.max ≡ score.now.size }
    requires room { length score.now.entries.now ≤ engine.old.room }
    requires classes { HasClasses P.class_of engine.old }
    ensures { engine.new.holders ≡ engine.old.holders }
{
    let channels = usize::from(score.channels);
    let mut ins = vec![in alloc; 0i32; channels * score.size as usize]?;
    let mut outs = vec![in alloc; 0i32; channels * score.size as usize]?;
    let mut samples = vec![in alloc; 0i32; channels * score.frames as usize]?;
    if !play_blocks(engine, score, &mut ins, &mut outs, &mut samples) {
        return Ok(None);
    }
    let values = Vec::from_slice(alloc, engine.values())?;
    let replies = Vec::from_slice(alloc, engine.replies())?;
    Ok(Some(Heard {
        samples,
        values,
        replies,
    }))
}
