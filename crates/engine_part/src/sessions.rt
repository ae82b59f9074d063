//! A session that is played.

ghost use Rattle.std.specs.Prelude.{◌≡◌, ◌≤◌, ◌*◌, length};
ghost use Rattle.vh_session.specs.Keeps.{StandsUnder};
ghost use Rattle.vh_session.specs.Names.{content_of};

use crate::band::{close, open};
use crate::blocks::Score;
use crate::engines::{Heard, play_parts};
use crate::repeats::repeat_parts;
use std::alloc::{AllocError, Global};
use vh_builtin::BuiltIn;
use vh_journal::Entry;
use vh_plugin::PluginSet;
use vh_session::{Session, read};

/// Plays a session of the built-in classes over an input, whose samples stand channel after channel, in blocks of
/// at most `size` frames, 1 to 8192, that end before each message. The entries stand by rising sample, and those at
/// the session's length come at the end.
///
/// Nothing where the text is no session, where the input hasn't the session's frames and channels, or where an
/// entry is on nothing that is there.
pub fn play(
    alloc: Global,
    text: &str,
    input: &[i32],
    size: u32,
    entries: &[Entry],
) -> Result<Option<Heard>, AllocError> {
    let mut set = BuiltIn::new(alloc)?;
    let Ok(session) = read(alloc, text.as_bytes(), set.classes()) else {
        return Ok(None);
    };
    let samples = usize::from(session.channels) * session.length as usize;
    if input.len() != samples || size == 0 || size > 8192 {
        return Ok(None);
    }
    play_session(alloc, &mut set, session, input, size, entries)
}

/// Plays such a session.
fn play_session<S: PluginSet>(
    alloc: Global,
    set: &mut S,
    session: Session,
    input: &[i32],
    size: u32,
    entries: &[Entry],
) -> Result<Option<Heard>, AllocError>
    requires stands { StandsUnder (S.infos set.old) (content_of session) }
    requires some { 1 ≤ size }
    requires most { size ≤ 8192 }
    requires input { length input.now ≡ session.channels * session.length }
{
    let score = Score {
        frames: session.length,
        channels: session.channels,
        size,
        input,
        entries,
    };
    let (parts, rest) = open(alloc, set, session, size)?;
    let (parts, heard) = play_parts(alloc, parts, &score);
    close(set, parts, rest);
    heard
}

/// Plays a session of the built-in classes whose every block is this one of `size` frames, 1 to 8192, channel after
/// channel, and answers the sum of the last block's samples.
///
/// Nothing where the text is no session, where the block hasn't its channels, or where blocks of this size don't
/// come to its length.
pub fn repeat(
    alloc: Global,
    text: &str,
    block: &[i32],
    size: u32,
) -> Result<Option<i64>, AllocError> {
    let mut set = BuiltIn::new(alloc)?;
    let Ok(session) = read(alloc, text.as_bytes(), set.classes()) else {
        return Ok(None);
    };
    if size == 0 || size > 8192 || session.length % size != 0 {
        return Ok(None);
    }
    if block.len() != usize::from(session.channels) * size as usize {
        return Ok(None);
    }
    Ok(Some(repeat_session(alloc, &mut set, session, block, size)?))
}

/// Plays such a session.
fn repeat_session<S: PluginSet>(
    alloc: Global,
    set: &mut S,
    session: Session,
    block: &[i32],
    size: u32,
) -> Result<i64, AllocError>
    requires stands { StandsUnder (S.infos set.old) (content_of session) }
    requires some { 1 ≤ size }
    requires most { size ≤ 8192 }
    requires block { length block.now ≡ session.channels * size }
{
    let blocks = session.length / size;
    let (parts, rest) = open(alloc, set, session, size)?;
    let (parts, sum) = repeat_parts(alloc, parts, blocks, block, size);
    close(set, parts, rest);
    sum
}
