//! The words of a line as texts.

ghost use Rattle.std.specs.Prelude.{◌≡◌, ◌<◌, ◌^◌, length, IfOk};
ghost use Rattle.vh_text.specs.Tokens.{IsSplit, texts, tokens_of, words_of};

use crate::token::{BadByte, Token, tokens};
use std::alloc::{AllocError, Global};
use vh_num::Refusal;

/// The words at these places of a line.
fn slices<'a>(alloc: Global, line: &'a [u8], tokens: &[Token]) -> Result<Vec<&'a [u8]>, AllocError>
    requires { tokens.now ≡ tokens_of line.now }
    ensures { IfOk result (λ words. texts words.items ≡ words_of line.now) }
{
    let mut words = Vec::new(alloc);
    for token in tokens {
        words.push(&line[token.from as usize..token.to as usize])?;
    }
    Ok(words)
}

/// The words of a line, or its first byte that is no printable ASCII.
pub fn words<'a>(alloc: Global, line: &'a [u8]) -> Result<Vec<&'a [u8]>, Refusal<BadByte>>
    requires { length line.now < 2 ^ 32 }
    ensures { IsSplit line.now result }
{
    let tokens = tokens(alloc, line)?;
    Ok(slices(alloc, line, &tokens)?)
}
