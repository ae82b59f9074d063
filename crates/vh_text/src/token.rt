//! The words of a line.

ghost use Rattle.std.specs.Prelude.{◌≡◌, ◌<◌, ◌≤◌, ◌+◌, ◌^◌, length, drop, IfOk};
ghost use Rattle.vh_text.specs.Tokens.{IsTokenized, bad_byte, tokens_of, word_length, first_word};

use std::alloc::{AllocError, Global};
use thiserror::Error;
use vh_num::Refusal;

/// A word of a line: the places of its first byte and of the one after its last.
#[derive(Clone, Copy, Debug, PartialEq, Eq)]
pub struct Token {
    pub from: u32,
    pub to: u32,
}

/// A byte that is no printable ASCII, 32 to 126, and its place in the line.
#[derive(Clone, Copy, Debug, PartialEq, Eq, Error)]
#[error("byte {place} is not printable ASCII")]
pub struct BadByte {
    pub place: u32,
}

/// The words of a line, which are the longest runs of bytes other than space, in order.
pub fn tokens(alloc: Global, line: &[u8]) -> Result<Vec<Token>, Refusal<BadByte>>
    requires { length line.now < 2 ^ 32 }
    ensures { IsTokenized line.now result }
{
    if let Some(fault) = bad_byte(line) {
        return Err(Refusal::Fault(fault));
    }
    Ok(words(alloc, line)?)
}

/// The first word of a line, empty where there is none.
#[tactic(auto, using(crate::proofs::Tokenized::no_word, crate::proofs::Tokenized::word_here))]
pub fn first_word(line: &[u8]) -> &[u8]
    ensures { result.now ≡ first_word line.now }
{
    for from in 0..line.len() {
        if line[from] != b' ' {
            return &line[from..end_of_word(line, from)];
        }
    }
    &line[line.len()..]
}

/// The first byte that is no printable ASCII.
fn bad_byte(line: &[u8]) -> Option<BadByte>
    requires { length line.now < 2 ^ 32 }
    ensures { result ≡ bad_byte line.now }
{
    for i in 0..line.len() {
        if !(32..=126).contains(&line[i]) {
            return Some(BadByte { place: i as u32 });
        }
    }
    None
}

#[tactic(auto, using(crate::proofs::Tokenized::word_told))]
fn words(alloc: Global, line: &[u8]) -> Result<Vec<Token>, AllocError>
    requires { length line.now < 2 ^ 32 }
    ensures { IfOk result (λ tokens. tokens.items ≡ tokens_of line.now) }
{
    let mut tokens = Vec::new(alloc);
    let mut at = 0;
    while at < line.len() {
        if line[at] == b' ' {
            at += 1;
        } else {
            let end = end_of_word(line, at);
            tokens.push(Token {
                from: at as u32,
                to: end as u32,
            })?;
            at = end;
        }
    }
    Ok(tokens)
}

/// The place after the last byte of the word that stands at a place.
fn end_of_word(line: &[u8], at: usize) -> usize
    requires { at ≤ length line.now }
    ensures end { result ≡ at + word_length (drop at line.now) }
    ensures within { result ≤ length line.now }
{
    let mut end = at;
    while end < line.len() && line[end] != b' ' {
        end += 1;
    }
    end
}
