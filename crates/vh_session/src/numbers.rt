//! Several numbers of a line.

ghost use Rattle.std.specs.Prelude.{◌≡◌, ◌≤◌, length, take, drop, MatchResult, Ok, Err};
ghost use Rattle.vh_session.specs.Rules.{numbers_that};
ghost use Rattle.vh_text.specs.Numbers.{is_within};
ghost use Rattle.vh_text.specs.Tokens.{texts};

use crate::fault::SessionKind;
use crate::rules::number_within;

/// Reads as many numbers of a range as there are words into the front of `numbers`.
pub(crate) fn numbers_within(
    words: &[&[u8]],
    least: u32,
    most: u32,
    numbers: &mut [u32],
) -> Result<(), SessionKind>
    requires { length words.now ≤ length numbers.old }
    ensures numbers { MatchResult result (λ _. numbers_that (is_within least most) (texts words.now) ≡ Ok (take (length words.now) numbers.new)) (λ kind. numbers_that (is_within least most) (texts words.now) ≡ Err kind) }
    ensures long { length numbers.new ≡ length numbers.old }
{
    for i in 0..words.len() {
        numbers[i] = number_within(words[i], least, most)?;
    }
    Ok(())
}
