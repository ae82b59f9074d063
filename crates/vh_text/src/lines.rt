//! Lines.

ghost use Rattle.std.specs.Prelude.{◌≡◌, ◌+◌};
ghost use Rattle.std.specs.Iterator.{YieldsFirstRef, item_count};
ghost use Rattle.vh_text.specs.Lines.{first_part, after_part, without_return};

/// The lines of a text, without their ends: a line ends before a byte 10 or with the text, and a byte 13
/// directly before that end is dropped. After a last byte 10 there is no further line.
#[derive(Clone, Copy, Drop)]
pub struct Lines<'a> {
    text: &'a [u8],
}

impl<'a> Lines<'a> {
    ghost use Rattle.vh_text.specs.Left.{left};
    ghost use Rattle.vh_text.specs.Lines.{lines_of};

    /// The lines of a text.
    pub fn new(text: &'a [u8]) -> Lines<'a>
        ensures { left result ≡ lines_of text.now }
    {
        Lines { text }
    }
}

impl<'a> Iterator for Lines<'a> {
    ghost use Rattle.vh_text.specs.Left.{left};

    type Item = &'a [u8];

    ghost next_gives = { YieldsFirstRef left };

    ghost remaining = { item_count left };

    #[tactic(auto, using(crate::proofs::Parts::first_line_and_rest))]
    fn next(&mut self) -> Option<&'a [u8]> {
        if self.text.is_empty() {
            return None;
        }
        let (part, rest) = split_part(self.text);
        self.text = rest;
        Some(without_return(part))
    }
}

/// The first part of a text, and what follows the byte 10 that ends it.
fn split_part(text: &[u8]) -> (&[u8], &[u8])
    ensures part { result.0.now ≡ first_part text.now }
    ensures rest { result.1.now ≡ after_part text.now }
{
    for i in 0..text.len() {
        if text[i] == b'\n' {
            return (&text[..i], &text[i + 1..]);
        }
    }
    text.split_at(text.len())
}

/// A part without the byte 13 at its end.
fn without_return(part: &[u8]) -> &[u8]
    ensures { result.now ≡ without_return part.now }
{
    match part.split_last() {
        Some((b'\r', line)) => line,
        _ => part,
    }
}
