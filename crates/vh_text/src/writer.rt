//! Writing texts.

ghost use Rattle.std.specs.Prelude.{◌≡◌, ◌++◌, [], ◌∷◌, map, OnOk};
ghost use Rattle.std.specs.Fmt.{decimal};
ghost use Rattle.vh_text.specs.Written.{further_text, written};

use itoa::Buffer;
use std::alloc::{AllocError, Global};

/// A text that is written word by word, with single spaces, and line by line. After an error it holds a part of
/// what was to be written.
#[derive(Drop)]
pub struct Writer {
    bytes: Vec<u8>,
}

impl Writer {
    /// Nothing yet.
    pub fn new(alloc: Global) -> Writer
        ensures { written result ≡ [] }
    {
        Writer {
            bytes: Vec::new(alloc),
        }
    }

    /// Begins a line with this word.
    pub fn begin(&mut self, word: &[u8]) -> Result<(), AllocError>
        ensures { OnOk result (written self.new ≡ written self.old ++ word.now) }
    {
        self.bytes.extend_from_slice(word)
    }

    /// A further word.
    pub fn word(&mut self, word: &[u8]) -> Result<(), AllocError>
        ensures { OnOk result (written self.new ≡ written self.old ++ 32 ∷ word.now) }
    {
        self.bytes.push(b' ')?;
        self.bytes.extend_from_slice(word)
    }

    /// A number in decimal as a further word.
    pub fn number(&mut self, n: u32) -> Result<(), AllocError>
        ensures { OnOk result (written self.new ≡ written self.old ++ 32 ∷ decimal n) }
    {
        let mut digits = Buffer::new();
        self.word(digits.format(n).as_bytes())
    }

    /// The end of a line.
    pub fn end(&mut self) -> Result<(), AllocError>
        ensures { OnOk result (written self.new ≡ written self.old ++ 10 ∷ []) }
    {
        self.bytes.push(b'\n')?;
        Ok(())
    }

    /// Numbers as the last words of a line.
    pub fn last_numbers(&mut self, numbers: &[u32]) -> Result<(), AllocError>
        ensures { OnOk result (written self.new ≡ written self.old ++ further_text (map decimal numbers.now)) }
    {
        for &n in numbers {
            self.number(n)?;
        }
        self.end()
    }

    /// What was written.
    pub fn finish(self) -> Vec<u8>
        ensures { result.items ≡ written self }
    {
        let Writer { bytes } = self;
        bytes
    }
}
