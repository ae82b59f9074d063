//! Lines that are said.

ghost use Rattle.std.specs.Prelude.{◌≡◌, ◌≤◌, ◌<◌, ◌+◌, ◌^◌, ◌++◌, [], ◌∷◌, length, IfOk, IfSome, IsSome, vec_capacity, vec_len};
ghost use Rattle.std.specs.Fmt.{decimal};
ghost use Rattle.vh_params.specs.Params.{param_in};
ghost use Rattle.vh_params.specs.Short.{label_text};
ghost use Rattle.vh_params.specs.Tables.{params_of};
ghost use Rattle.vh_params.specs.ValueText.{value_text};

use itoa::Buffer;
use std::alloc::{AllocError, Global};
use vh_files::{Failed, Say, say_all};
use vh_params::ParamTable;

/// The most bytes of a line, and of the text of a parameter's value.
const LINE_BYTES: usize = 128;

const VALUE_BYTES: usize = 39;

/// A line, which is written word by word and then said. Its memory is taken once, so a line can be said when there is
/// none left.
#[derive(Drop)]
pub struct Line {
    bytes: Vec<u8>,
    /// The text of a value, before it is put into the line.
    value: Vec<u8>,
    ghost room: { vec_capacity bytes ≡ 128 },
    ghost value_room: { vec_capacity value ≡ 39 },
}

/// Adds bytes to a text that has room for them.
fn put(text: &mut Vec<u8>, bytes: &[u8])
    requires { vec_len text.old + length bytes.now ≤ vec_capacity text.old }
    ensures items { text.new.items ≡ text.old.items ++ bytes.now }
    ensures capacity { vec_capacity text.new ≡ vec_capacity text.old }
{
    for &byte in bytes {
        text.push_reserved(byte);
    }
}

impl Line {
    ghost use Rattle.vh_answers.specs.Outside.{voice};
    ghost use Rattle.vh_answers.specs.Told.{written_in, IsTold};

    /// An empty line.
    pub fn new(alloc: Global) -> Result<Line, AllocError>
        ensures { IfOk result (λ line. written_in line ≡ []) }
    {
        Ok(Line {
            bytes: Vec::with_capacity(alloc, LINE_BYTES)?,
            value: Vec::with_capacity(alloc, VALUE_BYTES)?,
        })
    }

    /// Begins the line with this word, in place of what was written.
    pub fn begin(&mut self, word: &[u8])
        requires { length word.now ≤ 127 }
        ensures text { written_in self.new ≡ word.now }
        ensures long { length (written_in self.new) ≡ length word.now }
    {
        self.bytes.clear();
        put(&mut self.bytes, word);
    }

    /// A further word.
    pub fn word(&mut self, word: &[u8])
        requires { length (written_in self.old) + length word.now < 127 }
        ensures text { written_in self.new ≡ written_in self.old ++ 32 ∷ word.now }
        ensures long { length (written_in self.new) ≡ length (written_in self.old) + 1 + length word.now }
    {
        self.bytes.push_reserved(b' ');
        put(&mut self.bytes, word);
    }

    /// A number in decimal as a further word.
    pub fn number(&mut self, n: u32)
        requires { length (written_in self.old) ≤ 116 }
        ensures text { written_in self.new ≡ written_in self.old ++ 32 ∷ decimal n }
        ensures long { length (written_in self.new) ≤ length (written_in self.old) + 11 }
    {
        let mut digits = Buffer::new();
        self.word(digits.format(n).as_bytes());
    }

    /// A number of 64 bits in decimal as a further word.
    pub fn long(&mut self, n: u64)
        requires { length (written_in self.old) ≤ 106 }
        ensures text { written_in self.new ≡ written_in self.old ++ 32 ∷ decimal n }
        ensures long { length (written_in self.new) ≤ length (written_in self.old) + 21 }
    {
        let mut digits = Buffer::new();
        self.word(digits.format(n).as_bytes());
    }

    /// The text of a parameter's value, normalised from 0 to 2^24, as further words.
    pub fn value(&mut self, table: &ParamTable, id: u32, value: u32)
        requires there { IsSome (param_in (params_of table.now) id) }
        requires value { value ≤ 2 ^ 24 }
        requires room { length (written_in self.old) < 88 }
        ensures text { IfSome (param_in (params_of table.now) id) (λ param. written_in self.new ≡ written_in self.old ++ 32 ∷ value_text param.steps (label_text param.units) value) }
        ensures long { length (written_in self.new) ≤ length (written_in self.old) + 40 }
    {
        self.value.clear();
        table.put_value_text(id, value, &mut self.value);
        self.bytes.push_reserved(b' ');
        put(&mut self.bytes, &self.value);
    }

    /// Says the line, and its line feed.
    pub fn say<Y: Say>(&mut self, say: &mut Y) -> Result<(), Failed>
        requires { length (written_in self.old) ≤ 127 }
        ensures { IsTold result (voice Y.Say say.old) (voice Y.Say say.new) (written_in self.old ++ 10 ∷ []) }
    {
        self.bytes.push_reserved(b'\n');
        say_all(say, &self.bytes)
    }
}
