//! Short texts and short lists of numbers, which are copied and take no memory.

ghost use Rattle.std.specs.Prelude.{◌≡◌, ◌≤◌, ◌-◌, length, take, drop, replicate};

/// A text of at most 32 bytes, as the title of a parameter or the name of a node. The places behind it
/// are 0.
#[derive(Clone, Copy, Debug, PartialEq, Eq, Hash)]
pub struct Label {
    pub bytes: [u8; 32],
    pub len: u8,
    ghost size: { length bytes ≡ 32 },
    ghost within: { len ≤ 32 },
    ghost clear: { drop len bytes ≡ replicate (32 - len) 0 },
}

impl Label {
    ghost use Rattle.vh_params.specs.Short.{label_text};

    /// The label of a text.
    pub fn new(text: &[u8]) -> Label
        requires { length text.now ≤ 32 }
        ensures { label_text result ≡ text.now }
    {
        let mut bytes = [0u8; 32];
        bytes[..text.len()].copy_from_slice(text);
        Label {
            bytes,
            len: text.len() as u8,
        }
    }

    /// The text.
    pub fn text(&self) -> &[u8]
        ensures value { result.now ≡ label_text self.now }
        ensures most { length result.now ≤ 32 }
    {
        &self.bytes[..usize::from(self.len)]
    }
}

/// The numbers of a message, at most 4. The places behind them are 0.
#[derive(Clone, Copy, Debug, PartialEq, Eq)]
pub struct Words {
    pub list: [u32; 4],
    pub len: u8,
    ghost within: { len ≤ 4 },
    ghost clear: { drop len list ≡ replicate (4 - len) 0 },
}

impl Words {
    ghost use Rattle.vh_params.specs.Short.{words_in};

    /// A message of these numbers.
    pub fn new(numbers: &[u32]) -> Words
        requires { length numbers.now ≤ 4 }
        ensures { words_in result ≡ numbers.now }
    {
        let mut list = [0u32; 4];
        list[..numbers.len()].copy_from_slice(numbers);
        Words {
            list,
            len: numbers.len() as u8,
        }
    }

    /// The numbers.
    pub fn numbers(&self) -> &[u32]
        ensures value { result.now ≡ words_in self.now }
        ensures most { length result.now ≤ 4 }
    {
        &self.list[..usize::from(self.len)]
    }
}
