//! A preset that was read.

ghost use Rattle.std.specs.Prelude.{◌≡◌, All, length, option_copied};
ghost use Rattle.vh_preset.specs.Contents.{chunk_in};
ghost use Rattle.vh_preset.specs.Form.{IsWithin};

use vh_ids::Tuid;

/// An entry of a preset's chunk list.
#[derive(Clone, Copy, Debug, PartialEq, Eq)]
pub struct PresetEntry {
    /// `Comp` for the component's state, `Cont` for the controller's, `Prog` for program data, `Info` for
    /// meta data; others are carried too.
    pub id: [u8; 4],
    /// The place of the chunk in the file, in bytes.
    pub at: u64,
    /// The size of the chunk, in bytes.
    pub size: u64,
}

/// A preset. Its chunks stand in the bytes of its file, where they may come in any order and overlap.
#[derive(Drop)]
pub struct Preset {
    /// The class of the component.
    pub class: Tuid,
    /// Of the format, 1 to 2^31 - 1.
    pub version: u32,
    /// The chunk list, at most 128 entries.
    pub entries: Vec<PresetEntry>,
    /// The whole file.
    pub bytes: Vec<u8>,
    ghost within: { All (IsWithin (length bytes.items)) entries.items },
}

impl Preset {
    ghost use Rattle.vh_preset.specs.Seen.{contents_of};

    /// The bytes of the first chunk of an id.
    pub fn chunk(&self, id: [u8; 4]) -> Option<&[u8]>
        ensures { option_copied result ≡ chunk_in (contents_of self.now) id }
    {
        let entry = self.entries.iter().find(|entry| entry.id == id)?;
        let at = entry.at as usize;
        Some(&self.bytes[at..at + entry.size as usize])
    }
}
