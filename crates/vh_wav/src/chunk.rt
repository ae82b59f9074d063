ghost use Rattle.std.specs.Prelude.{◌≡◌, ◌≤◌, ◌+◌, ◌%◌, min, length, take, drop};
ghost use Rattle.vh_files.specs.Fields.{field_at};

use vh_files::field32;

/// The front of a chunk: its identifier, its size, and as much of its body as is looked at.
#[derive(Clone, Copy)]
pub struct Chunk {
    pub bytes: [u8; 48],
    /// The place of the body in the file.
    pub at: u64,
}

impl Chunk {
    /// The identifier.
    pub fn id(&self) -> &[u8]
        ensures { result.now ≡ take 4 self.now.bytes }
    {
        &self.bytes[..4]
    }

    /// The size of the body.
    pub fn size(&self) -> u32
        ensures { result ≡ field_at self.now.bytes 4 4 }
    {
        field32(&self.bytes, 4)
    }

    /// The front of the body, at most 40 bytes.
    pub fn front(&self) -> &[u8]
        ensures value { result.now ≡ take (min (field_at self.now.bytes 4 4) 40) (drop 8 self.now.bytes) }
        ensures len { length result.now ≡ min (field_at self.now.bytes 4 4) 40 }
    {
        let n = self.size().min(40) as usize;
        &self.bytes[8..8 + n]
    }
}
