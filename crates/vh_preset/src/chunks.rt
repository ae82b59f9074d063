//! The chunks of a preset that is written.

ghost use Rattle.std.specs.Prelude.{◌≡◌, ◌≤◌, ◌^◌, ◌↔◌, IsTrue, option_copied};
ghost use Rattle.vh_preset.specs.Chunks.{chunk_size};

/// The most bytes that the chunks have together.
const MOST_BYTES: u64 = 1_073_741_824;

/// The bytes of each chunk of a preset, where it is present.
#[derive(Clone, Copy, Debug)]
pub struct Chunks<'a> {
    /// The component's state, `Comp`.
    pub comp: Option<&'a [u8]>,
    /// The controller's state, `Cont`.
    pub cont: Option<&'a [u8]>,
    /// Program data, `Prog`.
    pub prog: Option<&'a [u8]>,
    /// Meta data, `Info`.
    pub info: Option<&'a [u8]>,
}

/// How many bytes a chunk has.
fn size_of(chunk: Option<&[u8]>) -> u64
    ensures { result ≡ chunk_size (option_copied chunk.entry) }
{
    match chunk {
        Some(bytes) => bytes.len() as u64,
        None => 0,
    }
}

impl Chunks<'_> {
    ghost use Rattle.vh_preset.specs.Chunks.{chunks_of, chunks_size};

    /// Whether the chunks have at most 2^30 bytes together, as [`write`](crate::write) asks.
    pub fn fit(&self) -> bool
        ensures { IsTrue result ↔ (chunks_size (chunks_of self.now) ≤ 2 ^ 30) }
    {
        let states = size_of(self.comp).saturating_add(size_of(self.cont));
        let data = size_of(self.prog).saturating_add(size_of(self.info));
        states.saturating_add(data) <= MOST_BYTES
    }
}
