//! The sizes of a rendering's blocks.

ghost use Rattle.std.specs.Prelude.{◌≡◌, ◌≤◌, All, IfOk};
ghost use Rattle.vh_cut.specs.Cut.{IsPattern};

use std::alloc::{AllocError, Global};
use vh_session::Session;

/// The sizes of blocks, which take turns, and the longest.
#[derive(Drop)]
pub struct Blocks {
    pub sizes: Vec<u32>,
    pub longest: u32,
    ghost some: { 1 ≤ longest },
    ghost most: { longest ≤ 8192 },
    ghost each: { All (λ size. size ≤ longest) sizes.items },
}

/// The longest of some sizes.
fn longest(sizes: &[u32]) -> u32
    requires { IsPattern sizes.now }
    ensures some { 1 ≤ result }
    ensures most { result ≤ 8192 }
    ensures each { All (λ size. size ≤ result) sizes.now }
{
    let mut longest = 1;
    for &size in sizes {
        longest = longest.max(size);
    }
    longest
}

impl Blocks {
    ghost use Rattle.vh_session.specs.Names.{content_of};
    ghost use Rattle.vh_host.specs.Commands.{pattern_of};
    ghost use Rattle.vh_host.specs.Named.{IsSize};

    /// The one size that words give, of 1 to 8192 frames, or else the session's sizes.
    fn pattern(alloc: Global, session: &Session, block: Option<u32>) -> Result<Vec<u32>, AllocError>
        requires { IsSize block }
        ensures sizes { IfOk result (λ sizes. sizes.items ≡ pattern_of block (content_of session.now)) }
        ensures pattern { IfOk result (λ sizes. IsPattern sizes.items) }
    {
        match block {
            Some(size) => Ok(vec![in alloc; size]?),
            None => Vec::from_slice(alloc, session.block_sizes()),
        }
    }

    /// Blocks of the one size that words give, of 1 to 8192 frames, or else of the session's sizes.
    pub(crate) fn new(
        alloc: Global,
        session: &Session,
        block: Option<u32>,
    ) -> Result<Blocks, AllocError>
        requires { IsSize block }
        ensures sizes { IfOk result (λ blocks. blocks.sizes.items ≡ pattern_of block (content_of session.now)) }
        ensures pattern { IfOk result (λ blocks. IsPattern blocks.sizes.items) }
    {
        let sizes = Blocks::pattern(alloc, session, block)?;
        let longest = longest(&sizes);
        Ok(Blocks { sizes, longest })
    }
}
