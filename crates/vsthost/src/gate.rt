//! Where the editors of a live rendering wait for its blocks.

use std::sync::atomic::{AtomicU64, Ordering};
use std::thread;
use vh_files::Gate;

/// How often a word that waits looks for its block.
const MOST_TURNS: u32 = 1_000_000;

/// Holds a word behind `wait B` until block B begins, but for so many turns only.
#[derive(Drop)]
pub(crate) struct BlockGate {
    /// The number of the block that began last, 0 before the first.
    latest: AtomicU64,
}

impl BlockGate {
    /// No block has begun.
    pub(crate) fn new() -> BlockGate {
        BlockGate {
            latest: AtomicU64::new(0),
        }
    }
}

impl Gate for BlockGate {
    fn before_block(&self, block: u32) {
        self.latest.store(u64::from(block), Ordering::SeqCst);
    }

    fn before_word(&self, _editor: u32, _word: u32, blocks: u32) {
        for _ in 0..MOST_TURNS {
            if self.latest.load(Ordering::SeqCst) >= u64::from(blocks) {
                return;
            }
            thread::yield_now();
        }
    }
}
