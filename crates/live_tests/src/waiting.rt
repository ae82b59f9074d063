//! What the tests wait for.

use std::sync::atomic::{AtomicU64, Ordering};
use std::thread;

/// How long is waited.
const MOST_TURNS: u64 = 100_000_000;

/// Waits until a number has come so far. The answer is whether it has.
pub fn wait_for(number: &AtomicU64, least: u64) -> bool {
    for _ in 0..MOST_TURNS {
        if number.load(Ordering::SeqCst) >= least {
            return true;
        }
        thread::yield_now();
    }
    false
}
