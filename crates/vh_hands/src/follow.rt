//! Controllers that follow beside the audio.

ghost use Rattle.std.specs.Prelude.{◌≡◌, ℕ, List};
ghost use Rattle.vh_back.specs.Items.{last_value};
ghost use Rattle.vh_back.specs.Follows.{of_openers, AreFollowed, AreAsBefore};

use std::sync::Wait;
use std::sync::atomic::{AtomicBool, Ordering};
use vh_back::Follower;
use vh_counted::Opened;
use vh_plugin::Controller;

/// How many looks in a row may find nothing.
const MOST_IDLE: u32 = 16_777_216;

/// Tells controllers of what comes, until the audio has ended or so many looks in a row found nothing.
pub(crate) fn follow_until<R: Wait, C: Controller + Drop>(
    rt: &R,
    follower: &mut Follower,
    edits: &mut [Opened<C>],
    ended: &AtomicBool,
)
    ensures follow { (firsts : List (List ℕ)) → AreFollowed C.class_of (last_value follower.old.received) (of_openers C.code edits.old) firsts (of_openers C.values edits.old)
        → AreFollowed C.class_of (last_value follower.new.received) (of_openers C.code edits.old) firsts (of_openers C.values edits.new) }
    ensures same { AreAsBefore C.code C.mode edits.old edits.new }
    ensures ring { follower.new.ring ≡ follower.old.ring }
{
    let mut idle = 0;
    for _ in rt.forever() {
        if ended.load(Ordering::SeqCst) || idle >= MOST_IDLE {
            break;
        }
        if follower.follow(edits) == 0 {
            idle += 1;
        } else {
            idle = 0;
        }
    }
}
