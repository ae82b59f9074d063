//! A link is made.

ghost use Rattle.std.specs.Prelude.{◌≡◌, ◌≤◌, IfOk};
ghost use Rattle.vh_back.specs.Ends.{new_sender, new_follower};

use crate::follower::Follower;
use crate::item::{Item, WithinOne};
use crate::sender::Sender;
use circular_buffer::HeapCircularBuffer;
use rtrb::RingBuffer;
use std::alloc::{AllocError, Global};

/// The two ends of a link over a ring with room for so many items, at least one. So many parameters at most may be
/// echoed over it, and so many messages answered.
pub fn link(
    alloc: Global,
    room: usize,
    params: usize,
    tells: usize,
) -> Result<(Sender, Follower), AllocError>
    requires { 1 ≤ room }
    ensures sender { IfOk result (λ ends. ends.0 ≡ new_sender ends.0.ring room params tells) }
    ensures follower { IfOk result (λ ends. ends.1 ≡ new_follower ends.0.ring) }
{
    let Some(most) = params.checked_add(tells) else {
        return Err(AllocError);
    };
    let kept = HeapCircularBuffer::with_capacity(alloc, most)?;
    let (producer, consumer) = RingBuffer::with_protocol::<Global, WithinOne>(alloc, room)?;
    Ok((
        Sender {
            producer,
            kept,
            params,
            tells,
        },
        Follower { consumer },
    ))
}
