//! A follower beside a sender, each in a thread of its own.

ghost use Rattle.std.specs.Prelude.{◌≡◌};
ghost use Rattle.vh_counted.specs.Held.{object_of_opened, numbers_of_opened};
ghost use Rattle.back_tests.specs.Offers.{IsOfLevel};

use crate::listener::{Listener, end, make};
use crate::told::echo;
use std::process::Abort;
use std::sync::atomic::{AtomicBool, Ordering};
use std::test::Fail;
use std::thread::{Threads, join_mut};
use std::{slice, thread};
use vh_back::{Follower, Sender, link, settle};
use vh_counted::Opened;

/// How often a thread looks for the other before it gives up.
const TURNS: u32 = 100_000_000;

/// Waits until a flag is raised.
fn is_raised(flag: &AtomicBool) -> bool {
    for _ in 0..TURNS {
        if flag.load(Ordering::SeqCst) {
            return true;
        }
        thread::yield_now();
    }
    false
}

/// Echoes 1, waits until the other thread has followed, and echoes 2. The answer is whether it has.
fn send(sender: &mut Sender, followed: &AtomicBool) -> bool
    requires { IsOfLevel sender.old }
    ensures { sender.new.ring ≡ sender.old.ring }
{
    echo(sender, 1, 64, false);
    let raised = is_raised(followed);
    echo(sender, 2, 128, true);
    raised
}

/// Follows until Level is 1, and says so.
fn follow(follower: &mut Follower, opener: &mut Opened<Listener>, followed: &AtomicBool)
    ensures object { object_of_opened opener.new ≡ object_of_opened opener.old }
    ensures numbers { numbers_of_opened opener.new ≡ numbers_of_opened opener.old }
    ensures ring { follower.new.ring ≡ follower.old.ring }
{
    for _ in 0..TURNS {
        follower.follow(slice::from_mut(opener));
        if opener.value().latest == 1 {
            followed.store(true, Ordering::SeqCst);
            return;
        }
        thread::yield_now();
    }
}

/// Does both at once.
fn beside<R: Threads + Sync>(
    rt: &R,
    sender: &mut Sender,
    follower: &mut Follower,
    opener: &mut Opened<Listener>,
) -> bool
    requires { IsOfLevel sender.old }
    ensures object { object_of_opened opener.new ≡ object_of_opened opener.old }
    ensures numbers { numbers_of_opened opener.new ≡ numbers_of_opened opener.old }
    ensures sender_ring { sender.new.ring ≡ sender.old.ring }
    ensures follower_ring { follower.new.ring ≡ follower.old.ring }
{
    let followed = AtomicBool::new(false);
    let (raised, ()) = join_mut(
        rt,
        &mut || send(sender, &followed),
        &mut || follow(follower, opener, &followed),
    );
    raised
}

#[test]
fn a_follower_follows_beside_the_sender(rt: HostRuntime) -> Result<(), Fail> {
    let (mut sender, mut follower) = link(rt.alloc(), 1, 1, 1)?;
    let (object, mut opener) = make(rt.alloc())?;
    assert!(rt; beside(&rt, &mut sender, &mut follower, &mut opener));
    settle(sender, follower, slice::from_mut(&mut opener));
    assert_eq!(rt; opener.value().level(), 2);
    end(object, opener);
    Ok(())
}
