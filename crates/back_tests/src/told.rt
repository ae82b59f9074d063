//! What a controller is told, on one thread.

ghost use Rattle.std.specs.Prelude.{◌≡◌, ◌≤◌, ◌<◌, ◌+◌, ◌^◌, ◌++◌, [], ◌∷◌, length};
ghost use Rattle.vh_back.specs.Items.{replies};
ghost use Rattle.vh_back.specs.Ends.{offered};
ghost use Rattle.back_tests.specs.Offers.{IsOfLevel};

use crate::listener::{end, make};
use std::process::Abort;
use std::slice;
use std::test::Fail;
use vh_back::{Item, Parameter, Sender, link, settle};
use vh_params::{Reply, Words};

/// Offers an echo of Level.
pub fn echo(sender: &mut Sender, value: u32, after: u32, last: bool)
    requires level { IsOfLevel sender.old }
    requires value { value ≤ 2 ^ 24 }
    ensures level { IsOfLevel sender.new }
    ensures replies { replies (offered sender.new) ≡ replies (offered sender.old) }
    ensures tells { sender.new.tells ≡ sender.old.tells }
    ensures ring { sender.new.ring ≡ sender.old.ring }
{
    sender.offer(Item::Echo {
        node: 0,
        id: 0,
        value,
        after,
        last,
    });
}

/// Offers the answer to a message.
fn answer(sender: &mut Sender, number: u32)
    requires level { IsOfLevel sender.old }
    requires few { length (replies (offered sender.old)) < sender.old.tells }
    ensures level { IsOfLevel sender.new }
    ensures replies { length (replies (offered sender.new)) ≡ length (replies (offered sender.old)) + 1 }
    ensures tells { sender.new.tells ≡ sender.old.tells }
    ensures ring { sender.new.ring ≡ sender.old.ring }
{
    sender.offer(Item::Reply(Reply {
        node: 0,
        sample: 0,
        words: Words::new(&[number]),
    }));
}

#[test]
fn what_finds_no_room_comes_at_the_end(rt: HostRuntime) -> Result<(), Fail> {
    let (mut sender, follower) = link(rt.alloc(), 1, 1, 1)?;
    let (object, mut opener) = make(rt.alloc())?;
    echo(&mut sender, 5, 64, false);
    echo(&mut sender, 7, 128, false);
    answer(&mut sender, 9);
    echo(&mut sender, 7, 192, true);
    settle(sender, follower, slice::from_mut(&mut opener));
    assert_eq!(rt; opener.value().level(), 7);
    assert_eq!(rt; opener.value().heard(), [9].as_slice());
    assert_eq!(rt; opener.value().sets, 2);
    end(object, opener);
    Ok(())
}

#[test]
fn replies_come_in_order(rt: HostRuntime) -> Result<(), Fail> {
    let (mut sender, mut follower) = link(rt.alloc(), 2, 1, 5)?;
    let (object, mut opener) = make(rt.alloc())?;
    answer(&mut sender, 1);
    answer(&mut sender, 2);
    answer(&mut sender, 3);
    assert_eq!(rt; follower.follow(slice::from_mut(&mut opener)), 2);
    assert_eq!(rt; opener.value().heard(), [1, 2].as_slice());
    answer(&mut sender, 4);
    answer(&mut sender, 5);
    assert_eq!(rt; follower.follow(slice::from_mut(&mut opener)), 2);
    settle(sender, follower, slice::from_mut(&mut opener));
    assert_eq!(rt; opener.value().heard(), [1, 2, 3, 4, 5].as_slice());
    end(object, opener);
    Ok(())
}

#[test]
fn what_did_not_change_is_not_echoed(rt: HostRuntime) -> Result<(), Fail> {
    let (mut sender, mut follower) = link(rt.alloc(), 8, 2, 1)?;
    let (object, mut opener) = make(rt.alloc())?;
    let parameters = [Parameter { node: 0, id: 0 }, Parameter { node: 0, id: 1 }];
    let mut echoed = [3, 4];
    sender.offer_changes(&parameters, &mut echoed, &[3, 6], 64, false);
    assert_eq!(rt; echoed, [3, 6]);
    assert_eq!(rt; follower.follow(slice::from_mut(&mut opener)), 1);
    sender.offer_changes(&parameters, &mut echoed, &[3, 6], 128, false);
    assert_eq!(rt; follower.follow(slice::from_mut(&mut opener)), 0);
    sender.offer_changes(&parameters, &mut echoed, &[5, 7], 192, true);
    settle(sender, follower, slice::from_mut(&mut opener));
    assert_eq!(rt; opener.value().level(), 5);
    assert_eq!(rt; opener.value().sets, 3);
    end(object, opener);
    Ok(())
}
