//! The end that follows.

ghost use Rattle.std.specs.Prelude.{◌≡◌, ◌++◌, ℕ, List, length};
ghost use Rattle.vh_back.specs.declared.item.Item.{Item as Told};
ghost use Rattle.vh_back.specs.Items.{last_value};
ghost use Rattle.vh_back.specs.Ends.{offered};
ghost use Rattle.vh_back.specs.Follows.{of_openers, AreFollowed, AreAsBefore};

use crate::item::{Item, WithinOne};
use crate::sender::Sender;
use crate::told::{take, tell_all};
use rtrb::Consumer;
use std::alloc::Global;
use std::marker::Model;
use vh_counted::Opened;
use vh_plugin::Controller;

/// The end of a link that those who edit have.
#[derive(Drop)]
pub struct Follower {
    pub(crate) consumer: Consumer<Item, Global, WithinOne>,
}

impl Model for Follower {
    ghost use Rattle.vh_back.specs.Ends.{AtFollower};

    ghost Value = { AtFollower };

    ghost use Rattle.vh_back.specs.Inner.{at_follower};

    ghost view = { at_follower };
}

impl Follower {
    /// Takes what it finds in the ring, in order, and tells the controllers, of each node one: an echo sets a
    /// parameter, a reply is handed on by `notify`. What names no controller is passed over. The answer is how many
    /// items it took. It takes no memory and waits for nobody.
    pub fn follow<C: Controller + Drop>(&mut self, edits: &mut [Opened<C>]) -> usize
        ensures received { (items : List Told) × (length items ≡ result) × (self.new.received ≡ self.old.received ++ items) }
        ensures follow { (firsts : List (List ℕ)) → AreFollowed C.class_of (last_value self.old.received) (of_openers C.code edits.old) firsts (of_openers C.values edits.old)
            → AreFollowed C.class_of (last_value self.new.received) (of_openers C.code edits.old) firsts (of_openers C.values edits.new) }
        ensures same { AreAsBefore C.code C.mode edits.old edits.new }
        ensures ring { self.new.ring ≡ self.old.ring }
    {
        let count = self.consumer.slots();
        take(&mut self.consumer, count, edits);
        count
    }
}

/// Takes all that is left of a link and tells the controllers: what is in the ring, and then what the sender kept. Each
/// parameter then has the value of the last echo that was offered for it. It takes no memory.
pub fn settle<C: Controller + Drop>(sender: Sender, follower: Follower, edits: &mut [Opened<C>])
    requires { follower.ring ≡ sender.ring }
    ensures received { (items : List Told) × (sender.sent ≡ follower.received ++ items) }
    ensures follow { (firsts : List (List ℕ)) → AreFollowed C.class_of (last_value follower.received) (of_openers C.code edits.old) firsts (of_openers C.values edits.old)
        → AreFollowed C.class_of (last_value (offered sender)) (of_openers C.code edits.old) firsts (of_openers C.values edits.new) }
    ensures same { AreAsBefore C.code C.mode edits.old edits.new }
{
    let Sender {
        mut producer,
        kept,
        ..
    } = sender;
    let Follower { mut consumer } = follower;
    let count = consumer.slots_beside(&mut producer);
    take(&mut consumer, count, edits);
    let (front, back) = kept.as_slices();
    tell_all(front, edits);
    tell_all(back, edits);
}
