//! Controllers and who holds them.

ghost use Rattle.std.specs.Prelude.{◌≡◌, ◌<◌, ◌^◌, ℕ, List, [], ◌∷◌, length, map, true};
ghost use Rattle.std.specs.List.{concat};
ghost use Rattle.vh_params.specs.Nodes.{Node};
ghost use Rattle.vh_counted.specs.Held.{object_of};
ghost use Rattle.vh_instance.specs.Band.{objects_of};
ghost use Rattle.vh_instance.specs.Seats.{opener_seat, row_seats, AreHeld};
ghost use Rattle.vh_back.specs.Items.{last_value};
ghost use Rattle.vh_back.specs.Ends.{offered};
ghost use Rattle.vh_back.specs.Follows.{of_openers, followed, AreAsBefore};
ghost use Rattle.vh_stage.specs.Parameters.{all_parameters};
ghost use Rattle.vh_hands.specs.Hands.{AreInHand, AreForEditors, HaveTheirOwn, AreSameValues};
ghost use Rattle.vh_hands.specs.Following.{HaveParams, IsFollowing};

use crate::follow::follow_until;
use crate::rows::{gather_all, hand_out_all};
use crate::worked::Worked;
use std::sync::Wait;
use std::sync::atomic::AtomicBool;
use vh_back::{Follower, Sender, settle};
use vh_counted::{Counted, Holder, Opened};
use vh_plugin::Controller;

/// A band's controllers while its session is played: the controllers and their openers, by node, the editors' holders,
/// editor by editor and within each by node, and the end of the link by which the controllers follow.
pub struct Hands<C> {
    pub controllers: Vec<Counted<C>>,
    pub edits: Vec<Opened<C>>,
    pub holders: Vec<Vec<Holder<C>>>,
    pub follower: Follower,
}

impl<C: Controller + Drop> Hands<C> {
    /// Controllers that will follow a link of which nothing was received yet.
    pub fn new(
        controllers: Vec<Counted<C>>,
        edits: Vec<Opened<C>>,
        holders: Vec<Vec<Holder<C>>>,
        follower: Follower,
    ) -> Hands<C>
        requires { follower.received ≡ [] }
        ensures controllers { result.controllers ≡ controllers }
        ensures edits { result.edits ≡ edits }
        ensures holders { result.holders ≡ holders }
        ensures follower { result.follower ≡ follower }
        ensures following { IsFollowing C.class_of C.code C.values (of_openers C.values edits.items) result }
    {
        Hands {
            controllers,
            edits,
            holders,
            follower,
        }
    }

    /// Tells the controllers of what comes, until the audio has ended or 16,777,216 looks in a row found nothing.
    pub fn follow_until<R: Wait>(&mut self, rt: &R, ended: &AtomicBool)
        ensures following { (firsts : List (List ℕ)) → IsFollowing C.class_of C.code C.values firsts self.old → IsFollowing C.class_of C.code C.values firsts self.new }
        ensures same { AreAsBefore C.code C.mode self.old.edits.items self.new.edits.items }
        ensures ring { self.new.follower.ring ≡ self.old.follower.ring }
        ensures controllers { self.new.controllers ≡ self.old.controllers }
        ensures holders { self.new.holders ≡ self.old.holders }
    {
        follow_until(rt, &mut self.follower, &mut self.edits, ended);
    }

    /// Brings what the editors held and dropped to the controllers' counts. Of each controller the editors' holders are
    /// joined into the opener, which adds a reference at IEditController for each hold that was accepted and gives one
    /// back for each drop. Then each editor gets a holder of what it holds and of one reference more, its thread's, with
    /// room for the holds that it didn't make. It takes no memory.
    pub fn hand_out<E: Worked>(&mut self, editors: &E)
        requires done { E.done editors.now ≡ true }
        requires nodes { length (E.nodes editors.now) ≡ length self.old.controllers.items }
        requires few { length self.old.controllers.items < 2 ^ 32 }
        requires made { AreForEditors (length (E.scripts editors.now)) self.old.controllers.items self.old.edits.items self.old.holders.items }
        ensures hands { AreInHand (E.nodes editors.now) (E.scripts editors.now) (map row_seats self.new.holders.items) }
        ensures openers { HaveTheirOwn self.new.edits.items }
        ensures held { AreHeld (objects_of self.new.controllers.items) (map opener_seat self.new.edits.items ∷ map row_seats self.new.holders.items) }
        ensures values { AreSameValues self.old.edits.items self.new.edits.items }
        ensures following { (firsts : List (List ℕ)) → IsFollowing C.class_of C.code C.values firsts self.old → IsFollowing C.class_of C.code C.values firsts self.new }
        ensures controllers { self.new.controllers ≡ self.old.controllers }
        ensures follower { self.new.follower ≡ self.old.follower }
    {
        gather_all(&self.controllers, &mut self.edits, &mut self.holders);
        hand_out_all(
            &self.controllers,
            &mut self.edits,
            &mut self.holders,
            editors,
        );
    }

    /// Takes all that is left of the link, and gives the controllers back with their openers and the editors' holders.
    /// Each parameter has the value of the last echo that was offered for it, or where there is none its value at the
    /// start. It takes no memory.
    pub fn settle(self, sender: Sender) -> (Vec<Counted<C>>, Vec<Opened<C>>, Vec<Vec<Holder<C>>>)
        requires { self.follower.ring ≡ sender.ring }
        ensures values { (nodes : List Node) (firsts : List (List ℕ)) → HaveParams C.class_of (of_openers C.code self.edits.items) nodes → IsFollowing C.class_of C.code C.values firsts self
            → concat (of_openers C.values result.1.items) ≡ followed (last_value (offered sender)) (all_parameters nodes) (concat firsts) }
        ensures same { AreAsBefore C.code C.mode self.edits.items result.1.items }
        ensures controllers { result.0 ≡ self.controllers }
        ensures holders { result.2 ≡ self.holders }
    {
        let Hands {
            controllers,
            mut edits,
            holders,
            follower,
        } = self;
        settle(sender, follower, &mut edits);
        (controllers, edits, holders)
    }
}
