//! What the audio side tells those who edit.

ghost use Rattle.std.specs.Prelude.{◌≡◌, ◌≤◌, ◌^◌, ◌++◌, ℕ, List, [], true, length, drop, All, IfOk};
ghost use Rattle.std.specs.List.{list_all, IsDistinct};
ghost use Rattle.std.proofs.Props.{props};
ghost use Rattle.vh_params.specs.Nodes.{nodes_of};
ghost use Rattle.vh_back.specs.Items.{is_same, is_among, replies as told_in, last_value};
ghost use Rattle.vh_back.specs.Ends.{offered, new_follower};
ghost use Rattle.vh_back.specs.Follows.{followed};
ghost use Rattle.vh_stage.specs.Parameters.{all_parameters};

use crate::parameters::parameters;
use std::alloc::{AllocError, Global};
use vh_back::{Follower, Item, Parameter, Sender, link};
use vh_params::{NodeTable, Reply};

/// How many items the ring has room for.
const RING: usize = 4096;

/// The end of a link that tells of changed values and of replies, and what it told.
#[derive(Drop)]
pub(crate) struct Echoes {
    pub(crate) sender: Sender,
    pub(crate) parameters: Vec<Parameter>,
    /// The values that were echoed last.
    pub(crate) echoed: Vec<u32>,
    /// How many replies were offered.
    told: usize,
    ghost apart: { IsDistinct is_same parameters.items } by { Prim.hlevel props },
    ghost long: { length echoed.items ≡ length parameters.items },
    ghost few: { length parameters.items ≤ sender.params },
    ghost among: { list_all (is_among parameters.items) (offered sender) ≡ true },
    ghost told_is: { length (told_in (offered sender)) ≡ told },
}

impl Echoes {
    /// A link for these nodes' parameters at their first values, and for so many replies, with its other end.
    pub(crate) fn new(
        alloc: Global,
        nodes: &NodeTable,
        first: &[u32],
        tells: usize,
    ) -> Result<(Echoes, Follower), AllocError>
        requires firsts { length first.now ≡ length (all_parameters (nodes_of nodes.now)) }
        ensures parameters { IfOk result (λ made. made.0.parameters.items ≡ all_parameters (nodes_of nodes.now)) }
        ensures echoed { IfOk result (λ made. made.0.echoed.items ≡ first.now) }
        ensures follow { IfOk result (λ made. followed (last_value (offered made.0.sender)) made.0.parameters.items first.now ≡ first.now) }
        ensures follower { IfOk result (λ made. made.1 ≡ new_follower made.0.sender.ring) }
        ensures none { IfOk result (λ made. told_in (offered made.0.sender) ≡ []) }
        ensures tells { IfOk result (λ made. made.0.sender.tells ≡ tells) }
    {
        vh_back::laws::the_rest_stays();
        let parameters = parameters(alloc, nodes)?;
        let echoed = Vec::from_slice(alloc, first)?;
        let (sender, follower) = link(alloc, RING, parameters.len(), tells)?;
        Ok((
            Echoes {
                sender,
                parameters,
                echoed,
                told: 0,
            },
            follower,
        ))
    }

    /// Offers an echo of each value that isn't the one that was echoed last, and the replies that weren't offered yet.
    pub(crate) fn offer(&mut self, values: &[u32], replies: &[Reply], after: u32, last: bool)
        requires within { All (λ value. value ≤ 2 ^ 24) values.now }
        requires values { length values.now ≡ length self.old.parameters.items }
        requires few { length replies.now ≤ self.old.sender.tells }
        requires more { length (told_in (offered self.old.sender)) ≤ length replies.now }
        ensures follow { (firsts : List ℕ) → followed (last_value (offered self.old.sender)) self.old.parameters.items firsts ≡ self.old.echoed.items
            → followed (last_value (offered self.new.sender)) self.new.parameters.items firsts ≡ values.now }
        ensures echoed { self.new.echoed.items ≡ values.now }
        ensures replies { told_in (offered self.new.sender) ≡ told_in (offered self.old.sender) ++ drop (length (told_in (offered self.old.sender))) replies.now }
        ensures parameters { self.new.parameters.items ≡ self.old.parameters.items }
        ensures ring { self.new.sender.ring ≡ self.old.sender.ring }
        ensures tells { self.new.sender.tells ≡ self.old.sender.tells }
    {
        self.sender
            .offer_changes(&self.parameters, &mut self.echoed, values, after, last);
        self.offer_replies(replies);
    }

    /// Offers the replies that weren't offered yet.
    fn offer_replies(&mut self, replies: &[Reply])
        requires few { length replies.now ≤ self.old.sender.tells }
        requires more { length (told_in (offered self.old.sender)) ≤ length replies.now }
        ensures replies { told_in (offered self.new.sender) ≡ told_in (offered self.old.sender) ++ drop (length (told_in (offered self.old.sender))) replies.now }
        ensures follow { (which : _) → last_value (offered self.new.sender) which ≡ last_value (offered self.old.sender) which }
        ensures echoed { self.new.echoed.items ≡ self.old.echoed.items }
        ensures parameters { self.new.parameters.items ≡ self.old.parameters.items }
        ensures ring { self.new.sender.ring ≡ self.old.sender.ring }
        ensures tells { self.new.sender.tells ≡ self.old.sender.tells }
    {
        while self.told < replies.len() {
            self.sender.offer(Item::Reply(replies[self.told]));
            self.told += 1;
        }
    }

    /// The end of the link that sends.
    pub(crate) fn into_sender(self) -> Sender
        ensures { result ≡ self.sender }
    {
        let Echoes { sender, .. } = self;
        sender
    }
}
