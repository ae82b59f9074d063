//! The end that sends.

ghost use Rattle.std.specs.Prelude.{◌≡◌, ◌<◌, ◌≤◌, ◌+◌, ◌∷◌, [], ◌++◌, Bool, List, length, true};
ghost use Rattle.std.specs.List.{list_all, position};
ghost use Rattle.std.specs.Option.{option_or};
ghost use Rattle.circular_buffer.specs.Buffer.{buffer};
ghost use Rattle.rtrb.specs.Ring.{sent, known_free, SameProducer};
ghost use Rattle.vh_back.specs.declared.item.Item.{Item as Told};
ghost use Rattle.vh_back.specs.declared.item.Parameter.{Parameter as Which};
ghost use Rattle.vh_back.specs.Items.{is_within, replaces, put, replies, value_for, last_value};
ghost use Rattle.vh_back.specs.Ends.{offered, IsSame, KeepsRoom, MayOffer};

use crate::item::{Item, WithinOne};
use circular_buffer::HeapCircularBuffer;
use rtrb::Producer;
use std::alloc::Global;
use std::marker::Model;

/// The end of a link that the audio side has.
#[derive(Drop)]
pub struct Sender {
    pub(crate) producer: Producer<Item, Global, WithinOne>,
    pub(crate) kept: HeapCircularBuffer<Item>,
    pub(crate) params: usize,
    pub(crate) tells: usize,
}

impl Model for Sender {
    ghost use Rattle.vh_back.specs.Ends.{AtSender};

    ghost Value = { AtSender };

    ghost use Rattle.vh_back.specs.Inner.{at_sender, IsSender};

    ghost view = { at_sender };

    ghost invariant = { IsSender };
}

impl Sender {
    /// Offers an item. Where the ring has no room that the sender knows of, the sender keeps it: an echo in the
    /// place of an earlier one of its parameter, a reply behind the others. What is kept is sent by a later offer,
    /// or given by `settle`. It takes no memory and waits for nobody.
    pub fn offer(&mut self, item: Item)
        requires within { is_within item ≡ true }
        requires may { MayOffer self.old item }
        ensures offered { offered self.new ≡ self.old.sent ++ put item self.old.kept }
        ensures last { (parameter : Which) → last_value (offered self.new) parameter ≡ option_or (value_for parameter item) (last_value (offered self.old) parameter) }
        ensures replies { replies (offered self.new) ≡ replies (offered self.old) ++ replies (item ∷ []) }
        ensures only { (test : Told → Bool) → list_all test (offered self.old ++ item ∷ []) ≡ true → list_all test (offered self.new) ≡ true }
        ensures sent { (items : List Told) × (self.new.sent ≡ self.old.sent ++ items) }
        ensures full { 0 < length self.new.kept → self.new.free ≡ 0 }
        ensures room { KeepsRoom self.old self.new }
        ensures same { IsSame self.old self.new }
    {
        pass_on(&mut self.producer, &mut self.kept, item);
    }

    /// Sends what is kept, as far as there is room.
    pub(crate) fn send_kept(&mut self)
        ensures offered { offered self.new ≡ offered self.old }
        ensures sent { (items : List Told) × (self.new.sent ≡ self.old.sent ++ items) }
        ensures full { 0 < length self.new.kept → self.new.free ≡ 0 }
        ensures room { KeepsRoom self.old self.new }
        ensures same { IsSame self.old self.new }
    {
        send(&mut self.producer, &mut self.kept);
    }
}

/// The place of what an item replaces.
fn place_of(kept: &HeapCircularBuffer<Item>, item: &Item) -> Option<usize>
    ensures { result ≡ position (replaces item.now) kept.now.items }
{
    kept.iter().position(|other| item.replaces(other))
}

/// Puts an item behind what is kept, an echo in the place of an earlier one of its parameter.
fn keep(kept: &mut HeapCircularBuffer<Item>, item: Item)
    requires { length (put item kept.old.items) ≤ kept.old.capacity }
    ensures { kept.new ≡ buffer (put item kept.old.items) kept.old.capacity }
{
    match place_of(kept, &item) {
        Some(at) => {
            if let Some(place) = kept.get_mut(at) {
                *place = item;
            }
        }
        None => {
            let _ = kept.push_back(item);
        }
    }
}

/// Sends an item where nothing is kept and there is room. Else keeps it, and sends what is kept as far as there is
/// room.
fn pass_on(
    producer: &mut Producer<Item, Global, WithinOne>,
    kept: &mut HeapCircularBuffer<Item>,
    item: Item,
)
    requires this { is_within item ≡ true }
    requires within { list_all is_within kept.old.items ≡ true }
    requires room { length (put item kept.old.items) ≤ kept.old.capacity }
    ensures moved { (items : List Told) × (sent producer.new ≡ sent producer.old ++ items) × (put item kept.old.items ≡ items ++ kept.new.items) }
    ensures full { 0 < length kept.new.items → known_free producer.new ≡ 0 }
    ensures room { known_free producer.old + length (sent producer.old) ≤ known_free producer.new + length (sent producer.new) }
    ensures ring { SameProducer producer.old producer.new }
    ensures capacity { kept.new.capacity ≡ kept.old.capacity }
{
    if !kept.is_empty() {
        keep(kept, item);
        send(producer, kept);
        return;
    }
    match producer.push(item) {
        Ok(()) => {}
        Err(_) => keep(kept, item),
    }
}

/// Moves what is kept into the ring, the oldest first, until there is no room.
fn send(producer: &mut Producer<Item, Global, WithinOne>, kept: &mut HeapCircularBuffer<Item>)
    requires { list_all is_within kept.old.items ≡ true }
    ensures moved { (items : List Told) × (sent producer.new ≡ sent producer.old ++ items) × (kept.old.items ≡ items ++ kept.new.items) }
    ensures full { 0 < length kept.new.items → known_free producer.new ≡ 0 }
    ensures room { known_free producer.old + length (sent producer.old) ≤ known_free producer.new + length (sent producer.new) }
    ensures ring { SameProducer producer.old producer.new }
    ensures capacity { kept.new.capacity ≡ kept.old.capacity }
{
    while let Some(item) = kept.front().copied() {
        match producer.push(item) {
            Ok(()) => {
                let _ = kept.pop_front();
            }
            Err(_) => return,
        }
    }
}
