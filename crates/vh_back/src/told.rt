//! Controllers are told.

ghost use Rattle.std.specs.Prelude.{◌≡◌, ◌≤◌, ◌++◌, List, length, true};
ghost use Rattle.std.specs.List.{list_all};
ghost use Rattle.rtrb.specs.Ring.{received, known_items, SameConsumer};
ghost use Rattle.vh_back.specs.declared.item.Item.{Item as Told};
ghost use Rattle.vh_back.specs.Items.{is_within, value_for, last_value};
ghost use Rattle.vh_back.specs.Follows.{of_openers, AreFollowed, AreAsBefore};

use crate::item::{Item, WithinOne};
use rtrb::Consumer;
use std::alloc::Global;
use vh_counted::Opened;
use vh_plugin::Controller;

/// Tells the controller of an item's node, where there is one.
fn tell<C: Controller + Drop>(item: Item, edits: &mut [Opened<C>])
    requires { is_within item ≡ true }
    ensures values { AreFollowed C.class_of (λ parameter. value_for parameter item) (of_openers C.code edits.old) (of_openers C.values edits.old) (of_openers C.values edits.new) }
    ensures same { AreAsBefore C.code C.mode edits.old edits.new }
{
    match item {
        Item::Echo {
            node,
            id,
            value,
            ..
        } => {
            let node = node as usize;
            if node < edits.len() {
                edits[node].value_mut().set_normalized(id, value);
            }
        }
        Item::Reply(reply) => {
            let node = reply.node as usize;
            if node < edits.len() {
                edits[node].value_mut().notify(&reply.words);
            }
        }
    }
}

/// Tells the controllers of these items, one by one.
pub(crate) fn tell_all<C: Controller + Drop>(items: &[Item], edits: &mut [Opened<C>])
    requires { list_all is_within items.now ≡ true }
    ensures values { AreFollowed C.class_of (last_value items.now) (of_openers C.code edits.old) (of_openers C.values edits.old) (of_openers C.values edits.new) }
    ensures same { AreAsBefore C.code C.mode edits.old edits.new }
{
    for item in items {
        tell(*item, edits);
    }
}

/// Takes so many items from the ring, which are known to be there, and tells the controllers of each.
pub(crate) fn take<C: Controller + Drop>(
    consumer: &mut Consumer<Item, Global, WithinOne>,
    count: usize,
    edits: &mut [Opened<C>],
)
    requires { count ≤ length (known_items consumer.old) }
    ensures taken { (items : List Told) × (length items ≡ count)
        × (received consumer.new ≡ received consumer.old ++ items)
        × (known_items consumer.old ≡ items ++ known_items consumer.new)
        × AreFollowed C.class_of (last_value items) (of_openers C.code edits.old) (of_openers C.values edits.old) (of_openers C.values edits.new) }
    ensures same { AreAsBefore C.code C.mode edits.old edits.new }
    ensures ring { SameConsumer consumer.old consumer.new }
{
    for _ in 0..count {
        tell(consumer.pop_known(), edits);
    }
}
