//! What goes over a link.

ghost use Rattle.std.specs.Prelude.{◌≡◌, true};
ghost use Rattle.vh_back.specs.Items.{is_within, replaces};

use rtrb::Protocol;
use vh_params::Reply;

/// A parameter of a session: its node's number and its id.
#[derive(Clone, Copy, Debug, PartialEq, Eq)]
pub struct Parameter {
    pub node: u32,
    pub id: u32,
}

/// What the audio side tells those who edit.
#[derive(Clone, Copy, Debug, PartialEq, Eq)]
pub enum Item {
    /// A parameter has this normalised value, 0 to 2^24, after so many samples. The last echoes are those of the
    /// values at the end.
    Echo {
        node: u32,
        id: u32,
        value: u32,
        after: u32,
        last: bool,
    },
    /// A node's processor answered a message.
    Reply(Reply),
}

impl Item {
    /// Whether this is an echo of the same parameter as another.
    pub(crate) fn replaces(&self, other: &Item) -> bool
        ensures { result ≡ replaces self.now other.now }
    {
        match (*self, *other) {
            (
                Item::Echo { node, id, .. },
                Item::Echo {
                    node: other_node,
                    id: other_id,
                    ..
                },
            ) => node == other_node && id == other_id,
            _ => false,
        }
    }
}

/// The rule of the ring: an echo's value is at most 1.0.
#[derive(Clone, Copy)]
pub struct WithinOne;

impl Protocol<Item> for WithinOne {
    ghost allows = { λ before item. is_within item ≡ true };
}
