//! References to interfaces.

ghost use Rattle.std.specs.Prelude.{◌≡◌, ◌≤◌, ◌<◌, ◌+◌, ℕ, length, Some};
ghost use Rattle.vh_counted.specs.Steps.{at_interface};
ghost use Rattle.vh_counted.specs.Objects.{IsWhole};
ghost use Rattle.vh_counted.specs.Held.{object_of, object_of_opened, numbers_of_opened, value_of_opened};
ghost use Rattle.vh_ids.specs.Interfaces.{iid_of};
ghost use Rattle.vh_query.specs.Found.{interfaces_of, found_from};
ghost use Rattle.vh_instance.specs.Seats.{IsFound};

use vh_counted::{Counted, Opened};
use vh_ids::{Interface, iid};
use vh_query::Interfaces;

/// Adds a reference at an interface, which the object has, and for which the opener has room.
pub(crate) fn add_reference<T: Drop>(
    table: &Interfaces,
    object: &Counted<T>,
    opener: &mut Opened<T>,
    interface: Interface,
)
    requires of_this { object_of_opened opener.old ≡ object_of object.now }
    requires interfaces { (object_of object.now).interfaces ≡ length (interfaces_of table.now) }
    requires some { 0 < length (interfaces_of table.now) }
    requires base { 1 ≤ at_interface (numbers_of_opened opener.old) 0 }
    requires whole { IsWhole (object_of object.now).cap (numbers_of_opened opener.old) }
    requires listed { (position : ℕ) × (found_from 0 (interfaces_of table.now) (iid_of interface) ≡ Some position) }
    requires room { 0 < (numbers_of_opened opener.old).room }
    ensures found { IsFound (interfaces_of table.now) interface (numbers_of_opened opener.old) (numbers_of_opened opener.new) }
    ensures base { 1 ≤ at_interface (numbers_of_opened opener.new) 0 }
    ensures room { (numbers_of_opened opener.new).room + 1 ≡ (numbers_of_opened opener.old).room }
    ensures whole { IsWhole (object_of object.now).cap (numbers_of_opened opener.new) }
    ensures object { object_of_opened opener.new ≡ object_of_opened opener.old }
    ensures value { value_of_opened opener.new ≡ value_of_opened opener.old }
{
    let _ = table.query_open(object, opener, 0, &iid(interface));
}
