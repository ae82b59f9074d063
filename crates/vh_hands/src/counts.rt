//! A controller's count gets what the editors held and dropped.

ghost use Rattle.std.specs.Prelude.{◌≡◌, ◌<◌, ◌+◌, ℕ, [], ◌∷◌, length, map, true, All, vec_capacity};
ghost use Rattle.std.specs.List.{sum_by};
ghost use Rattle.vh_counted.specs.Held.{object_of, object_of_opened, numbers_of_opened, value_of_opened};
ghost use Rattle.vh_counted.specs.Steps.{at_interface};
ghost use Rattle.vh_counted.specs.Objects.{IsWhole};
ghost use Rattle.vh_instance.specs.Band.{controller_object, controller_table, kept_beside};
ghost use Rattle.vh_instance.specs.Seats.{opener_seat, row_seats, AreTogether, Has};
ghost use Rattle.vh_hands.specs.Hands.{in_hand, not_held};
ghost use Rattle.vh_hands.specs.Parts.{IsGathered, part_for, row_for};

use crate::worked::Worked;
use vh_counted::{Counted, Holder, Opened};
use vh_plugin::Controller;

/// The position of IEditController among a controller's interfaces.
const EDIT_CONTROLLER: u32 = 2;

/// How many holds of a node an editor may make.
const MOST_HOLDS: u32 = 64;

/// Adds a reference for each of so many holds.
fn add_holds<C: Controller + Drop>(object: &Counted<C>, opener: &mut Opened<C>, holds: u32)
    requires of_this { object_of_opened opener.old ≡ object_of object.now }
    requires interfaces { (object_of object.now).interfaces ≡ 4 }
    requires whole { IsWhole (object_of object.now).cap (numbers_of_opened opener.old) }
    ensures references { (given room : ℕ) → Has controller_table (kept_beside given) (room + holds) (opener_seat opener.old) → Has controller_table (kept_beside (given + holds)) room (opener_seat opener.new) }
    ensures whole { IsWhole (object_of object.now).cap (numbers_of_opened opener.new) }
    ensures object { object_of_opened opener.new ≡ object_of_opened opener.old }
    ensures value { value_of_opened opener.new ≡ value_of_opened opener.old }
{
    for _ in 0..holds {
        let _ = object.add_open(opener, EDIT_CONTROLLER);
    }
}

/// Gives a reference back for each of so many drops.
fn release_drops<C: Controller + Drop>(object: &Counted<C>, opener: &mut Opened<C>, drops: u32)
    requires of_this { object_of_opened opener.old ≡ object_of object.now }
    requires interfaces { (object_of object.now).interfaces ≡ 4 }
    requires whole { IsWhole (object_of object.now).cap (numbers_of_opened opener.old) }
    requires some { drops < at_interface (numbers_of_opened opener.old) 2 }
    ensures references { (given room : ℕ) → Has controller_table (kept_beside (given + drops)) room (opener_seat opener.old) → Has controller_table (kept_beside given) room (opener_seat opener.new) }
    ensures whole { IsWhole (object_of object.now).cap (numbers_of_opened opener.new) }
    ensures object { object_of_opened opener.new ≡ object_of_opened opener.old }
    ensures value { value_of_opened opener.new ≡ value_of_opened opener.old }
{
    for _ in 0..drops {
        object.release_open(opener, EDIT_CONTROLLER);
    }
}

/// Adds a reference for each hold that an editor made of a node, and gives one back for each drop.
fn count_hands<C: Controller + Drop, E: Worked>(
    object: &Counted<C>,
    opener: &mut Opened<C>,
    editors: &E,
    node: u32,
)
    requires done { E.done editors.now ≡ true }
    requires node { node < length (E.nodes editors.now) }
    requires object { object_of object.now ≡ controller_object (length (E.scripts editors.now)) }
    requires gathered { IsGathered (length (E.scripts editors.now)) (opener_seat opener.old) }
    ensures held { AreTogether (object_of object.now) (opener_seat opener.new ∷ []) }
    ensures references { Has controller_table (kept_beside (sum_by (in_hand (E.nodes editors.now) node) (E.scripts editors.now))) (sum_by (not_held (E.nodes editors.now) node) (E.scripts editors.now)) (opener_seat opener.new) }
    ensures value { value_of_opened opener.new ≡ value_of_opened opener.old }
{
    for editor in 0..editors.count() {
        let gestures = editors.gestures(editor);
        let holds = gestures.holds(node);
        let held = gestures.held(node);
        add_holds(object, opener, holds);
        release_drops(object, opener, 1 + holds - held);
    }
}

/// Parts a holder off for each editor and puts it behind the editor's others: it has what the editor holds of a node and
/// its thread's reference, and room for the holds that it didn't make.
fn part_hands<C: Controller + Drop, E: Worked>(
    object: &Counted<C>,
    opener: &mut Opened<C>,
    rows: &mut [Vec<Holder<C>>],
    editors: &E,
    node: u32,
)
    requires done { E.done editors.now ≡ true }
    requires node { node < length (E.nodes editors.now) }
    requires object { object_of object.now ≡ controller_object (length (E.scripts editors.now)) }
    requires held { AreTogether (object_of object.now) (opener_seat opener.old ∷ []) }
    requires references { Has controller_table (kept_beside (sum_by (in_hand (E.nodes editors.now) node) (E.scripts editors.now))) (sum_by (not_held (E.nodes editors.now) node) (E.scripts editors.now)) (opener_seat opener.old) }
    requires rows { map row_seats rows.old ≡ map (row_for (length (E.scripts editors.now)) (E.nodes editors.now) node) (E.scripts editors.now) }
    requires room { All (λ room. node < room) (map vec_capacity rows.old) }
    ensures rows { map row_seats rows.new ≡ map (row_for (length (E.scripts editors.now)) (E.nodes editors.now) (node + 1)) (E.scripts editors.now) }
    ensures capacities { map vec_capacity rows.new ≡ map vec_capacity rows.old }
    ensures held { AreTogether (object_of object.now) (opener_seat opener.new ∷ map (part_for (length (E.scripts editors.now)) (E.nodes editors.now) node) (E.scripts editors.now)) }
    ensures references { Has controller_table (kept_beside 0) 0 (opener_seat opener.new) }
    ensures value { value_of_opened opener.new ≡ value_of_opened opener.old }
{
    for editor in 0..rows.len() {
        let gestures = editors.gestures(editor);
        let references = gestures.held(node) + 1;
        let room = MOST_HOLDS - gestures.holds(node);
        let part = object.part(opener, EDIT_CONTROLLER, references, room);
        rows[editor].push_reserved(part);
    }
}

/// Brings what the editors held and dropped of a node to its controller's count, and gives each editor a holder.
pub(crate) fn hand_out_one<C: Controller + Drop, E: Worked>(
    object: &Counted<C>,
    opener: &mut Opened<C>,
    rows: &mut [Vec<Holder<C>>],
    editors: &E,
    node: u32,
)
    requires done { E.done editors.now ≡ true }
    requires node { node < length (E.nodes editors.now) }
    requires object { object_of object.now ≡ controller_object (length (E.scripts editors.now)) }
    requires gathered { IsGathered (length (E.scripts editors.now)) (opener_seat opener.old) }
    requires rows { map row_seats rows.old ≡ map (row_for (length (E.scripts editors.now)) (E.nodes editors.now) node) (E.scripts editors.now) }
    requires room { All (λ room. node < room) (map vec_capacity rows.old) }
    ensures rows { map row_seats rows.new ≡ map (row_for (length (E.scripts editors.now)) (E.nodes editors.now) (node + 1)) (E.scripts editors.now) }
    ensures capacities { map vec_capacity rows.new ≡ map vec_capacity rows.old }
    ensures held { AreTogether (object_of object.now) (opener_seat opener.new ∷ map (part_for (length (E.scripts editors.now)) (E.nodes editors.now) node) (E.scripts editors.now)) }
    ensures references { Has controller_table (kept_beside 0) 0 (opener_seat opener.new) }
    ensures value { value_of_opened opener.new ≡ value_of_opened opener.old }
{
    count_hands(object, opener, editors, node);
    part_hands(object, opener, rows, editors, node);
}
