//! The editors' holders, row by row.

ghost use Rattle.std.specs.Prelude.{◌≡◌, ◌≤◌, ◌<◌, ◌*◌, ◌^◌, ℕ, [], ◌∷◌, List, length, map, true, All, vec_capacity};
ghost use Rattle.vh_counted.specs.Held.{object_of, value_of_opened};
ghost use Rattle.vh_instance.specs.Band.{controller_object, controller_table, kept_beside, kept_by_editor, objects_of};
ghost use Rattle.vh_instance.specs.Seats.{opener_seat, row_seats, last_holders, without_last, AreEmpty, AreTogether, AreHeld, Has};
ghost use Rattle.vh_hands.specs.Hands.{AreInHand, AreForEditors, HaveTheirOwn, AreSameValues};
ghost use Rattle.vh_hands.specs.Parts.{IsGathered};

use crate::counts::hand_out_one;
use crate::worked::Worked;
use vh_counted::{Counted, Holder, Opened};
use vh_plugin::Controller;

/// Joins the last holder of each row into a controller's opener.
fn gather_one<C: Controller + Drop>(
    object: &Counted<C>,
    opener: &mut Opened<C>,
    rows: &mut [Vec<Holder<C>>],
)
    requires some { All (λ row. 1 ≤ length row) (map row_seats rows.old) }
    requires held { AreTogether (object_of object.now) (opener_seat opener.old ∷ last_holders (map row_seats rows.old)) }
    requires own { Has controller_table (kept_beside 0) 0 (opener_seat opener.old) }
    requires editors { All (Has controller_table kept_by_editor 64) (last_holders (map row_seats rows.old)) }
    ensures rows { map row_seats rows.new ≡ without_last (map row_seats rows.old) }
    ensures capacities { map vec_capacity rows.new ≡ map vec_capacity rows.old }
    ensures held { AreTogether (object_of object.now) (opener_seat opener.new ∷ []) }
    ensures references { Has controller_table (kept_beside (2 * length rows.old)) (64 * length rows.old) (opener_seat opener.new) }
    ensures value { value_of_opened opener.new ≡ value_of_opened opener.old }
{
    for row in rows {
        object.join_open(opener, row.take_last());
    }
}

/// Joins the editors' holders into the controllers' openers, and leaves the rows empty, each with its memory.
pub(crate) fn gather_all<C: Controller + Drop>(
    controllers: &[Counted<C>],
    edits: &mut [Opened<C>],
    rows: &mut [Vec<Holder<C>>],
)
    requires made { AreForEditors (length rows.old) controllers.now edits.old rows.old }
    ensures gathered { All (IsGathered (length rows.old)) (map opener_seat edits.new) }
    ensures rows { AreEmpty rows.new }
    ensures capacities { map vec_capacity rows.new ≡ map vec_capacity rows.old }
    ensures values { AreSameValues edits.old edits.new }
{
    let count = controllers.len();
    for gathered in 0..count {
        let node = count - 1 - gathered;
        gather_one(&controllers[node], &mut edits[node], rows);
    }
}

/// Brings what the editors held and dropped to the controllers' counts, and gives each editor a holder of each controller.
pub(crate) fn hand_out_all<C: Controller + Drop, E: Worked>(
    controllers: &[Counted<C>],
    edits: &mut [Opened<C>],
    rows: &mut [Vec<Holder<C>>],
    editors: &E,
)
    requires done { E.done editors.now ≡ true }
    requires nodes { length (E.nodes editors.now) ≡ length controllers.now }
    requires few { length controllers.now < 2 ^ 32 }
    requires openers { length edits.old ≡ length controllers.now }
    requires objects { All (λ object. object ≡ controller_object (length (E.scripts editors.now))) (objects_of controllers.now) }
    requires gathered { All (IsGathered (length (E.scripts editors.now))) (map opener_seat edits.old) }
    requires editors { length rows.old ≡ length (E.scripts editors.now) }
    requires empty { AreEmpty rows.old }
    requires room { All (λ room. length controllers.now ≤ room) (map vec_capacity rows.old) }
    ensures hands { AreInHand (E.nodes editors.now) (E.scripts editors.now) (map row_seats rows.new) }
    ensures openers { HaveTheirOwn edits.new }
    ensures held { AreHeld (objects_of controllers.now) (map opener_seat edits.new ∷ map row_seats rows.new) }
    ensures values { AreSameValues edits.old edits.new }
{
    for node in 0..controllers.len() {
        hand_out_one(
            &controllers[node],
            &mut edits[node],
            rows,
            editors,
            node as u32,
        );
    }
}
