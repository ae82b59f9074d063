//! Echoes of what changed.

ghost use Rattle.std.specs.Prelude.{◌≡◌, ◌<◌, ◌≤◌, ◌+◌, ◌^◌, ◌++◌, ℕ, Bool, true, List, length, All};
ghost use Rattle.std.specs.List.{list_all, IsDistinct};
ghost use Rattle.vh_back.specs.declared.item.Item.{Item as Told};
ghost use Rattle.vh_back.specs.Items.{is_same, is_among, replies, last_value};
ghost use Rattle.vh_back.specs.Ends.{offered, IsSame, KeepsRoom};
ghost use Rattle.vh_back.specs.Follows.{followed};
ghost use Rattle.vh_back.specs.Changes.{changes};

use crate::item::{Item, Parameter};
use crate::sender::Sender;

impl Sender {
    /// Offers an echo of each of these parameters whose value isn't the one that was echoed last, and notes it as
    /// echoed. Values are normalised, 0 to 2^24, after so many samples; `last` says that they are those at the end.
    /// What was kept before is sent as far as there is room.
    pub fn offer_changes(
        &mut self,
        parameters: &[Parameter],
        echoed: &mut [u32],
        values: &[u32],
        after: u32,
        last: bool,
    )
        requires echoed { length echoed.old ≡ length parameters.now }
        requires values { length values.now ≡ length parameters.now }
        requires within { All (λ value. value ≤ 2 ^ 24) values.now }
        requires apart { IsDistinct is_same parameters.now }
        requires few { length parameters.now ≤ self.old.params }
        requires among { list_all (is_among parameters.now) (offered self.old) ≡ true }
        ensures echoed { echoed.new ≡ values.now }
        ensures follow { (firsts : List ℕ) → followed (last_value (offered self.old)) parameters.now firsts ≡ echoed.old → followed (last_value (offered self.new)) parameters.now firsts ≡ values.now }
        ensures only { (test : Told → Bool) → list_all test (offered self.old ++ changes after last parameters.now echoed.old values.now) ≡ true → list_all test (offered self.new) ≡ true }
        ensures among { list_all (is_among parameters.now) (offered self.new) ≡ true }
        ensures replies { replies (offered self.new) ≡ replies (offered self.old) }
        ensures sent { (items : List Told) × (self.new.sent ≡ self.old.sent ++ items) }
        ensures full { 0 < length self.new.kept → self.new.free ≡ 0 }
        ensures room { KeepsRoom self.old self.new }
        ensures same { IsSame self.old self.new }
    {
        for (place, parameter) in parameters.iter().enumerate() {
            let value = values[place];
            let changed = echoed[place] != value;
            if changed {
                echoed[place] = value;
                let Parameter { node, id } = *parameter;
                self.offer(Item::Echo {
                    node,
                    id,
                    value,
                    after,
                    last,
                });
            }
        }
        self.send_kept();
    }
}
