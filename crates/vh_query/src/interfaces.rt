ghost use Rattle.std.specs.Prelude.{◌≡◌, ◌≤◌, ◌<◌, ◌+◌, ℕ, [], ◌∷◌, length, take, IfSome};
ghost use Rattle.vh_ids.specs.declared.interface.Interface.TheVariants.{Unknown, PluginBase, Component, AudioProcessor, EditController, ConnectionPoint};
ghost use Rattle.vh_query.specs.Tables.{IsTable};

use thiserror::Error;
use vh_counted::{Counted, Holder, Opened, TooMany};
use vh_ids::{Interface, Tuid, iid};

/// Why a query gave no reference.
#[derive(Clone, Copy, Debug, PartialEq, Eq, Error)]
pub enum QueryRefused {
    #[error("the object has no such interface")]
    NoInterface,
    #[error("no add is left to the holder")]
    TooMany,
}

/// The interfaces of an object, by position. It never changes.
#[derive(Clone, Copy, Debug)]
pub struct Interfaces {
    list: [Interface; 16],
    len: u32,
    ghost within: { len ≤ 16 },
    ghost size: { length list ≡ 16 },
    ghost table: { IsTable (take len list) },
}

impl Interfaces {
    ghost use Rattle.vh_query.specs.Found.{interfaces_of, found};

    /// A table of these interfaces, 1 to 16 that differ, `FUnknown` first.
    pub fn new(list: &[Interface]) -> Interfaces
        requires most { length list.now ≤ 16 }
        requires table { IsTable list.now }
        ensures { interfaces_of result ≡ list.now }
    {
        let mut all = [Interface::Unknown; 16];
        all[..list.len()].copy_from_slice(list);
        Interfaces {
            list: all,
            len: list.len() as u32,
        }
    }

    /// The interfaces of a component.
    #[tactic(auto, using(crate::proofs::Literals::component_table))]
    pub fn of_component() -> Interfaces
        ensures interfaces { interfaces_of result ≡ Unknown ∷ PluginBase ∷ Component ∷ AudioProcessor ∷ ConnectionPoint ∷ [] }
    {
        Interfaces::new(&[
            Interface::Unknown,
            Interface::PluginBase,
            Interface::Component,
            Interface::AudioProcessor,
            Interface::ConnectionPoint,
        ])
    }

    /// The interfaces of a controller.
    #[tactic(auto, using(crate::proofs::Literals::controller_table))]
    pub fn of_controller() -> Interfaces
        ensures interfaces { interfaces_of result ≡ Unknown ∷ PluginBase ∷ EditController ∷ ConnectionPoint ∷ [] }
    {
        Interfaces::new(&[
            Interface::Unknown,
            Interface::PluginBase,
            Interface::EditController,
            Interface::ConnectionPoint,
        ])
    }

    /// The position of an interface.
    pub fn find(&self, id: &Tuid) -> Option<u32>
        ensures position { result ≡ found (interfaces_of self.now) id.now }
        ensures within { IfSome result (λ position. position < length (interfaces_of self.now)) }
    {
        for i in 0..self.len {
            if iid(self.list[i as usize]).0 == id.0 {
                return Some(i);
            }
        }
        None
    }
}

impl Interfaces {
    ghost use Rattle.vh_counted.specs.Steps.{total, at_interface};
    ghost use Rattle.vh_counted.specs.Objects.{IsWhole, Keeps};
    ghost use Rattle.vh_counted.specs.Held.{object_of, object_of_holder, numbers_of, has_value, object_of_opened, numbers_of_opened, value_of_opened};
    ghost use Rattle.vh_query.specs.Found.{interfaces_of, IsQueried};

    /// Asks for an interface from position `from`: adds one reference to it, and answers its position. The
    /// holder is unchanged where the object has no such interface, and where no add is left.
    pub fn query<T: Drop>(
        &self,
        object: &Counted<T>,
        h: &mut Holder<T>,
        from: u32,
        id: &Tuid,
    ) -> Result<u32, QueryRefused>
        requires of_this { object_of_holder h.old ≡ object_of object.now }
        requires interfaces { (object_of object.now).interfaces ≡ length (interfaces_of self.now) }
        requires from { from < length (interfaces_of self.now) }
        requires held { 1 ≤ at_interface (numbers_of h.old) from }
        requires plain { IsWhole (object_of object.now).cap (numbers_of h.old) }
        ensures step { IsQueried (object_of object.now).cap (interfaces_of self.now) id.now (numbers_of h.old) (numbers_of h.new) result }
        ensures object { object_of_holder h.new ≡ object_of_holder h.old }
        ensures value { has_value h.new ≡ has_value h.old }
        ensures kept { Keeps (object_of object.now).cap (numbers_of h.old ∷ []) (numbers_of h.new ∷ []) }
    {
        let Some(position) = self.find(id) else {
            return Err(QueryRefused::NoInterface);
        };
        match object.add_ref(h, position) {
            Ok(_) => Ok(position),
            Err(TooMany) => Err(QueryRefused::TooMany),
        }
    }

    /// The same for the opener.
    pub fn query_open<T: Drop>(
        &self,
        object: &Counted<T>,
        o: &mut Opened<T>,
        from: u32,
        id: &Tuid,
    ) -> Result<u32, QueryRefused>
        requires of_this { object_of_opened o.old ≡ object_of object.now }
        requires interfaces { (object_of object.now).interfaces ≡ length (interfaces_of self.now) }
        requires from { from < length (interfaces_of self.now) }
        requires held { 1 ≤ at_interface (numbers_of_opened o.old) from }
        requires plain { IsWhole (object_of object.now).cap (numbers_of_opened o.old) }
        ensures step { IsQueried (object_of object.now).cap (interfaces_of self.now) id.now (numbers_of_opened o.old) (numbers_of_opened o.new) result }
        ensures object { object_of_opened o.new ≡ object_of_opened o.old }
        ensures value { value_of_opened o.new ≡ value_of_opened o.old }
        ensures kept { Keeps (object_of object.now).cap (numbers_of_opened o.old ∷ []) (numbers_of_opened o.new ∷ []) }
    {
        let Some(position) = self.find(id) else {
            return Err(QueryRefused::NoInterface);
        };
        match object.add_open(o, position) {
            Ok(_) => Ok(position),
            Err(TooMany) => Err(QueryRefused::TooMany),
        }
    }
}
