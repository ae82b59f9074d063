//! Classes of plug-ins.

ghost use Rattle.std.specs.Prelude.{◌≡◌, ◌≢◌, ◌<◌, ◌^◌, ◌↔◌, IsTrue, ℕ, List, length, slice_index_or, IfSome, IfNone, IfOk, IsOk};
ghost use Rattle.vh_params.specs.declared.class.ClassInfo.{ClassInfo as Class};
ghost use Rattle.vh_params.specs.Short.{label_text};
ghost use Rattle.vh_params.specs.Classes.{NamesDiffer};

use crate::label::Label;
use crate::table::ParamTable;
use std::alloc::{AllocError, Global};
use vh_ids::Tuid;

/// What is known of a class: the name that sessions call it by, the identifiers of its component and of
/// its controller, whether it has an aux bus, and its parameters.
#[derive(Drop)]
pub struct ClassInfo {
    pub name: Label,
    pub component: Tuid,
    pub controller: Tuid,
    pub aux: bool,
    pub params: ParamTable,
}

/// The classes of a set of plug-ins, numbered from 0.
#[derive(Drop)]
pub struct Classes {
    list: Vec<ClassInfo>,
    ghost names: { NamesDiffer list.items },
    ghost count: { length list.items < 2 ^ 32 },
}

impl Classes {
    ghost use Rattle.vh_params.specs.ClassList.{classes_of};

    /// These classes, in this order.
    pub fn new(alloc: Global, list: Vec<ClassInfo>) -> Result<Classes, AllocError>
        requires names { NamesDiffer list.items }
        requires count { length list.items < 2 ^ 32 }
        ensures classes { IfOk result (λ made. classes_of made ≡ list.items) }
        ensures succeeds { IsOk result }
    {
        let _ = alloc;
        Ok(Classes { list })
    }

    /// How many classes there are.
    pub fn len(&self) -> u32
        ensures { result ≡ length (classes_of self.now) }
    {
        self.list.len() as u32
    }

    /// Whether there is no class.
    pub fn is_empty(&self) -> bool
        ensures { IsTrue result ↔ (length (classes_of self.now) ≡ 0) }
    {
        self.list.is_empty()
    }

    /// The number of the class of a name.
    pub fn find(&self, name: &[u8]) -> Option<u32>
        ensures some { IfSome result (λ class. (class < length (classes_of self.now)) × ((d : Class) → label_text (slice_index_or (classes_of self.now) class d).name ≡ name.now)) }
        ensures first { IfSome result (λ class. (before : ℕ) (d : Class) → before < class → label_text (slice_index_or (classes_of self.now) before d).name ≢ name.now) }
        ensures none { IfNone result ((class : ℕ) (d : Class) → class < length (classes_of self.now) → label_text (slice_index_or (classes_of self.now) class d).name ≢ name.now) }
    {
        for i in 0..self.list.len() {
            if self.list[i].name.text() == name {
                return Some(i as u32);
            }
        }
        None
    }

    /// What is known of a class.
    pub fn info(&self, class: u32) -> &ClassInfo
        requires { class < length (classes_of self.now) }
        ensures { (d : Class) → result.now ≡ slice_index_or (classes_of self.now) class d }
    {
        &self.list[class as usize]
    }
}
