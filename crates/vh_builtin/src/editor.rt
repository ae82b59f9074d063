//! Controllers of the built-in classes.

ghost use Rattle.std.specs.Prelude.{◌≡◌, ◌≤◌, ◌^◌, IfOk, length, true};
ghost use Rattle.vh_plugin.specs.Class.{AreValues, firsts_of};
ghost use Rattle.vh_plugin.specs.Controls.{has_id, value_in, normalized_to};
ghost use Rattle.vh_builtin.specs.Builtins.{builtin};
ghost use Rattle.vh_builtin.specs.Kinds.{kind_number};
ghost use Rattle.vh_builtin.specs.Modes.{IsModeIn};
ghost use Rattle.vh_builtin.specs.Places.{IsPlaceOf};

use crate::component::{defaults, set_values};
use crate::kind::Kind;
use std::alloc::{AllocError, Global};
use vh_num::ONE;
use vh_params::Words;
use vh_plugin::Controller;

/// A controller of one of the built-in classes.
#[derive(Drop)]
pub struct Editor {
    kind: Kind,
    values: Vec<u32>,
    mode: u32,
    ghost valued: { AreValues (builtin (kind_number kind)).params values.items },
    ghost two: { mode ≤ 1 },
}

/// The mode that these bytes hold.
fn mode_in(bytes: &[u8]) -> Option<u32>
    ensures { IsModeIn bytes.now result }
{
    if bytes == [1, 0, 0, 0, 0, 0, 0, 0].as_slice() {
        Some(0)
    } else if bytes == [1, 0, 0, 0, 1, 0, 0, 0].as_slice() {
        Some(1)
    } else {
        None
    }
}

/// The place of an id among these.
fn place_of(ids: &[u32], id: u32) -> Option<usize>
    ensures { IsPlaceOf ids.now id result }
{
    for place in 0..ids.len() {
        if ids[place] == id {
            return Some(place);
        }
    }
    None
}

/// Gives the parameter of this id, among those of a kind, a value, where there is one and the value is at most 1.0.
#[tactic(auto, using(crate::proofs::Places::set_there, crate::proofs::Places::set_nowhere, crate::proofs::Places::set_over, crate::proofs::Places::set_valued))]
fn set_value(kind: Kind, values: &mut [u32], id: u32, value: u32)
    requires { AreValues (builtin (kind_number kind)).params values.old }
    ensures set { values.new ≡ normalized_to (builtin (kind_number kind)).params values.old id value }
    ensures valued { AreValues (builtin (kind_number kind)).params values.new }
{
    if value > ONE {
        return;
    }
    if let Some(place) = place_of(kind.ids(), id) {
        values[place] = value;
    }
}

/// The value of the parameter of this id, among those of a kind.
#[tactic(auto, using(crate::proofs::Places::read_there, crate::proofs::Places::some_place))]
fn value_of(kind: Kind, values: &[u32], id: u32) -> u32
    requires values { AreValues (builtin (kind_number kind)).params values.now }
    requires there { has_id (builtin (kind_number kind)).params id ≡ true }
    ensures { result ≡ value_in (builtin (kind_number kind)).params values.now id }
{
    match place_of(kind.ids(), id) {
        Some(place) => values[place],
        None => 0,
    }
}

impl Editor {
    /// A controller of this kind, at its defaults.
    pub fn new(alloc: Global, kind: Kind) -> Result<Editor, AllocError>
        ensures kind { IfOk result (λ made. kind_number made.kind ≡ kind_number kind) }
        ensures values { IfOk result (λ made. made.values.items ≡ firsts_of (builtin (kind_number kind)).params) }
        ensures mode { IfOk result (λ made. made.mode ≡ 0) }
    {
        Ok(Editor {
            kind,
            values: defaults(alloc, kind)?,
            mode: 0,
        })
    }
}

impl Controller for Editor {
    ghost use Rattle.vh_builtin.specs.Lawful.{builtin_lawful};

    ghost class_of = { builtin };

    ghost code = { λ it. kind_number it.kind };

    ghost values = { λ it. it.values.items };

    ghost mode = { λ it. it.mode };

    fn set_component_state(&mut self, bytes: &[u8]) -> bool {
        set_values(self.kind, bytes, &mut self.values)
    }

    fn set_state(&mut self, bytes: &[u8]) -> bool {
        match mode_in(bytes) {
            Some(mode) => {
                self.mode = mode;
                true
            }
            None => false,
        }
    }

    fn state(&self, alloc: Global) -> Result<Vec<u8>, AllocError> {
        Vec::from_slice(alloc, &[1, 0, 0, 0, self.mode as u8, 0, 0, 0])
    }

    fn set_normalized(&mut self, id: u32, value: u32) {
        set_value(self.kind, &mut self.values, id, value);
    }

    fn normalized(&self, id: u32) -> u32 {
        value_of(self.kind, &self.values, id)
    }

    fn notify(&mut self, message: &Words) {
        let _ = message;
    }

    fn mode(&self) -> u32 {
        self.mode
    }

    ghost lawful = { builtin_lawful };

    ghost valued = { λ it. it.valued };

    ghost moded = { λ it. it.two };
}
