//! The smallest class: what comes in goes out.

ghost use Rattle.std.specs.Prelude.{◌≡◌, ◌≤◌, ◌^◌, length, IfOk};
ghost use Rattle.vh_params.specs.ClassList.{classes_of};
ghost use Rattle.plugin_example.specs.Wires.{wire, IsOf, HasName, wire_code};

use crate::parts::{mode_in, one_class};
use std::alloc::{AllocError, Global};
use vh_component::{Life, Phase, Setup};
use vh_counted::Ended;
use vh_ids::Tuid;
use vh_params::{Classes, Label, ParamInfo, Words};
use vh_plugin::{Controller, PluginSet, Processor};
use vh_points::Points;

/// A processor that gives its main input out, and answers a message by the message. It shows one parameter.
#[derive(Drop)]
pub struct Wire {
    phase: Phase,
    setup: Setup,
    level: u32,
    calls: u64,
    ghost within: { level ≤ 2 ^ 24 },
}

impl Life for Wire {
    ghost use Rattle.std.specs.Prelude.{ℕ};

    ghost phase = { λ wire. wire.phase };

    ghost last_setup = { λ wire. wire.setup };

    ghost Rest = { ℕ × ℕ };

    ghost rest = { λ wire. (wire.level, wire.calls) };

    fn initialize(&mut self) {
        self.phase = Phase::Initialized;
    }

    fn set_up(&mut self, setup: &Setup) {
        self.phase = Phase::Ready;
        self.setup = *setup;
    }

    fn set_active(&mut self, on: bool) {
        self.phase = if on { Phase::Active } else { Phase::Ready };
    }

    fn set_processing(&mut self, on: bool) {
        self.phase = if on { Phase::Processing } else { Phase::Active };
    }

    fn terminate(&mut self) {
        self.phase = Phase::Created;
    }
}

impl Processor for Wire {
    ghost use Rattle.std.specs.Prelude.{[], ◌∷◌, refl, ℕ};
    ghost use Rattle.plugin_example.specs.Wires.{wire, wire_lawful, wire_valued, same_values, same_calls};

    ghost class_of = { λ code. wire };

    ghost code = { λ _. 0 };

    ghost values = { λ it. it.level ∷ [] };

    ghost state = { λ _. [] };

    ghost calls = { λ it. it.calls };

    fn process(&mut self, n: usize, points: &Points, main: &[i32], aux: &[i32], out: &mut [i32]) {
        let _ = n;
        let _ = points;
        let _ = aux;
        out.copy_from_slice(main);
        self.calls = self.calls.saturating_add(1);
    }

    fn notify(&mut self, given: &[u32], message: &Words) -> Words {
        let _ = given;
        *message
    }

    fn shown(&self, id: u32) -> u32 {
        let _ = id;
        0
    }

    fn set_state(&mut self, bytes: &[u8]) -> bool {
        bytes.is_empty()
    }

    fn state(&self, alloc: Global) -> Result<Vec<u8>, AllocError> {
        Ok(Vec::new(alloc))
    }

    fn set_first(&mut self, given: &[u32]) {
        self.level = given[0];
    }

    fn controller_class(&self) -> Tuid {
        Tuid([0; 16])
    }

    fn calls(&self) -> u64 {
        self.calls
    }

    ghost lawful = { wire_lawful };

    ghost valued = { λ it. wire_valued it.level it.within };

    ghost keeps_code = { λ x y same. refl };

    ghost keeps_values = { λ x y same. same_values x.level y.level x.calls y.calls same };

    ghost keeps_state = { λ x y same. refl };

    ghost keeps_calls = { λ x y same. same_calls x.level y.level x.calls y.calls same };
}

/// A controller of the same class.
#[derive(Drop)]
pub struct Dial {
    level: u32,
    mode: u32,
    ghost within: { level ≤ 2 ^ 24 },
    ghost two: { mode ≤ 1 },
}

impl Controller for Dial {
    ghost use Rattle.std.specs.Prelude.{[], ◌∷◌};
    ghost use Rattle.plugin_example.specs.Wires.{wire, wire_lawful, wire_valued};

    ghost class_of = { λ code. wire };

    ghost code = { λ _. 0 };

    ghost values = { λ dial. dial.level ∷ [] };

    ghost mode = { λ dial. dial.mode };

    fn set_component_state(&mut self, bytes: &[u8]) -> bool {
        bytes.is_empty()
    }

    fn set_state(&mut self, bytes: &[u8]) -> bool {
        match mode_in(bytes) {
            Some(mode) => {
                self.mode = mode;
                true
            }
            None => false,
        }
    }

    fn state(&self, alloc: Global) -> Result<Vec<u8>, AllocError> {
        Vec::from_slice(alloc, &[1, 0, 0, 0, self.mode as u8, 0, 0, 0])
    }

    fn set_normalized(&mut self, id: u32, value: u32) {
        if id == 0 && value <= 1 << 24 {
            self.level = value;
        }
    }

    fn normalized(&self, id: u32) -> u32 {
        let _ = id;
        self.level
    }

    fn notify(&mut self, message: &Words) {
        let _ = message;
    }

    fn mode(&self) -> u32 {
        self.mode
    }

    ghost lawful = { wire_lawful };

    ghost valued = { λ dial. wire_valued dial.level dial.within };

    ghost moded = { λ dial. dial.two };
}

/// A set of this one class.
#[derive(Drop)]
pub struct Wires {
    classes: Classes,
    made: u64,
    ended: u64,
    work: u64,
    ghost one: { IsOf wire (classes_of classes) },
}

impl PluginSet for Wires {
    ghost use Rattle.std.specs.Prelude.{ℕ};
    ghost use Rattle.vh_counted.specs.Held.{value_of_ended};
    ghost use Rattle.vh_plugin.specs.Counts.{raised, raised_by};
    ghost use Rattle.vh_plugin.specs.ListLaws.{one_class_agrees};

    type P = Wire;

    type C = Dial;

    ghost infos = { λ set. classes_of set.classes };

    ghost code = { λ set class. wire_code class };

    ghost made = { λ set. set.made };

    ghost ended = { λ set. set.ended };

    ghost work = { λ set. set.work };

    fn classes(&self) -> &Classes {
        &self.classes
    }

    fn create_component(&mut self, alloc: Global, class: u32) -> Result<Wire, AllocError> {
        let _ = alloc;
        let _ = class;
        self.made = self.made.saturating_add(1);
        Ok(Wire {
            phase: Phase::Created,
            setup: Setup {
                channels: 1,
                max: 1,
            },
            level: 0,
            calls: 0,
        })
    }

    fn create_controller(&mut self, alloc: Global, class: u32) -> Result<Dial, AllocError> {
        let _ = alloc;
        let _ = class;
        self.made = self.made.saturating_add(1);
        Ok(Dial { level: 0, mode: 0 })
    }

    fn end_component(&mut self, object: Ended<Wire>)
        ensures ended { self.new.ended ≡ raised self.old.ended }
        ensures work { self.new.work ≡ raised_by (value_of_ended object).calls self.old.work }
        ensures made { self.new.made ≡ self.old.made }
        ensures infos { classes_of self.new.classes ≡ classes_of self.old.classes }
        ensures codes { (class : ℕ) → wire_code class ≡ wire_code class }
    {
        self.work = self.work.saturating_add(object.value().calls());
        self.ended = self.ended.saturating_add(1);
        object.finish();
    }

    fn end_controller(&mut self, object: Ended<Dial>)
        ensures ended { self.new.ended ≡ raised self.old.ended }
        ensures work { self.new.work ≡ self.old.work }
        ensures made { self.new.made ≡ self.old.made }
        ensures infos { classes_of self.new.classes ≡ classes_of self.old.classes }
        ensures codes { (class : ℕ) → wire_code class ≡ wire_code class }
    {
        self.ended = self.ended.saturating_add(1);
        object.finish();
    }

    fn made(&self) -> u64 {
        self.made
    }

    fn ended(&self) -> u64 {
        self.ended
    }

    fn work(&self) -> u64 {
        self.work
    }

    ghost components = { λ set. set.one };

    ghost controllers = { λ set. set.one };

    ghost agreeing = { λ set class within. one_class_agrees (λ code. wire) (wire_code class) };
}

/// A set of the wire's class under this name.
pub fn set_of_wires(alloc: Global, name: &[u8]) -> Result<Wires, AllocError>
    requires { length name.now ≤ 32 }
    ensures { IfOk result (λ set. HasName (classes_of set.classes) name.now) }
{
    let level = ParamInfo {
        id: 0,
        title: Label::new(b"Level"),
        units: Label::new(b""),
        steps: 0,
        first: 0,
        unit: 0,
        flags: 2,
    };
    Ok(Wires {
        classes: one_class(alloc, name, &[level], false, Tuid([0; 16]))?,
        made: 0,
        ended: 0,
        work: 0,
    })
}
