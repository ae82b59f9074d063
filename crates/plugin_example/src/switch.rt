//! A class with state and an aux bus, which plays its blocks over a kernel.

ghost use Rattle.std.specs.Prelude.{◌≡◌, ◌≤◌, ◌^◌, [], ◌∷◌, length, IfOk, pos};
ghost use Rattle.vh_params.specs.ClassList.{classes_of};
ghost use Rattle.plugin_example.specs.Switches.{switch, IsValueIn, switch_code};
ghost use Rattle.plugin_example.specs.Wires.{IsOf, HasName};

use crate::parts::{mode_in, one_class};
use std::alloc::{AllocError, Global};
use vh_component::{Life, Phase, Setup};
use vh_counted::Ended;
use vh_ids::Tuid;
use vh_params::{Classes, Label, ParamInfo, Words};
use vh_plugin::{Controller, Kernel, PluginSet, Processor, play};
use vh_points::Points;

/// It counts its samples.
#[derive(Drop)]
struct Counter {
    seen: u64,
}

impl Kernel for Counter {
    ghost class = { switch };

    ghost state = { λ counter. pos counter.seen ∷ [] };

    #[tactic(auto, using(crate::proofs::Counting::counts))]
    fn mono(&mut self, values: &[u32], main: &[i32], aux: &[i32], out: &mut [i32]) {
        if values[0] >= 1 << 23 && !aux.is_empty() {
            out.copy_from_slice(aux);
        } else {
            out.copy_from_slice(main);
        }
        self.seen = self.seen.saturating_add(main.len() as u64);
    }

    #[tactic(auto, using(crate::proofs::Counting::counts))]
    fn stereo(
        &mut self,
        values: &[u32],
        left: &[i32],
        right: &[i32],
        aux_left: &[i32],
        aux_right: &[i32],
        out_left: &mut [i32],
        out_right: &mut [i32],
    ) {
        if values[0] >= 1 << 23 && !aux_left.is_empty() {
            out_left.copy_from_slice(aux_left);
            out_right.copy_from_slice(aux_right);
        } else {
            out_left.copy_from_slice(left);
            out_right.copy_from_slice(right);
        }
        self.seen = self.seen.saturating_add(left.len() as u64);
    }
}

/// A processor of the class.
#[derive(Drop)]
pub struct Switch {
    pub phase: Phase,
    pub setup: Setup,
    value: u32,
    light: u32,
    counter: Counter,
    pub calls: u64,
    ghost within: { value ≤ 2 ^ 24 },
    ghost light_within: { light ≤ 2 ^ 24 },
}

impl Life for Switch {
    ghost use Rattle.std.specs.Prelude.{ℕ};

    ghost phase = { λ it. it.phase };

    ghost last_setup = { λ it. it.setup };

    ghost Rest = { ℕ × ℕ × ℕ × ℕ };

    ghost rest = { λ it. (it.value, it.light, it.counter.seen, it.calls) };

    fn initialize(&mut self) {
        self.phase = Phase::Initialized;
    }

    fn set_up(&mut self, setup: &Setup) {
        self.phase = Phase::Ready;
        self.setup = *setup;
    }

    fn set_active(&mut self, on: bool) {
        self.phase = if on { Phase::Active } else { Phase::Ready };
    }

    fn set_processing(&mut self, on: bool) {
        self.phase = if on { Phase::Processing } else { Phase::Active };
    }

    fn terminate(&mut self) {
        self.phase = Phase::Created;
    }
}

/// The value that these bytes hold.
fn value_in(bytes: &[u8]) -> Option<u32>
    ensures { IsValueIn bytes.now result }
{
    let &[a, b, c, d] = bytes else {
        return None;
    };
    let value = u32::from_le_bytes([a, b, c, d]);
    (value <= 1 << 24).then_some(value)
}

impl Processor for Switch {
    ghost use Rattle.std.specs.Prelude.{refl, ℕ};
    ghost use Rattle.plugin_example.specs.Switches.{switch_lawful, switch_valued, same_switch_values, same_switch_state, same_switch_calls};

    ghost class_of = { λ code. switch };

    ghost code = { λ _. 0 };

    ghost values = { λ it. it.value ∷ it.light ∷ [] };

    ghost state = { λ it. pos it.counter.seen ∷ [] };

    ghost calls = { λ it. it.calls };

    fn process(&mut self, n: usize, points: &Points, main: &[i32], aux: &[i32], out: &mut [i32]) {
        let mut values = [self.value, self.light];
        play(
            &mut self.counter,
            &[3, 4],
            &mut values,
            points,
            self.setup.channels,
            n,
            main,
            aux,
            out,
        );
        self.value = values[0];
        self.light = values[1];
        self.calls = self.calls.saturating_add(1);
    }

    fn notify(&mut self, given: &[u32], message: &Words) -> Words {
        let _ = given;
        let _ = message;
        let seen = self.counter.seen.min(u32::MAX as u64) as u32;
        self.counter.seen = 0;
        Words::new(&[seen])
    }

    fn shown(&self, id: u32) -> u32 {
        let _ = id;
        if self.counter.seen == 0 { 0 } else { 1 << 24 }
    }

    fn set_state(&mut self, bytes: &[u8]) -> bool {
        match value_in(bytes) {
            Some(value) => {
                self.value = value;
                true
            }
            None => false,
        }
    }

    fn state(&self, alloc: Global) -> Result<Vec<u8>, AllocError> {
        Vec::from_slice(alloc, &self.value.to_le_bytes())
    }

    fn set_first(&mut self, given: &[u32]) {
        self.value = given[0];
        self.light = given[1];
    }

    fn controller_class(&self) -> Tuid {
        Tuid([1; 16])
    }

    fn calls(&self) -> u64 {
        self.calls
    }

    ghost lawful = { switch_lawful };

    ghost valued = { λ it. switch_valued it.value it.light it.within it.light_within };

    ghost keeps_code = { λ x y same. refl };

    ghost keeps_values = { λ x y same. same_switch_values x.value y.value x.light y.light x.counter.seen y.counter.seen x.calls y.calls same };

    ghost keeps_state = { λ x y same. same_switch_state x.value y.value x.light y.light x.counter.seen y.counter.seen x.calls y.calls same };

    ghost keeps_calls = { λ x y same. same_switch_calls x.value y.value x.light y.light x.counter.seen y.counter.seen x.calls y.calls same };
}

/// A controller of the class.
#[derive(Drop)]
pub struct Knob {
    value: u32,
    light: u32,
    mode: u32,
    ghost within: { value ≤ 2 ^ 24 },
    ghost light_within: { light ≤ 2 ^ 24 },
    ghost two: { mode ≤ 1 },
}

impl Controller for Knob {
    ghost use Rattle.plugin_example.specs.Switches.{switch_lawful, switch_valued};

    ghost class_of = { λ code. switch };

    ghost code = { λ _. 0 };

    ghost values = { λ knob. knob.value ∷ knob.light ∷ [] };

    ghost mode = { λ knob. knob.mode };

    fn set_component_state(&mut self, bytes: &[u8]) -> bool {
        match value_in(bytes) {
            Some(value) => {
                self.value = value;
                true
            }
            None => false,
        }
    }

    fn set_state(&mut self, bytes: &[u8]) -> bool {
        match mode_in(bytes) {
            Some(mode) => {
                self.mode = mode;
                true
            }
            None => false,
        }
    }

    fn state(&self, alloc: Global) -> Result<Vec<u8>, AllocError> {
        Vec::from_slice(alloc, &[1, 0, 0, 0, self.mode as u8, 0, 0, 0])
    }

    fn set_normalized(&mut self, id: u32, value: u32) {
        if value <= 1 << 24 {
            match id {
                3 => self.value = value,
                4 => self.light = value,
                _ => {}
            }
        }
    }

    fn normalized(&self, id: u32) -> u32 {
        if id == 3 { self.value } else { self.light }
    }

    fn notify(&mut self, message: &Words) {
        let _ = message;
    }

    fn mode(&self) -> u32 {
        self.mode
    }

    ghost lawful = { switch_lawful };

    ghost valued = { λ knob. switch_valued knob.value knob.light knob.within knob.light_within };

    ghost moded = { λ knob. knob.two };
}

/// A set of this one class.
#[derive(Drop)]
pub struct Switches {
    classes: Classes,
    made: u64,
    ended: u64,
    work: u64,
    ghost one: { IsOf switch (classes_of classes) },
}

impl PluginSet for Switches {
    ghost use Rattle.std.specs.Prelude.{ℕ};
    ghost use Rattle.vh_counted.specs.Held.{value_of_ended};
    ghost use Rattle.vh_plugin.specs.Counts.{raised, raised_by};
    ghost use Rattle.vh_plugin.specs.ListLaws.{one_class_agrees};

    type P = Switch;

    type C = Knob;

    ghost infos = { λ set. classes_of set.classes };

    ghost code = { λ set class. switch_code class };

    ghost made = { λ set. set.made };

    ghost ended = { λ set. set.ended };

    ghost work = { λ set. set.work };

    fn classes(&self) -> &Classes {
        &self.classes
    }

    fn create_component(&mut self, alloc: Global, class: u32) -> Result<Switch, AllocError> {
        let _ = alloc;
        let _ = class;
        self.made = self.made.saturating_add(1);
        Ok(Switch {
            phase: Phase::Created,
            setup: Setup {
                channels: 1,
                max: 1,
            },
            value: 0,
            light: 0,
            counter: Counter { seen: 0 },
            calls: 0,
        })
    }

    fn create_controller(&mut self, alloc: Global, class: u32) -> Result<Knob, AllocError> {
        let _ = alloc;
        let _ = class;
        self.made = self.made.saturating_add(1);
        Ok(Knob {
            value: 0,
            light: 0,
            mode: 0,
        })
    }

    fn end_component(&mut self, object: Ended<Switch>)
        ensures ended { self.new.ended ≡ raised self.old.ended }
        ensures work { self.new.work ≡ raised_by (value_of_ended object).calls self.old.work }
        ensures made { self.new.made ≡ self.old.made }
        ensures infos { classes_of self.new.classes ≡ classes_of self.old.classes }
        ensures codes { (class : ℕ) → switch_code class ≡ switch_code class }
    {
        self.work = self.work.saturating_add(object.value().calls());
        self.ended = self.ended.saturating_add(1);
        object.finish();
    }

    fn end_controller(&mut self, object: Ended<Knob>)
        ensures ended { self.new.ended ≡ raised self.old.ended }
        ensures work { self.new.work ≡ self.old.work }
        ensures made { self.new.made ≡ self.old.made }
        ensures infos { classes_of self.new.classes ≡ classes_of self.old.classes }
        ensures codes { (class : ℕ) → switch_code class ≡ switch_code class }
    {
        self.ended = self.ended.saturating_add(1);
        object.finish();
    }

    fn made(&self) -> u64 {
        self.made
    }

    fn ended(&self) -> u64 {
        self.ended
    }

    fn work(&self) -> u64 {
        self.work
    }

    ghost components = { λ set. set.one };

    ghost controllers = { λ set. set.one };

    ghost agreeing = { λ set class within. one_class_agrees (λ code. switch) (switch_code class) };
}

/// A set of the switch's class under this name.
pub fn set_of_switches(alloc: Global, name: &[u8]) -> Result<Switches, AllocError>
    requires { length name.now ≤ 32 }
    ensures { IfOk result (λ set. HasName (classes_of set.classes) name.now) }
{
    let side = ParamInfo {
        id: 3,
        title: Label::new(b"Side"),
        units: Label::new(b""),
        steps: 0,
        first: 0,
        unit: 0,
        flags: 1,
    };
    let lamp = ParamInfo {
        id: 4,
        title: Label::new(b"Lamp"),
        flags: 2,
        ..side
    };
    Ok(Switches {
        classes: one_class(alloc, name, &[side, lamp], true, Tuid([1; 16]))?,
        made: 0,
        ended: 0,
        work: 0,
    })
}
