//! An object of one of two types.

use crate::controller::Controller;
use crate::processor::Processor;
use std::alloc::{AllocError, Global};
use vh_component::{Life, Setup};
use vh_ids::Tuid;
use vh_params::Words;
use vh_points::Points;

/// A processor or a controller of the first of two sets, or of the second.
#[derive(Drop)]
pub enum OneOf<A, B> {
    First(A),
    Second(B),
}

impl<A: Life, B: Life> Life for OneOf<A, B> {
    ghost use Rattle.vh_plugin.specs.declared.one_of.OneOf.{OneOf as Either};
    ghost use Rattle.vh_plugin.specs.Pairs.{either, each};

    ghost phase = { either A.phase B.phase };

    ghost last_setup = { either A.last_setup B.last_setup };

    ghost Rest = { Either A.Rest B.Rest };

    ghost rest = { each A.rest B.rest };

    fn initialize(&mut self) {
        match self {
            OneOf::First(a) => a.initialize(),
            OneOf::Second(b) => b.initialize(),
        }
    }

    fn set_up(&mut self, setup: &Setup) {
        match self {
            OneOf::First(a) => a.set_up(setup),
            OneOf::Second(b) => b.set_up(setup),
        }
    }

    fn set_active(&mut self, on: bool) {
        match self {
            OneOf::First(a) => a.set_active(on),
            OneOf::Second(b) => b.set_active(on),
        }
    }

    fn set_processing(&mut self, on: bool) {
        match self {
            OneOf::First(a) => a.set_processing(on),
            OneOf::Second(b) => b.set_processing(on),
        }
    }

    fn terminate(&mut self) {
        match self {
            OneOf::First(a) => a.terminate(),
            OneOf::Second(b) => b.terminate(),
        }
    }
}

impl<A: Processor, B: Processor> Processor for OneOf<A, B> {
    ghost use Rattle.vh_plugin.specs.Pairs.{either, both_classes, both_codes};
    ghost use Rattle.vh_plugin.specs.PairLaws.{both_lawful, both_valued, both_keep, both_keep_code};

    ghost class_of = { both_classes A.class_of B.class_of };

    ghost code = { both_codes A.code B.code };

    ghost values = { either A.values B.values };

    ghost state = { either A.state B.state };

    ghost calls = { either A.calls B.calls };

    fn process(&mut self, n: usize, points: &Points, main: &[i32], aux: &[i32], out: &mut [i32]) {
        match self {
            OneOf::First(a) => a.process(n, points, main, aux, out),
            OneOf::Second(b) => b.process(n, points, main, aux, out),
        }
    }

    fn notify(&mut self, given: &[u32], message: &Words) -> Words {
        match self {
            OneOf::First(a) => a.notify(given, message),
            OneOf::Second(b) => b.notify(given, message),
        }
    }

    fn shown(&self, id: u32) -> u32 {
        match self {
            OneOf::First(a) => a.shown(id),
            OneOf::Second(b) => b.shown(id),
        }
    }

    fn set_state(&mut self, bytes: &[u8]) -> bool {
        match self {
            OneOf::First(a) => a.set_state(bytes),
            OneOf::Second(b) => b.set_state(bytes),
        }
    }

    fn state(&self, alloc: Global) -> Result<Vec<u8>, AllocError> {
        match self {
            OneOf::First(a) => a.state(alloc),
            OneOf::Second(b) => b.state(alloc),
        }
    }

    fn set_first(&mut self, given: &[u32]) {
        match self {
            OneOf::First(a) => a.set_first(given),
            OneOf::Second(b) => b.set_first(given),
        }
    }

    fn controller_class(&self) -> Tuid {
        match self {
            OneOf::First(a) => a.controller_class(),
            OneOf::Second(b) => b.controller_class(),
        }
    }

    fn calls(&self) -> u64 {
        match self {
            OneOf::First(a) => a.calls(),
            OneOf::Second(b) => b.calls(),
        }
    }

    ghost lawful = { both_lawful A.class_of B.class_of A.lawful B.lawful };

    ghost valued = { both_valued A.class_of B.class_of A.code B.code A.values B.values A.valued B.valued };

    ghost keeps_code = { both_keep_code A.rest B.rest A.code B.code A.keeps_code B.keeps_code };

    ghost keeps_values = { both_keep A.rest B.rest A.values B.values A.keeps_values B.keeps_values };

    ghost keeps_state = { both_keep A.rest B.rest A.state B.state A.keeps_state B.keeps_state };

    ghost keeps_calls = { both_keep A.rest B.rest A.calls B.calls A.keeps_calls B.keeps_calls };
}

impl<A: Controller, B: Controller> Controller for OneOf<A, B> {
    ghost use Rattle.vh_plugin.specs.Pairs.{either, both_classes, both_codes};
    ghost use Rattle.vh_plugin.specs.PairLaws.{both_lawful, both_valued, both_moded};

    ghost class_of = { both_classes A.class_of B.class_of };

    ghost code = { both_codes A.code B.code };

    ghost values = { either A.values B.values };

    ghost mode = { either A.mode B.mode };

    fn set_component_state(&mut self, bytes: &[u8]) -> bool {
        match self {
            OneOf::First(a) => a.set_component_state(bytes),
            OneOf::Second(b) => b.set_component_state(bytes),
        }
    }

    fn set_state(&mut self, bytes: &[u8]) -> bool {
        match self {
            OneOf::First(a) => a.set_state(bytes),
            OneOf::Second(b) => b.set_state(bytes),
        }
    }

    fn state(&self, alloc: Global) -> Result<Vec<u8>, AllocError> {
        match self {
            OneOf::First(a) => a.state(alloc),
            OneOf::Second(b) => b.state(alloc),
        }
    }

    fn set_normalized(&mut self, id: u32, value: u32) {
        match self {
            OneOf::First(a) => a.set_normalized(id, value),
            OneOf::Second(b) => b.set_normalized(id, value),
        }
    }

    fn normalized(&self, id: u32) -> u32 {
        match self {
            OneOf::First(a) => a.normalized(id),
            OneOf::Second(b) => b.normalized(id),
        }
    }

    fn notify(&mut self, message: &Words) {
        match self {
            OneOf::First(a) => a.notify(message),
            OneOf::Second(b) => b.notify(message),
        }
    }

    fn mode(&self) -> u32 {
        match self {
            OneOf::First(a) => a.mode(),
            OneOf::Second(b) => b.mode(),
        }
    }

    ghost lawful = { both_lawful A.class_of B.class_of A.lawful B.lawful };

    ghost valued = { both_valued A.class_of B.class_of A.code B.code A.values B.values A.valued B.valued };

    ghost moded = { both_moded A.mode B.mode A.moded B.moded };
}
