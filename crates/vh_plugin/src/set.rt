//! Sets of plug-ins.

ghost use Rattle.std.specs.Prelude.{◌≡◌, ◌<◌, ◌↔◌, ℕ, List, length, slice_index_or, IfOk, OnOk, OnErr};
ghost use Rattle.vh_component.specs.declared.setup.Phase.TheVariants.{Created};
ghost use Rattle.vh_counted.specs.Held.{value_of_ended};
ghost use Rattle.vh_params.specs.declared.class.ClassInfo.{ClassInfo as Info};
ghost use Rattle.vh_params.specs.ClassList.{classes_of};
ghost use Rattle.vh_plugin.specs.Class.{firsts_of};
ghost use Rattle.vh_plugin.specs.Counts.{raised, raised_by};
ghost use Rattle.vh_plugin.specs.Sets.{IsClassOf, AgreeOnBytes};

use crate::controller::Controller;
use crate::processor::Processor;
use std::alloc::{AllocError, Global};
use vh_counted::Ended;
use vh_params::Classes;

/// A set of plug-in classes, which makes their objects and ends them. No call changes its classes or codes.
/// Its counts stay at their last value.
pub trait PluginSet {
    type P: Processor + Drop + Send + Sync;

    type C: Controller + Drop + Send + Sync;

    /// What it says of its classes.
    ghost infos: { Self → List Info };

    /// The code of each of its classes, by number.
    ghost code: { Self → ℕ → ℕ };

    /// How many objects it made, and how many it ended.
    ghost made: { Self → ℕ };

    ghost ended: { Self → ℕ };

    /// How often the components that it ended were called to process, together.
    ghost work: { Self → ℕ };

    fn classes(&self) -> &Classes
        ensures { classes_of result.now ≡ infos self.now };

    /// Makes a component of the class of this number: at its defaults, in its first state, created and not
    /// initialized.
    fn create_component(&mut self, alloc: Global, class: u32) -> Result<Self::P, AllocError>
        requires { class < length (infos self.old) }
        ensures code { IfOk result (λ made. Self.P.Processor.code made ≡ code self.old class) }
        ensures values { IfOk result (λ made. Self.P.Processor.values made ≡ firsts_of (Self.P.Processor.class_of (code self.old class)).params) }
        ensures state { IfOk result (λ made. Self.P.Processor.state made ≡ (Self.P.Processor.class_of (code self.old class)).start) }
        ensures phase { IfOk result (λ made. Self.P.Life.phase made ≡ Created) }
        ensures calls { IfOk result (λ made. Self.P.Processor.calls made ≡ 0) }
        ensures made { OnOk result (made self.new ≡ raised (made self.old)) }
        ensures unmade { OnErr result (made self.new ≡ made self.old) }
        ensures ended { ended self.new ≡ ended self.old }
        ensures work { work self.new ≡ work self.old }
        ensures infos { infos self.new ≡ infos self.old }
        ensures codes { (class : ℕ) → code self.new class ≡ code self.old class };

    /// Makes a controller of the class of this number: at its defaults, with mode 0.
    fn create_controller(&mut self, alloc: Global, class: u32) -> Result<Self::C, AllocError>
        requires { class < length (infos self.old) }
        ensures code { IfOk result (λ made. Self.C.Controller.code made ≡ code self.old class) }
        ensures values { IfOk result (λ made. Self.C.Controller.values made ≡ firsts_of (Self.C.Controller.class_of (code self.old class)).params) }
        ensures mode { IfOk result (λ made. Self.C.Controller.mode made ≡ 0) }
        ensures made { OnOk result (made self.new ≡ raised (made self.old)) }
        ensures unmade { OnErr result (made self.new ≡ made self.old) }
        ensures ended { ended self.new ≡ ended self.old }
        ensures work { work self.new ≡ work self.old }
        ensures infos { infos self.new ≡ infos self.old }
        ensures codes { (class : ℕ) → code self.new class ≡ code self.old class };

    /// Ends a component.
    fn end_component(&mut self, object: Ended<Self::P>)
        ensures ended { ended self.new ≡ raised (ended self.old) }
        ensures work { work self.new ≡ raised_by (Self.P.Processor.calls (value_of_ended object)) (work self.old) }
        ensures made { made self.new ≡ made self.old }
        ensures infos { infos self.new ≡ infos self.old }
        ensures codes { (class : ℕ) → code self.new class ≡ code self.old class };

    /// Ends a controller.
    fn end_controller(&mut self, object: Ended<Self::C>)
        ensures ended { ended self.new ≡ raised (ended self.old) }
        ensures work { work self.new ≡ work self.old }
        ensures made { made self.new ≡ made self.old }
        ensures infos { infos self.new ≡ infos self.old }
        ensures codes { (class : ℕ) → code self.new class ≡ code self.old class };

    /// How many objects it made.
    fn made(&self) -> u64
        ensures { result ≡ made self.now };

    /// How many objects it ended.
    fn ended(&self) -> u64
        ensures { result ≡ ended self.now };

    /// How often the components that it ended were called to process, together.
    fn work(&self) -> u64
        ensures { result ≡ work self.now };

    /// Its processors and its controllers are of the classes that it tells of.
    ghost components: { (s : Self) (class : ℕ) (d : Info) → class < length (infos s) → IsClassOf (Self.P.Processor.class_of (code s class)) (slice_index_or (infos s) class d) };

    ghost controllers: { (s : Self) (class : ℕ) (d : Info) → class < length (infos s) → IsClassOf (Self.C.Controller.class_of (code s class)) (slice_index_or (infos s) class d) };

    /// A class's processors and controllers take the same values from the same state bytes.
    ghost agreeing: { (s : Self) (class : ℕ) → class < length (infos s) → AgreeOnBytes (Self.P.Processor.class_of (code s class)) (Self.C.Controller.class_of (code s class)) };
}
