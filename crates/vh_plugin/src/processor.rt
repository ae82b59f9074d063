//! Processors.

ghost use Rattle.std.specs.Prelude.{◌≡◌, ◌≤◌, ◌*◌, ◌^◌, ℕ, ℤ, List, length, IfOk, true};
ghost use Rattle.vh_component.specs.declared.setup.Phase.TheVariants.{Processing};
ghost use Rattle.vh_ids.specs.declared.tuid.Tuid.{Tuid as Identifier};
ghost use Rattle.vh_params.specs.Short.{words_in};
ghost use Rattle.vh_points.specs.Model.{queues_of};
ghost use Rattle.vh_plugin.specs.Class.{Class, IsLawful, AreValues, has_shown, IsSet};
ghost use Rattle.vh_plugin.specs.Blocks.{block_of, IsOutput, AreAux, AreFor, state_in, values_behind};
ghost use Rattle.vh_plugin.specs.Counts.{raised};

use std::alloc::{AllocError, Global};
use vh_component::Life;
use vh_ids::Tuid;
use vh_params::Words;
use vh_points::Points;

/// A processor: the SDK's `IComponent` and `IAudioProcessor`, and the component's end of its
/// `IConnectionPoint`. No call changes its class.
pub trait Processor: Life {
    /// What the classes of this type mean, by their codes.
    ghost class_of: { ℕ → Class };

    /// The code of its class.
    ghost code: { Self → ℕ };

    /// One value for each parameter, by rising id.
    ghost values: { Self → List ℕ };

    /// What it keeps between samples.
    ghost state: { Self → List ℤ };

    /// How often `process` was called.
    ghost calls: { Self → ℕ };

    /// Processes `n` samples of each channel. Samples stand channel after channel; `aux` is empty where there
    /// is no aux frame. A point counts from its offset on; where there are no samples, all points count
    /// behind the call.
    fn process(&mut self, n: usize, points: &Points, main: &[i32], aux: &[i32], out: &mut [i32])
        requires processing { Self.phase self.old ≡ Processing }
        requires most { n ≤ (Self.last_setup self.old).max }
        requires main { length main.now ≡ (Self.last_setup self.old).channels * n }
        requires aux { AreAux (class_of (code self.old)) (Self.last_setup self.old).channels n aux.now }
        requires out { length out.old ≡ (Self.last_setup self.old).channels * n }
        requires points { AreFor (class_of (code self.old)) n (queues_of points.now) }
        ensures out { IsOutput (class_of (code self.old)) (state self.old) (block_of (Self.last_setup self.old).channels n (queues_of points.now) (values self.old) main.now aux.now) out.new }
        ensures state { state self.new ≡ state_in (class_of (code self.old)) (state self.old) (block_of (Self.last_setup self.old).channels n (queues_of points.now) (values self.old) main.now aux.now) n }
        ensures values { values self.new ≡ values_behind (class_of (code self.old)).params (queues_of points.now) (values self.old) }
        ensures calls { calls self.new ≡ raised (calls self.old) }
        ensures code { code self.new ≡ code self.old }
        ensures phase { Self.phase self.new ≡ Self.phase self.old }
        ensures setup { Self.last_setup self.new ≡ Self.last_setup self.old };

    /// Takes a message, handed one value for each parameter, and answers it.
    fn notify(&mut self, given: &[u32], message: &Words) -> Words
        requires { AreValues (class_of (code self.old)).params given.now }
        ensures reply { words_in result ≡ (class_of (code self.old)).reply (state self.old) given.now (words_in message.now) }
        ensures state { state self.new ≡ (class_of (code self.old)).told (state self.old) given.now (words_in message.now) }
        ensures values { values self.new ≡ values self.old }
        ensures calls { calls self.new ≡ calls self.old }
        ensures code { code self.new ≡ code self.old }
        ensures phase { Self.phase self.new ≡ Self.phase self.old }
        ensures setup { Self.last_setup self.new ≡ Self.last_setup self.old };

    /// The value, at most 1.0, that a read-only parameter shows.
    fn shown(&self, id: u32) -> u32
        requires { has_shown (class_of (code self.now)).params id ≡ true }
        ensures value { result ≡ (class_of (code self.now)).shown (state self.now) id }
        ensures within { result ≤ 2 ^ 24 };

    /// Gives the writable parameters the values that these bytes hold. The answer is false, and nothing
    /// changes, exactly where they hold none.
    fn set_state(&mut self, bytes: &[u8]) -> bool
        ensures values { IsSet (class_of (code self.old)) bytes.now (values self.old) (values self.new) result }
        ensures state { state self.new ≡ state self.old }
        ensures calls { calls self.new ≡ calls self.old }
        ensures code { code self.new ≡ code self.old }
        ensures phase { Self.phase self.new ≡ Self.phase self.old }
        ensures setup { Self.last_setup self.new ≡ Self.last_setup self.old };

    /// The bytes that hold its values.
    fn state(&self, alloc: Global) -> Result<Vec<u8>, AllocError>
        ensures { IfOk result (λ bytes. bytes.items ≡ (class_of (code self.now)).state_text (values self.now)) };

    /// Makes its values these, one for each parameter.
    fn set_first(&mut self, given: &[u32])
        requires { AreValues (class_of (code self.old)).params given.now }
        ensures values { values self.new ≡ given.now }
        ensures state { state self.new ≡ state self.old }
        ensures calls { calls self.new ≡ calls self.old }
        ensures code { code self.new ≡ code self.old }
        ensures phase { Self.phase self.new ≡ Self.phase self.old }
        ensures setup { Self.last_setup self.new ≡ Self.last_setup self.old };

    /// The identifier of its controllers' class.
    fn controller_class(&self) -> Tuid
        ensures { result.0 ≡ (class_of (code self.now)).partner };

    /// How often `process` was called; the count stays at its last value.
    fn calls(&self) -> u64
        ensures { result ≡ calls self.now };

    /// Each code's class keeps to the rules of classes.
    ghost lawful: { (code : ℕ) → IsLawful (class_of code) };

    /// It has one value for each parameter, none above 1.0.
    ghost valued: { (x : Self) → AreValues (class_of (code x)).params (values x) };

    /// What no step of a life changes.
    ghost keeps_code: { (x y : Self) → Self.rest x ≡ Self.rest y → code x ≡ code y };

    ghost keeps_values: { (x y : Self) → Self.rest x ≡ Self.rest y → values x ≡ values y };

    ghost keeps_state: { (x y : Self) → Self.rest x ≡ Self.rest y → state x ≡ state y };

    ghost keeps_calls: { (x y : Self) → Self.rest x ≡ Self.rest y → calls x ≡ calls y };
}
