//! Controllers.

ghost use Rattle.std.specs.Prelude.{◌≡◌, ◌≤◌, ℕ, List, IfOk, true};
ghost use Rattle.vh_plugin.specs.Class.{Class, IsLawful, AreValues, IsSet};
ghost use Rattle.vh_plugin.specs.Controls.{has_id, value_in, normalized_to, mode_text, IsModeSet};

use std::alloc::{AllocError, Global};
use vh_params::Words;

/// A controller: the SDK's `IEditController`, and the controller's end of its `IConnectionPoint`. No call
/// changes its class.
pub trait Controller {
    /// What the classes of this type mean, by their codes: a controller has the code of its component's class.
    ghost class_of: { ℕ → Class };

    /// The code of its class.
    ghost code: { Self → ℕ };

    /// One value for each parameter, by rising id.
    ghost values: { Self → List ℕ };

    /// How it shows them, 0 or 1.
    ghost mode: { Self → ℕ };

    /// Gives the writable parameters the values that a component's state holds. The answer is false, and
    /// nothing changes, exactly where it holds none.
    fn set_component_state(&mut self, bytes: &[u8]) -> bool
        ensures values { IsSet (class_of (code self.old)) bytes.now (values self.old) (values self.new) result }
        ensures mode { mode self.new ≡ mode self.old }
        ensures code { code self.new ≡ code self.old };

    /// Takes the mode that a controller's state holds. The answer is false, and nothing changes, exactly where
    /// it holds none.
    fn set_state(&mut self, bytes: &[u8]) -> bool
        ensures mode { IsModeSet bytes.now (mode self.old) (mode self.new) result }
        ensures values { values self.new ≡ values self.old }
        ensures code { code self.new ≡ code self.old };

    /// The bytes that hold its mode.
    fn state(&self, alloc: Global) -> Result<Vec<u8>, AllocError>
        ensures { IfOk result (λ bytes. bytes.items ≡ mode_text (mode self.now)) };

    /// Gives a parameter a normalised value. Where no parameter has the id, or the value is above 1.0,
    /// nothing changes.
    fn set_normalized(&mut self, id: u32, value: u32)
        ensures values { values self.new ≡ normalized_to (class_of (code self.old)).params (values self.old) id value }
        ensures mode { mode self.new ≡ mode self.old }
        ensures code { code self.new ≡ code self.old };

    /// The normalised value of a parameter.
    fn normalized(&self, id: u32) -> u32
        requires { has_id (class_of (code self.now)).params id ≡ true }
        ensures { result ≡ value_in (class_of (code self.now)).params (values self.now) id };

    /// Takes a message.
    fn notify(&mut self, message: &Words)
        ensures values { values self.new ≡ values self.old }
        ensures mode { mode self.new ≡ mode self.old }
        ensures code { code self.new ≡ code self.old };

    /// How it shows the values, 0 or 1.
    fn mode(&self) -> u32
        ensures { result ≡ mode self.now };

    /// Each code's class keeps to the rules of classes.
    ghost lawful: { (code : ℕ) → IsLawful (class_of code) };

    /// It has one value for each parameter, none above 1.0.
    ghost valued: { (x : Self) → AreValues (class_of (code x)).params (values x) };

    /// Its mode is 0 or 1.
    ghost moded: { (x : Self) → mode x ≤ 1 };
}
