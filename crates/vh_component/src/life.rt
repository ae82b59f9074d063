//! The calls of a component's life.

ghost use Rattle.std.specs.Prelude.{◌≡◌, if◌then◌else◌};
ghost use Rattle.vh_component.specs.declared.setup.Phase.{Phase};
ghost use Rattle.vh_component.specs.declared.setup.Phase.TheVariants.{Created, Initialized, Ready, Active, Processing};
ghost use Rattle.vh_component.specs.declared.setup.Setup.{Setup as Settings};

use crate::setup::Setup;

/// What a component goes through, as the SDK's `IPluginBase`, `IComponent` and `IAudioProcessor` order it.
/// No other call changes its phase.
pub trait Life {
    /// Where it stands.
    ghost phase: { Self → Phase };

    /// The setup of the last `set_up`. Before the first it is the implementation's own.
    ghost last_setup: { Self → Settings };

    /// What all else means that is meant by it.
    ghost Rest: { Type 0 };

    /// All else that is meant by it, which none of these calls changes.
    ghost rest: { Self → Rest };

    fn initialize(&mut self)
        requires { phase self.old ≡ Created }
        ensures phase { phase self.new ≡ Initialized }
        ensures setup { last_setup self.new ≡ last_setup self.old }
        ensures rest { rest self.new ≡ rest self.old };

    fn set_up(&mut self, setup: &Setup)
        requires { phase self.old ≡ Initialized }
        ensures phase { phase self.new ≡ Ready }
        ensures setup { last_setup self.new ≡ setup.now }
        ensures rest { rest self.new ≡ rest self.old };

    fn set_active(&mut self, on: bool)
        requires { phase self.old ≡ (if on then Ready else Active) }
        ensures phase { phase self.new ≡ (if on then Active else Ready) }
        ensures setup { last_setup self.new ≡ last_setup self.old }
        ensures rest { rest self.new ≡ rest self.old };

    fn set_processing(&mut self, on: bool)
        requires { phase self.old ≡ (if on then Active else Processing) }
        ensures phase { phase self.new ≡ (if on then Processing else Active) }
        ensures setup { last_setup self.new ≡ last_setup self.old }
        ensures rest { rest self.new ≡ rest self.old };

    fn terminate(&mut self)
        requires { phase self.old ≡ Ready }
        ensures phase { phase self.new ≡ Created }
        ensures setup { last_setup self.new ≡ last_setup self.old }
        ensures rest { rest self.new ≡ rest self.old };
}
