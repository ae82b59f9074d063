//! Components of the built-in classes.

ghost use Rattle.std.specs.Prelude.{◌≡◌, length, IfOk};
ghost use Rattle.vh_component.specs.declared.setup.Phase.TheVariants.{Created};
ghost use Rattle.vh_plugin.specs.Class.{AreValues, firsts_of, IsSet};
ghost use Rattle.vh_builtin.specs.Builtins.{builtin};
ghost use Rattle.vh_builtin.specs.Kinds.{kind_number};
ghost use Rattle.vh_builtin.specs.Sounds.{sound_number, sound_state};

use crate::bytes::{take_held, text_of};
use crate::kind::Kind;
use crate::sound::Sound;
use std::alloc::{AllocError, Global};
use vh_component::{Life, Phase, Setup};
use vh_ids::Tuid;
use vh_num::ONE;
use vh_params::Words;
use vh_plugin::Processor;
use vh_points::Points;

/// The defaults of a kind's parameters.
pub fn defaults(alloc: Global, kind: Kind) -> Result<Vec<u32>, AllocError>
    ensures { IfOk result (λ values. values.items ≡ firsts_of (builtin (kind_number kind)).params) }
{
    match kind {
        Kind::Gain => Vec::from_slice(alloc, &[ONE / 2, 0]),
        Kind::Balance => Vec::from_slice(alloc, &[ONE / 2]),
        Kind::Delay => Vec::from_slice(alloc, &[0, ONE / 2, 0]),
        Kind::OnePole => Vec::from_slice(alloc, &[ONE]),
        Kind::Crusher => Vec::from_slice(alloc, &[ONE, 0]),
        Kind::Gate => Vec::from_slice(alloc, &[0, 0, 0]),
        Kind::Meter => Vec::from_slice(alloc, &[0, 0]),
        Kind::Tap => Vec::from_slice(alloc, &[0]),
    }
}

/// Gives a kind's writable parameters the values that bytes hold. The answer is false, and nothing changes,
/// where they hold none.
pub fn set_values(kind: Kind, bytes: &[u8], values: &mut [u32]) -> bool
    requires { AreValues (builtin (kind_number kind)).params values.old }
    ensures set { IsSet (builtin (kind_number kind)) bytes.now values.old values.new result }
    ensures valued { AreValues (builtin (kind_number kind)).params values.new }
{
    take_held(kind.writable(), bytes, values)
}

/// The bytes that hold the values of a kind's writable parameters.
#[tactic(auto, using(crate::specs::Held::text_is))]
fn bytes_of(alloc: Global, kind: Kind, values: &[u32]) -> Result<Vec<u8>, AllocError>
    requires { AreValues (builtin (kind_number kind)).params values.now }
    ensures { IfOk result (λ bytes. bytes.items ≡ (builtin (kind_number kind)).state_text values.now) }
{
    text_of(alloc, kind.writable(), values)
}

/// A component of one of the built-in classes.
#[derive(Drop)]
pub struct Component {
    phase: Phase,
    setup: Setup,
    sound: Sound,
    values: Vec<u32>,
    calls: u64,
    ghost valued: { AreValues (builtin (sound_number sound)).params values.items },
}

impl Component {
    /// A component of this kind, at its defaults.
    pub fn new(alloc: Global, kind: Kind) -> Result<Component, AllocError>
        ensures kind { IfOk result (λ made. sound_number made.sound ≡ kind_number kind) }
        ensures state { IfOk result (λ made. sound_state made.sound ≡ (builtin (kind_number kind)).start) }
        ensures values { IfOk result (λ made. made.values.items ≡ firsts_of (builtin (kind_number kind)).params) }
        ensures phase { IfOk result (λ made. made.phase ≡ Created) }
        ensures calls { IfOk result (λ made. made.calls ≡ 0) }
    {
        Ok(Component {
            phase: Phase::Created,
            setup: Setup {
                channels: 1,
                max: 1,
            },
            sound: Sound::new(alloc, kind)?,
            values: defaults(alloc, kind)?,
            calls: 0,
        })
    }
}

impl Life for Component {
    ghost use Rattle.std.specs.Prelude.{ℕ, ℤ, List};

    ghost phase = { λ it. it.phase };

    ghost last_setup = { λ it. it.setup };

    ghost Rest = { ℕ × List ℤ × List ℕ × ℕ };

    ghost rest = { λ it. (sound_number it.sound, sound_state it.sound, it.values.items, it.calls) };

    fn initialize(&mut self) {
        self.phase = Phase::Initialized;
    }

    fn set_up(&mut self, setup: &Setup) {
        self.phase = Phase::Ready;
        self.setup = *setup;
    }

    fn set_active(&mut self, on: bool) {
        self.phase = if on { Phase::Active } else { Phase::Ready };
    }

    fn set_processing(&mut self, on: bool) {
        self.phase = if on { Phase::Processing } else { Phase::Active };
    }

    fn terminate(&mut self) {
        self.phase = Phase::Created;
    }
}

impl Processor for Component {
    ghost use Rattle.vh_builtin.specs.Lawful.{builtin_lawful};
    ghost use Rattle.vh_builtin.specs.Rests.{same_number, same_state, same_values, same_calls};

    ghost class_of = { builtin };

    ghost code = { λ it. sound_number it.sound };

    ghost values = { λ it. it.values.items };

    ghost state = { λ it. sound_state it.sound };

    ghost calls = { λ it. it.calls };

    fn process(&mut self, n: usize, points: &Points, main: &[i32], aux: &[i32], out: &mut [i32]) {
        let channels = self.setup.channels;
        self.sound
            .play(&mut self.values, points, channels, n, main, aux, out);
        self.calls = self.calls.saturating_add(1);
    }

    fn notify(&mut self, given: &[u32], message: &Words) -> Words {
        self.sound.notify(given, message)
    }

    fn shown(&self, id: u32) -> u32 {
        self.sound.shown(id)
    }

    fn set_state(&mut self, bytes: &[u8]) -> bool {
        set_values(self.sound.kind(), bytes, &mut self.values)
    }

    fn state(&self, alloc: Global) -> Result<Vec<u8>, AllocError> {
        bytes_of(alloc, self.sound.kind(), &self.values)
    }

    fn set_first(&mut self, given: &[u32]) {
        self.values.copy_from_slice(given);
    }

    fn controller_class(&self) -> Tuid {
        self.sound.kind().controller()
    }

    fn calls(&self) -> u64 {
        self.calls
    }

    ghost lawful = { builtin_lawful };

    ghost valued = { λ it. it.valued };

    ghost keeps_code = { λ x y same. same_number (sound_number x.sound, sound_state x.sound, x.values.items, x.calls) (sound_number y.sound, sound_state y.sound, y.values.items, y.calls) same };

    ghost keeps_values = { λ x y same. same_values (sound_number x.sound, sound_state x.sound, x.values.items, x.calls) (sound_number y.sound, sound_state y.sound, y.values.items, y.calls) same };

    ghost keeps_state = { λ x y same. same_state (sound_number x.sound, sound_state x.sound, x.values.items, x.calls) (sound_number y.sound, sound_state y.sound, y.values.items, y.calls) same };

    ghost keeps_calls = { λ x y same. same_calls (sound_number x.sound, sound_state x.sound, x.values.items, x.calls) (sound_number y.sound, sound_state y.sound, y.values.items, y.calls) same };
}
