//! What a component of each class keeps between samples, and does with them.

ghost use Rattle.std.specs.Prelude.{◌≡◌, ◌≤◌, ◌*◌, ◌^◌, ◌⊎◌, ℕ, List, length, IfOk, true};
ghost use Rattle.vh_params.specs.Short.{words_in};
ghost use Rattle.vh_points.specs.Model.{queues_of};
ghost use Rattle.vh_plugin.specs.Class.{AreValues, has_shown};
ghost use Rattle.vh_plugin.specs.Blocks.{block_of, state_in, values_behind, IsOutput, AreAux};
ghost use Rattle.vh_builtin.specs.Builtins.{builtin};
ghost use Rattle.vh_builtin.specs.Kinds.{kind_number};

use crate::balance::Balance;
use crate::crusher::Crusher;
use crate::delay::Delay;
use crate::gain::Gain;
use crate::gate::Gate;
use crate::kind::Kind;
use crate::meter::Meter;
use crate::onepole::OnePole;
use crate::tap::Tap;
use std::alloc::{AllocError, Global};
use vh_params::Words;
use vh_plugin::play;
use vh_points::Points;

/// One of the eight.
#[derive(Drop)]
pub enum Sound {
    Gain(Gain),
    Balance(Balance),
    Delay(Delay),
    OnePole(OnePole),
    Crusher(Crusher),
    Gate(Gate),
    Meter(Meter),
    Tap(Tap),
}

impl Sound {
    ghost use Rattle.vh_builtin.specs.Sounds.{sound_number, sound_state};

    /// A sound of this kind, as it is at first.
    pub fn new(alloc: Global, kind: Kind) -> Result<Sound, AllocError>
        ensures kind { IfOk result (λ made. sound_number made ≡ kind_number kind) }
        ensures state { IfOk result (λ made. sound_state made ≡ (builtin (kind_number kind)).start) }
    {
        Ok(match kind {
            Kind::Gain => Sound::Gain(Gain {}),
            Kind::Balance => Sound::Balance(Balance {}),
            Kind::Delay => Sound::Delay(Delay::new(alloc)?),
            Kind::OnePole => Sound::OnePole(OnePole::new()),
            Kind::Crusher => Sound::Crusher(Crusher::new()),
            Kind::Gate => Sound::Gate(Gate::new()),
            Kind::Meter => Sound::Meter(Meter::new()),
            Kind::Tap => Sound::Tap(Tap::new()),
        })
    }

    /// Its kind.
    pub fn kind(&self) -> Kind
        ensures { kind_number result ≡ sound_number self.now }
    {
        match self {
            Sound::Gain(_) => Kind::Gain,
            Sound::Balance(_) => Kind::Balance,
            Sound::Delay(_) => Kind::Delay,
            Sound::OnePole(_) => Kind::OnePole,
            Sound::Crusher(_) => Kind::Crusher,
            Sound::Gate(_) => Kind::Gate,
            Sound::Meter(_) => Kind::Meter,
            Sound::Tap(_) => Kind::Tap,
        }
    }

    /// Plays a block. Samples stand channel after channel; `aux` is empty where there is no aux frame.
    pub fn play(
        &mut self,
        values: &mut [u32],
        points: &Points,
        channels: u16,
        n: usize,
        main: &[i32],
        aux: &[i32],
        out: &mut [i32],
    )
        requires values { AreValues (builtin (sound_number self.old)).params values.old }
        requires channels { (channels ≡ 1) ⊎ (channels ≡ 2) }
        requires main { length main.now ≡ channels * n }
        requires aux { AreAux (builtin (sound_number self.old)) channels n aux.now }
        requires out { length out.old ≡ channels * n }
        ensures out { IsOutput (builtin (sound_number self.old)) (sound_state self.old) (block_of channels n (queues_of points.now) values.old main.now aux.now) out.new }
        ensures state { sound_state self.new ≡ state_in (builtin (sound_number self.old)) (sound_state self.old) (block_of channels n (queues_of points.now) values.old main.now aux.now) n }
        ensures values { values.new ≡ values_behind (builtin (sound_number self.old)).params (queues_of points.now) values.old }
        ensures valued { AreValues (builtin (sound_number self.old)).params values.new }
        ensures kind { sound_number self.new ≡ sound_number self.old }
    {
        let ids = self.kind().ids();
        match self {
            Sound::Gain(it) => play(it, ids, values, points, channels, n, main, aux, out),
            Sound::Balance(it) => play(it, ids, values, points, channels, n, main, aux, out),
            Sound::Delay(it) => play(it, ids, values, points, channels, n, main, aux, out),
            Sound::OnePole(it) => play(it, ids, values, points, channels, n, main, aux, out),
            Sound::Crusher(it) => play(it, ids, values, points, channels, n, main, aux, out),
            Sound::Gate(it) => play(it, ids, values, points, channels, n, main, aux, out),
            Sound::Meter(it) => play(it, ids, values, points, channels, n, main, aux, out),
            Sound::Tap(it) => play(it, ids, values, points, channels, n, main, aux, out),
        }
    }

    /// Takes a message and answers it.
    pub fn notify(&mut self, given: &[u32], message: &Words) -> Words
        requires { AreValues (builtin (sound_number self.old)).params given.now }
        ensures reply { words_in result ≡ (builtin (sound_number self.old)).reply (sound_state self.old) given.now (words_in message.now) }
        ensures state { sound_state self.new ≡ (builtin (sound_number self.old)).told (sound_state self.old) given.now (words_in message.now) }
        ensures kind { sound_number self.new ≡ sound_number self.old }
    {
        match self {
            Sound::Delay(it) => it.notify(given, message),
            Sound::Meter(it) => it.notify(given, message),
            Sound::Tap(it) => it.reply(given, message),
            _ => Words::new(&[]),
        }
    }

    /// What a parameter that can't be set shows.
    pub fn shown(&self, id: u32) -> u32
        requires { has_shown (builtin (sound_number self.now)).params id ≡ true }
        ensures value { result ≡ (builtin (sound_number self.now)).shown (sound_state self.now) id }
        ensures within { result ≤ 2 ^ 24 }
    {
        match self {
            Sound::Meter(it) => it.shown(id),
            _ => 0,
        }
    }
}
