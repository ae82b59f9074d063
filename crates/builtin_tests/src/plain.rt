//! The classes' laws, sample by sample, as a plain program that shares nothing with the processors.

use std::alloc::{AllocError, Global};
use vh_builtin::Kind;
use vh_params::Words;

/// What a class keeps: a delay all of its numbers, the others up to three.
#[derive(Drop)]
pub struct Plain {
    kind: Kind,
    kept: Vec<i64>,
    kept_right: Vec<i64>,
    first: i64,
    second: i64,
    third: i64,
}

/// One sample of each channel; of one channel the right one is 0 and counts for nothing.
#[derive(Clone, Copy, PartialEq, Eq, Debug)]
pub struct Pair {
    pub left: i64,
    pub right: i64,
}

fn clamped(x: i64) -> i64 {
    x.clamp(-2_147_483_648, 2_147_483_647)
}

fn step_of(value: i64, steps: i64) -> i64 {
    value
        .wrapping_mul(steps.wrapping_add(1))
        .div_euclid(16_777_216)
        .min(steps)
}

fn part(x: i64, factor: i64, unit: i64) -> i64 {
    if unit <= 0 {
        return 0;
    }
    x.wrapping_mul(factor).div_euclid(unit)
}

fn size(x: i64) -> i64 {
    x.wrapping_abs()
}

/// The number of so many samples ago.
fn ago(kept: &[i64], time: i64) -> i64 {
    match kept.len().checked_sub(usize::try_from(time).unwrap_or(0)) {
        Some(place) => kept.get(place).copied().unwrap_or(0),
        None => 0,
    }
}

impl Plain {
    pub fn new(alloc: Global, kind: Kind) -> Plain {
        Plain {
            kind,
            kept: Vec::new(alloc),
            kept_right: Vec::new(alloc),
            first: 0,
            second: 0,
            third: 0,
        }
    }

    /// The frame after a sample, and the state.
    pub fn step(
        &mut self,
        channels: u16,
        v: [i64; 3],
        x: Pair,
        aux: Option<Pair>,
    ) -> Result<Pair, AllocError> {
        match self.kind {
            Kind::Gain if step_of(v[1], 1) == 1 => Ok(x),
            Kind::Gain => Ok(Pair {
                left: clamped(part(x.left, v[0], 8_388_608)),
                right: clamped(part(x.right, v[0], 8_388_608)),
            }),
            Kind::Balance if channels == 1 => Ok(x),
            Kind::Balance => Ok(Pair {
                left: part(
                    x.left,
                    16_777_216i64.wrapping_sub(v[0]).min(8_388_608),
                    8_388_608,
                ),
                right: part(x.right, v[0].min(8_388_608), 8_388_608),
            }),
            Kind::Delay => self.delay(v, x),
            Kind::OnePole => {
                self.first = pole(self.first, x.left, v[0]);
                self.second = pole(self.second, x.right, v[0]);
                Ok(Pair {
                    left: self.first,
                    right: self.second,
                })
            }
            Kind::Crusher => Ok(self.crush(v, x)),
            Kind::Gate => Ok(self.gate(channels, v, x, aux.unwrap_or(x))),
            Kind::Meter => {
                self.first = self.first.max(size(x.left).min(8_388_608));
                self.second = self.second.max(size(x.right).min(8_388_608));
                Ok(x)
            }
            Kind::Tap => {
                self.first = self.first.wrapping_add(1);
                self.second = x.left;
                self.third = x.right;
                Ok(x)
            }
        }
    }

    fn delay(&mut self, v: [i64; 3], x: Pair) -> Result<Pair, AllocError> {
        let time = step_of(v[0], 4095);
        let left = if time == 0 {
            x.left
        } else {
            ago(&self.kept, time)
        };
        let right = if time == 0 {
            x.right
        } else {
            ago(&self.kept_right, time)
        };
        self.kept.push(fed(x.left, left, v[2]))?;
        self.kept_right.push(fed(x.right, right, v[2]))?;
        Ok(Pair {
            left: mixed(x.left, left, v[1]),
            right: mixed(x.right, right, v[1]),
        })
    }

    fn crush(&mut self, v: [i64; 3], x: Pair) -> Pair {
        if self.first == 0 {
            self.second = x.left;
            self.third = x.right;
        }
        let mut unit = 1i64;
        for _ in step_of(v[0], 15)..15 {
            unit = unit.wrapping_mul(2);
        }
        let next = self.first.wrapping_add(1);
        self.first = if next > step_of(v[1], 63) { 0 } else { next };
        Pair {
            left: part(self.second, 1, unit).wrapping_mul(unit),
            right: part(self.third, 1, unit).wrapping_mul(unit),
        }
    }

    fn gate(&mut self, channels: u16, v: [i64; 3], x: Pair, key: Pair) -> Pair {
        let level = if channels == 1 {
            size(key.left)
        } else {
            size(key.left).max(size(key.right))
        };
        let loud = level >= v[0].div_euclid(2);
        let passes = loud || self.first > 0 || step_of(v[2], 1) == 1;
        self.first = if loud {
            step_of(v[1], 4095)
        } else {
            self.first.wrapping_sub(1).max(0)
        };
        if passes {
            x
        } else {
            Pair { left: 0, right: 0 }
        }
    }

    /// What it answers a message, which is sent with this value of the first parameter.
    pub fn told(&mut self, value: u32, message: &Words) -> Words {
        match (self.kind, message.numbers()) {
            (Kind::Delay, [1]) => {
                self.kept.clear();
                self.kept_right.clear();
                Words::new(&[1])
            }
            (Kind::Meter, [1]) => {
                let peaks = Words::new(&[word_of(self.first), word_of(self.second)]);
                self.first = 0;
                self.second = 0;
                peaks
            }
            (Kind::Tap, [0]) => Words::new(&[word_of(self.first)]),
            (Kind::Tap, [1]) => Words::new(&[word_of(self.second), word_of(self.third)]),
            (Kind::Tap, [2]) => Words::new(&[value]),
            _ => Words::new(&[]),
        }
    }

    /// What a meter shows.
    pub fn shown(&self) -> [i64; 2] {
        [self.first.wrapping_mul(2), self.second.wrapping_mul(2)]
    }
}

/// A number as a word, in two's complement.
fn word_of(x: i64) -> u32 {
    u32::try_from(x.rem_euclid(4_294_967_296)).unwrap_or(0)
}

fn pole(z: i64, x: i64, cutoff: i64) -> i64 {
    z.wrapping_add(part(x.wrapping_sub(z), cutoff, 16_777_216))
}

fn mixed(x: i64, w: i64, mix: i64) -> i64 {
    let dry = x.wrapping_mul(16_777_216i64.wrapping_sub(mix));
    clamped(part(dry.wrapping_add(w.wrapping_mul(mix)), 1, 16_777_216))
}

fn fed(x: i64, w: i64, feedback: i64) -> i64 {
    clamped(x.wrapping_add(part(w, feedback, 33_554_432)))
}
