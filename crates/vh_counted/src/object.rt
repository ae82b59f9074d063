//! Objects, and who holds them.

ghost use Rattle.std.specs.Prelude.{◌≡◌, ◌≤◌, ◌<◌, ◌+◌, ◌-◌, ℕ, [], ◌∷◌, true, false, ◌||◌, IfOk};
ghost use Rattle.vh_counted.specs.Steps.{IsWithinInterfaces, total, at_interface, first_numbers, released, split_off, split_part, joined};
ghost use Rattle.vh_counted.specs.Objects.{IsWhole, AreSome, CountsFor, HasObject, Keeps};

use crate::numbers::Numbers;
use std::alloc::{AllocError, Global};
use std::marker::PhantomData;
use thiserror::Error;

/// What all holders of an object know of it: how many interfaces it has, and how many adds its holders may
/// make together.
#[derive(Clone, Copy)]
pub struct Object {
    pub interfaces: u32,
    pub cap: u32,
}

/// No add is left to the holder.
#[derive(Clone, Copy, Debug, PartialEq, Eq, Error)]
#[error("no add is left to the holder")]
pub struct TooMany;

/// An object without a value. It may be dropped.
#[derive(Drop)]
pub struct Shell<T> {
    object: Object,
    of: PhantomData<T>,
    ghost is: { HasObject object.interfaces object.cap },
}

/// An object. Its holders make their calls through it.
pub struct Counted<T> {
    object: Object,
    of: PhantomData<T>,
    ghost is: { HasObject object.interfaces object.cap },
}

/// A caller's token of an object: its references, and the adds that it may still make. It must be spent.
pub struct Holder<T> {
    object: Object,
    numbers: Numbers,
    value: Option<T>,
    ghost within: { IsWithinInterfaces object.interfaces numbers },
}

/// The opener of an object: the holder that has the value, and at least one reference. It must be spent.
pub struct Opened<T> {
    object: Object,
    numbers: Numbers,
    value: T,
    ghost within: { IsWithinInterfaces object.interfaces numbers },
    ghost some: { 1 ≤ total numbers },
}

/// An object that was ended, which the release that found one reference gives. It must be spent.
pub struct Ended<T> {
    value: T,
}

/// What a release answers.
pub enum Released<T> {
    /// The count after it, at least 1.
    Left(u64),
    /// It was the last.
    Ended(Ended<T>),
}

impl<T: Drop> Shell<T> {
    ghost use Rattle.vh_counted.specs.Held.{object_of_shell, object_of, numbers_of_opened, object_of_opened, value_of_opened};

    /// An object of so many interfaces, 1 to 16, whose holders may make so many adds, at most 65,535.
    pub fn new(alloc: Global, interfaces: u32, cap: u32) -> Result<Shell<T>, AllocError>
        requires some { 1 ≤ interfaces }
        requires most { interfaces ≤ 16 }
        requires cap { cap ≤ 65535 }
        ensures interfaces { IfOk result (λ shell. (object_of_shell shell).interfaces ≡ interfaces) }
        ensures cap { IfOk result (λ shell. (object_of_shell shell).cap ≡ cap) }
    {
        let _ = alloc;
        Ok(Shell {
            object: Object { interfaces, cap },
            of: PhantomData,
        })
    }

    /// The object of a value. It has one reference, at position 0, and all room is the opener's.
    pub fn fill(self, value: T) -> (Counted<T>, Opened<T>)
        ensures object { object_of result.0 ≡ object_of_shell self }
        ensures opener { object_of_opened result.1 ≡ object_of_shell self }
        ensures numbers { numbers_of_opened result.1 ≡ first_numbers (object_of_shell self).cap }
        ensures value { value_of_opened result.1 ≡ value }
        ensures whole { IsWhole (object_of result.0).cap (numbers_of_opened result.1) }
    {
        let Shell { object, of } = self;
        let numbers = Numbers::first(object.cap);
        (
            Counted { object, of },
            Opened {
                object,
                numbers,
                value,
            },
        )
    }
}

impl<T: Drop> Counted<T> {
    ghost use Rattle.vh_counted.specs.Held.{object_of, object_of_holder, numbers_of, has_value, object_of_opened, numbers_of_opened, value_of_opened, value_of_ended};
    ghost use Rattle.vh_counted.specs.Answers.{IsAdded, IsReleased, IsLeft, KeepsValue};

    /// Takes one reference more at an interface, and answers the count after it. The holder is unchanged
    /// where no add is left to it.
    pub fn add_ref(&self, h: &mut Holder<T>, iface: u32) -> Result<u64, TooMany>
        requires of_this { object_of_holder h.old ≡ object_of self.now }
        requires iface { iface < (object_of self.now).interfaces }
        requires held { 1 ≤ total (numbers_of h.old) }
        requires plain { IsWhole (object_of self.now).cap (numbers_of h.old) }
        ensures step { IsAdded (object_of self.now).cap iface (numbers_of h.old) (numbers_of h.new) result }
        ensures object { object_of_holder h.new ≡ object_of_holder h.old }
        ensures value { has_value h.new ≡ has_value h.old }
        ensures kept { Keeps (object_of self.now).cap (numbers_of h.old ∷ []) (numbers_of h.new ∷ []) }
    {
        self.add(&mut h.numbers, iface)
    }

    /// The same for the opener.
    pub fn add_open(&self, o: &mut Opened<T>, iface: u32) -> Result<u64, TooMany>
        requires of_this { object_of_opened o.old ≡ object_of self.now }
        requires iface { iface < (object_of self.now).interfaces }
        requires held { 1 ≤ total (numbers_of_opened o.old) }
        requires plain { IsWhole (object_of self.now).cap (numbers_of_opened o.old) }
        ensures step { IsAdded (object_of self.now).cap iface (numbers_of_opened o.old) (numbers_of_opened o.new) result }
        ensures object { object_of_opened o.new ≡ object_of_opened o.old }
        ensures value { value_of_opened o.new ≡ value_of_opened o.old }
        ensures kept { Keeps (object_of self.now).cap (numbers_of_opened o.old ∷ []) (numbers_of_opened o.new ∷ []) }
    {
        self.add(&mut o.numbers, iface)
    }

    /// Gives a reference at an interface back. The release that finds one reference left ends the object.
    pub fn release(&self, h: &mut Holder<T>, iface: u32) -> Released<T>
        requires of_this { object_of_holder h.old ≡ object_of self.now }
        requires iface { iface < (object_of self.now).interfaces }
        requires held { 1 ≤ at_interface (numbers_of h.old) iface }
        requires plain { IsWhole (object_of self.now).cap (numbers_of h.old) }
        requires plain_value { has_value h.old ≡ true }
        ensures step { (n : ℕ) × CountsFor (object_of self.now).cap (numbers_of h.old) n × IsReleased iface n (numbers_of h.old) (numbers_of h.new) result }
        ensures object { object_of_holder h.new ≡ object_of_holder h.old }
        ensures plain_value { KeepsValue result (has_value h.new) }
        ensures kept { Keeps (object_of self.now).cap (numbers_of h.old ∷ []) (numbers_of h.new ∷ []) }
    {
        let left = count_of(&h.numbers) - 1;
        h.numbers.release(iface, left);
        if left == 0 {
            let value = h.value.take().unwrap();
            Released::Ended(Ended { value })
        } else {
            Released::Left(left)
        }
    }

    /// The same for the opener, who has one reference more, so that it isn't the last. It answers the count
    /// after it.
    pub fn release_open(&self, o: &mut Opened<T>, iface: u32) -> u64
        requires of_this { object_of_opened o.old ≡ object_of self.now }
        requires iface { iface < (object_of self.now).interfaces }
        requires held { 1 ≤ at_interface (numbers_of_opened o.old) iface }
        requires more { 2 ≤ total (numbers_of_opened o.old) }
        requires plain { IsWhole (object_of self.now).cap (numbers_of_opened o.old) }
        ensures step { (n : ℕ) × CountsFor (object_of self.now).cap (numbers_of_opened o.old) n × IsLeft iface n (numbers_of_opened o.old) (numbers_of_opened o.new) result }
        ensures object { object_of_opened o.new ≡ object_of_opened o.old }
        ensures value { value_of_opened o.new ≡ value_of_opened o.old }
        ensures kept { Keeps (object_of self.now).cap (numbers_of_opened o.old ∷ []) (numbers_of_opened o.new ∷ []) }
    {
        let left = count_of(&o.numbers) - 1;
        o.numbers.release(iface, left);
        left
    }

    /// The opener gives the value to the object, for whichever release is the last.
    pub fn leave(&self, o: Opened<T>) -> Holder<T>
        requires { object_of_opened o ≡ object_of self.now }
        ensures object { object_of_holder result ≡ object_of_opened o }
        ensures numbers { numbers_of result ≡ numbers_of_opened o }
        ensures plain_value { has_value result ≡ true }
    {
        let Opened {
            object,
            numbers,
            value,
        } = o;
        Holder {
            object,
            numbers,
            value: Some(value),
        }
    }

    /// The opener, who has the only reference, makes the last release.
    pub fn end(&self, o: Opened<T>, iface: u32) -> (Holder<T>, Ended<T>)
        requires of_this { object_of_opened o ≡ object_of self.now }
        requires iface { iface < (object_of self.now).interfaces }
        requires whole { IsWhole (object_of self.now).cap (numbers_of_opened o) }
        requires alone { total (numbers_of_opened o) ≡ 1 }
        requires held { 1 ≤ at_interface (numbers_of_opened o) iface }
        ensures object { object_of_holder result.0 ≡ object_of_opened o }
        ensures numbers { numbers_of result.0 ≡ released iface 0 (numbers_of_opened o) }
        ensures value { value_of_ended result.1 ≡ value_of_opened o }
        ensures plain_value { has_value result.0 ≡ false }
    {
        let Opened {
            object,
            mut numbers,
            value,
        } = o;
        numbers.release(iface, 0);
        let holder = Holder {
            object,
            numbers,
            value: None,
        };
        (holder, Ended { value })
    }

    /// Gives the references of a whole opener back one after the other, and makes the last release.
    pub fn end_whole(&self, o: Opened<T>) -> (Holder<T>, Ended<T>)
        requires of_this { object_of_opened o ≡ object_of self.now }
        requires whole { IsWhole (object_of self.now).cap (numbers_of_opened o) }
        ensures object { object_of_holder result.0 ≡ object_of_opened o }
        ensures ender { (numbers_of result.0).ender ≡ true }
        ensures value { value_of_ended result.1 ≡ value_of_opened o }
        ensures plain_value { has_value result.0 ≡ false }
    {
        let mut o = o;
        for _ in 1..o.numbers.total() {
            let iface = o.numbers.place();
            self.release_open(&mut o, iface);
        }
        let iface = o.numbers.place();
        self.end(o, iface)
    }

    /// Moves references at an interface, and room, to a new holder.
    pub fn split(&self, h: &mut Holder<T>, iface: u32, n: u32, room: u32) -> Holder<T>
        requires of_this { object_of_holder h.old ≡ object_of self.now }
        requires iface { iface < (object_of self.now).interfaces }
        requires held { n ≤ at_interface (numbers_of h.old) iface }
        requires room { room ≤ (numbers_of h.old).room }
        ensures rest { numbers_of h.new ≡ split_off iface n room (numbers_of h.old) }
        ensures part { numbers_of result ≡ split_part iface n room }
        ensures object { object_of_holder h.new ≡ object_of_holder h.old }
        ensures part_object { object_of_holder result ≡ object_of_holder h.old }
        ensures plain_value { has_value h.new ≡ has_value h.old }
        ensures plain_none { has_value result ≡ false }
        ensures kept { Keeps (object_of self.now).cap (numbers_of h.old ∷ []) (numbers_of h.new ∷ numbers_of result ∷ []) }
    {
        Holder {
            object: h.object,
            numbers: h.numbers.split(iface, n, room),
            value: None,
        }
    }

    /// The same from the opener, who keeps a reference.
    pub fn part(&self, o: &mut Opened<T>, iface: u32, n: u32, room: u32) -> Holder<T>
        requires of_this { object_of_opened o.old ≡ object_of self.now }
        requires iface { iface < (object_of self.now).interfaces }
        requires held { n ≤ at_interface (numbers_of_opened o.old) iface }
        requires more { n < total (numbers_of_opened o.old) }
        requires room { room ≤ (numbers_of_opened o.old).room }
        ensures rest { numbers_of_opened o.new ≡ split_off iface n room (numbers_of_opened o.old) }
        ensures part { numbers_of result ≡ split_part iface n room }
        ensures object { object_of_opened o.new ≡ object_of_opened o.old }
        ensures part_object { object_of_holder result ≡ object_of_opened o.old }
        ensures value { value_of_opened o.new ≡ value_of_opened o.old }
        ensures plain_none { has_value result ≡ false }
        ensures kept { Keeps (object_of self.now).cap (numbers_of_opened o.old ∷ []) (numbers_of_opened o.new ∷ numbers_of result ∷ []) }
    {
        Holder {
            object: o.object,
            numbers: o.numbers.split(iface, n, room),
            value: None,
        }
    }

    /// Moves all that another holder has to a holder.
    #[tactic(auto, using(crate::proofs::Beyond::beyond_joined))]
    pub fn join(&self, h: &mut Holder<T>, other: Holder<T>)
        requires of_this { object_of_holder h.old ≡ object_of self.now }
        requires other_too { object_of_holder other ≡ object_of self.now }
        requires some { AreSome (object_of self.now).cap (numbers_of h.old ∷ numbers_of other ∷ []) }
        ensures joined { numbers_of h.new ≡ joined (numbers_of h.old) (numbers_of other) }
        ensures object { object_of_holder h.new ≡ object_of_holder h.old }
        ensures plain_value { has_value h.new ≡ (has_value h.old || has_value other) }
        ensures kept { Keeps (object_of self.now).cap (numbers_of h.old ∷ numbers_of other ∷ []) (numbers_of h.new ∷ []) }
    {
        let Holder {
            object: _,
            numbers,
            value,
        } = other;
        h.numbers.join(&numbers);
        if value.is_some() {
            h.value = value;
        }
    }

    /// The same to the opener.
    pub fn join_open(&self, o: &mut Opened<T>, other: Holder<T>)
        requires of_this { object_of_opened o.old ≡ object_of self.now }
        requires other_too { object_of_holder other ≡ object_of self.now }
        requires some { AreSome (object_of self.now).cap (numbers_of_opened o.old ∷ numbers_of other ∷ []) }
        ensures joined { numbers_of_opened o.new ≡ joined (numbers_of_opened o.old) (numbers_of other) }
        ensures object { object_of_opened o.new ≡ object_of_opened o.old }
        ensures value { value_of_opened o.new ≡ value_of_opened o.old }
        ensures kept { Keeps (object_of self.now).cap (numbers_of_opened o.old ∷ numbers_of other ∷ []) (numbers_of_opened o.new ∷ []) }
    {
        let Holder {
            object: _,
            numbers,
            value: _,
        } = other;
        o.numbers.join(&numbers);
    }

    /// Spends a holder without references. Its room is given up.
    pub fn retire(&self, h: Holder<T>)
        requires of_this { object_of_holder h ≡ object_of self.now }
        requires none { total (numbers_of h) ≡ 0 }
        requires plain_value { has_value h ≡ false }
    {
        let Holder {
            object: _,
            numbers: _,
            value: _,
        } = h;
    }

    /// Takes the empty object down, by the holder that ended it.
    pub fn dissolve(self, h: Holder<T>)
        requires of_this { object_of_holder h ≡ object_of self }
        requires ender { (numbers_of h).ender ≡ true }
    {
        let Holder {
            object: _,
            numbers: _,
            value: _,
        } = h;
        let Counted { object: _, of: _ } = self;
    }

    fn add(&self, numbers: &mut Numbers, iface: u32) -> Result<u64, TooMany>
        requires iface { iface < (object_of self.now).interfaces }
        requires plain { IsWhole (object_of self.now).cap numbers.old }
        ensures step { IsAdded (object_of self.now).cap iface numbers.old numbers.new result }
        ensures kept { Keeps (object_of self.now).cap (numbers.old ∷ []) (numbers.new ∷ []) }
    {
        if numbers.room == 0 {
            return Err(TooMany);
        }
        let count = count_of(numbers) + 1;
        numbers.add(iface, count);
        Ok(count)
    }
}

/// The count of an object whose only holder has these numbers.
fn count_of(numbers: &Numbers) -> u64
    requires { numbers.now.releases ≤ 1 + numbers.now.adds }
    ensures { result ≡ 1 + numbers.now.adds - numbers.now.releases }
{
    1 + u64::from(numbers.adds) - u64::from(numbers.releases)
}

impl<T: Drop> Holder<T> {
    ghost use Rattle.vh_counted.specs.Held.{object_of_holder, numbers_of};

    /// How many references the holder has at an interface. It has none beyond its object's interfaces.
    pub fn references(&self, iface: u32) -> u32
        ensures count { result ≡ at_interface (numbers_of self.now) iface }
        ensures within { IsWithinInterfaces (object_of_holder self.now).interfaces (numbers_of self.now) }
    {
        self.numbers.at(iface)
    }
}

impl<T: Drop> Opened<T> {
    ghost use Rattle.vh_counted.specs.Held.{object_of_opened, numbers_of_opened, value_of_opened, with_value};
    ghost use Rattle.std.specs.Borrow.{Lends, sem};
    ghost use Rattle.vh_counted.specs.contracts.object.Opened.{the_row};

    /// How many references the opener has at an interface. It has none beyond its object's interfaces, and
    /// at least one in all.
    pub fn references(&self, iface: u32) -> u32
        ensures count { result ≡ at_interface (numbers_of_opened self.now) iface }
        ensures within { IsWithinInterfaces (object_of_opened self.now).interfaces (numbers_of_opened self.now) }
        ensures some { 1 ≤ total (numbers_of_opened self.now) }
    {
        self.numbers.at(iface)
    }

    /// The value.
    pub fn value(&self) -> &T
        ensures { result.now ≡ value_of_opened self.now }
    {
        &self.value
    }

    /// The value, to be changed. All else of the opener stays.
    pub fn value_mut(&mut self) -> &mut T
        ensures* writes_back { sem 𝓛 (Lends (the_row T.row) T.row self.entry result (λ w. with_value w self.old)) }
        ensures value { result.now ≡ value_of_opened self.old }
    {
        &mut self.value
    }
}

impl<T: Drop> Ended<T> {
    ghost use Rattle.vh_counted.specs.Held.{value_of_ended};

    /// The value.
    pub fn value(&self) -> &T
        ensures { result.now ≡ value_of_ended self.now }
    {
        &self.value
    }

    /// Spends the object, and drops its value.
    pub fn finish(self) {
        let Ended { value: _ } = self;
    }
}
