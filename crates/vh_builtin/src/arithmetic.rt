//! The arithmetic of the laws, one operation a function. All quotients are rounded down.

ghost use Rattle.std.specs.Prelude.{◌≡◌, ◌≤◌, ◌-◌, ◌^◌, pos, neg_ℤ, ◌+ℤ◌, ◌*ℤ◌, ◌≤ℤ◌};
ghost use Rattle.vh_num.specs.Samples.{IsWithin, floor_div};
ghost use Rattle.vh_builtin.specs.OnePole.{pole_of};
ghost use Rattle.vh_builtin.specs.Ranges.{IsSample};

/// The product of a sample and a number of up to 2^24.
#[inline(always)]
pub fn product(x: i32, factor: u32) -> i64
    requires { factor ≤ 2 ^ 24 }
    ensures { result ≡ x *ℤ pos factor }
{
    i64::from(x) * i64::from(factor)
}

/// The difference of two samples.
#[inline(always)]
pub fn difference(x: i32, y: i32) -> i64
    ensures value { result ≡ x +ℤ neg_ℤ y }
    ensures within { IsWithin (2 ^ 32) result }
{
    i64::from(x) - i64::from(y)
}

/// The product of a difference and a number of up to 2^24.
#[inline(always)]
pub fn weighted(x: i64, factor: u32) -> i64
    requires x { IsWithin (2 ^ 32) x }
    requires factor { factor ≤ 2 ^ 24 }
    ensures { result ≡ x *ℤ pos factor }
{
    x * i64::from(factor)
}

/// The same, and that a sum of two such products fits.
#[inline(always)]
#[tactic(auto, using(crate::proofs::Shares::product_within))]
pub fn summand(x: i32, factor: u32) -> i64
    requires { factor ≤ 2 ^ 24 }
    ensures value { result ≡ x *ℤ pos factor }
    ensures within { IsWithin (2 ^ 55) result }
{
    product(x, factor)
}

/// The sum of two such products.
#[inline(always)]
pub fn sum(x: i64, y: i64) -> i64
    requires x { IsWithin (2 ^ 55) x }
    requires y { IsWithin (2 ^ 55) y }
    ensures { result ≡ x +ℤ y }
{
    x + y
}

/// The quotient by 2^23.
#[inline(always)]
pub fn halved_unit(x: i64) -> i64
    ensures { result ≡ floor_div x 8388608 }
{
    x >> 23
}

/// The quotient by 2^24.
#[inline(always)]
pub fn by_unit(x: i64) -> i64
    ensures { result ≡ floor_div x (2 ^ 24) }
{
    x >> 24
}

/// The quotient by 2^25.
#[inline(always)]
pub fn by_two_units(x: i64) -> i64
    ensures { result ≡ floor_div x 33554432 }
{
    x >> 25
}

/// A number that is a sample, as one.
#[inline(always)]
pub fn narrowed(x: i64) -> i32
    requires { IsSample x }
    ensures { result ≡ x }
{
    x as i32
}

/// A sample raised by a number to a sample.
#[inline(always)]
pub fn raised(x: i32, by: i64) -> i32
    requires { IsSample (x +ℤ by) }
    ensures { result ≡ x +ℤ by }
{
    (i64::from(x) + by) as i32
}

/// The number that lies a part of the way from one sample to another.
#[inline(always)]
pub fn toward(part: u32, from: i32, to: i32) -> i32
    requires { part ≤ 2 ^ 24 }
    ensures { result ≡ pole_of part from to }
{
    raised(from, by_unit(weighted(difference(to, from), part)))
}
