//! The texts of values: four decimals of a continuous value, `Off` and `On` of a switch, else the step;
//! and the parameter's units behind them.

ghost use Rattle.std.specs.Prelude.{◌≡◌, ◌≢◌, ◌≤◌, ◌<◌, ◌+◌, ◌*◌, ◌/◌, ◌%◌, ◌^◌, ◌++◌, ◌∷◌, ℕ, List, length, take, Option, Some, None, IfSome, IfNone, vec_len, vec_capacity};
ghost use Rattle.std.specs.Fmt.{decimal};
ghost use Rattle.vh_num.specs.Values.{quant_of, norm_of};
ghost use Rattle.vh_params.specs.ValueText.{number_text, fraction_text, units_text, value_text, IsTextValue, IsValueIn};
ghost use Rattle.vh_params.specs.Reading.{parts_of};

use vh_num::{ONE, index, norm};

/// The number of a value's text.
#[derive(Clone, Copy)]
pub struct Number {
    bytes: [u8; 6],
    len: usize,
    ghost within: { len ≤ 6 },
}

impl Number {
    ghost use Rattle.vh_params.specs.Numbers.{text_of};

    /// Its text.
    pub fn text(&self) -> &[u8]
        ensures value { result.now ≡ text_of self.now }
        ensures most { length result.now ≤ 6 }
    {
        &self.bytes[..self.len]
    }

    /// Ten-thousandths, as a number with four decimals.
    fn of_fraction(parts: u32) -> Number
        requires { parts ≤ 10000 }
        ensures { text_of result ≡ fraction_text parts }
    {
        Number {
            bytes: [
                b'0' + (parts / 10_000) as u8,
                b'.',
                b'0' + (parts / 1000 % 10) as u8,
                b'0' + (parts / 100 % 10) as u8,
                b'0' + (parts / 10 % 10) as u8,
                b'0' + (parts % 10) as u8,
            ],
            len: 6,
        }
    }

    /// A number below 10,000, in decimal.
    #[tactic(auto, using(crate::proofs::Decimals::one_digit, crate::proofs::Decimals::two_digits, crate::proofs::Decimals::three_digits, crate::proofs::Decimals::all_four_digits))]
    fn of_step(step: u32) -> Number
        requires { step < 10000 }
        ensures { text_of result ≡ decimal step }
    {
        let ones = b'0' + (step % 10) as u8;
        let tens = b'0' + (step / 10 % 10) as u8;
        let hundreds = b'0' + (step / 100 % 10) as u8;
        let thousands = b'0' + (step / 1000) as u8;
        if step < 10 {
            return Number {
                bytes: [ones, 0, 0, 0, 0, 0],
                len: 1,
            };
        }
        if step < 100 {
            return Number {
                bytes: [tens, ones, 0, 0, 0, 0],
                len: 2,
            };
        }
        if step < 1000 {
            return Number {
                bytes: [hundreds, tens, ones, 0, 0, 0],
                len: 3,
            };
        }
        Number {
            bytes: [thousands, hundreds, tens, ones, 0, 0],
            len: 4,
        }
    }

    /// The number of a normalised value, 0 to 2^24, of a parameter of this step count.
    pub fn of_value(steps: u32, value: u32) -> Number
        requires steps { steps ≤ 4095 }
        requires value { value ≤ 2 ^ 24 }
        ensures { text_of result ≡ number_text steps value }
    {
        match steps {
            0 => Number::of_fraction((u64::from(value) * 10_000 / u64::from(ONE)) as u32),
            1 if index(value, 1) == 0 => Number {
                bytes: *b"Off\0\0\0",
                len: 3,
            },
            1 => Number {
                bytes: *b"On\0\0\0\0",
                len: 2,
            },
            _ => Number::of_step(index(value, steps)),
        }
    }
}

/// The ten-thousandths that a text of six bytes stands for, where it is a number with four decimals.
fn parts_in(text: &[u8]) -> u32
    requires { length text.now ≡ 6 }
    ensures { result ≡ parts_of text.now }
{
    u32::from(text[0].saturating_sub(b'0')) * 10_000
        + u32::from(text[2].saturating_sub(b'0')) * 1000
        + u32::from(text[3].saturating_sub(b'0')) * 100
        + u32::from(text[4].saturating_sub(b'0')) * 10
        + u32::from(text[5].saturating_sub(b'0'))
}

/// The least value whose number is this text, of a continuous parameter.
fn value_of_fraction(text: &[u8]) -> Option<u32>
    ensures { IsValueIn 0 (number_text 0) text.now result }
{
    if text.len() != 6 {
        return None;
    }
    let parts = parts_in(text);
    if parts > 10_000 {
        return None;
    }
    if Number::of_fraction(parts).text() != text {
        return None;
    }
    Some(((u64::from(parts) * u64::from(ONE) + 9999) / 10_000) as u32)
}

/// The value whose text is this, of a switch.
fn value_of_switch(text: &[u8]) -> Option<u32>
    ensures { IsValueIn 1 (number_text 1) text.now result }
{
    if text == b"Off".as_slice() {
        Some(0)
    } else if text == b"On".as_slice() {
        Some(ONE)
    } else {
        None
    }
}

/// The number below 10,000 that a text is in decimal; of any other text some number or none.
fn step_in(text: &[u8]) -> Option<u32>
    ensures { (step : ℕ) → step < 10000 → decimal step ≡ text.now → result ≡ Some step }
{
    let Ok(text) = std::str::from_utf8(text) else {
        return None;
    };
    text.parse::<u32>().ok()
}

/// The value of the step that a text is in decimal.
fn value_of_step(text: &[u8], steps: u32) -> Option<u32>
    requires some { 2 ≤ steps }
    requires most { steps ≤ 4095 }
    ensures { IsValueIn steps (number_text steps) text.now result }
{
    let step = step_in(text)?;
    if step > steps {
        return None;
    }
    if Number::of_step(step).text() != text {
        return None;
    }
    Some(norm(step, steps))
}

/// What stands before this end of a text.
fn without_end<'a>(text: &'a [u8], end: &[u8]) -> Option<&'a [u8]>
    ensures some { IfSome result (λ front. text.now ≡ front.now ++ end.now) }
    ensures none { IfNone result ((front : List ℕ) → text.now ≢ front ++ end.now) }
{
    text.strip_suffix(end)
}

/// What stands before the units of a value's text.
fn without_units<'a>(text: &'a [u8], units: &[u8]) -> Option<&'a [u8]>
    ensures some { IfSome result (λ number. text.now ≡ number.now ++ units_text units.now) }
    ensures none { IfNone result ((number : List ℕ) → text.now ≢ number ++ units_text units.now) }
{
    if units.is_empty() {
        return Some(text);
    }
    let front = without_end(text, units)?;
    without_end(front, b" ")
}

/// The value that a text stands for, of a parameter of this step count with these units.
pub fn value_of_text(steps: u32, units: &[u8], text: &[u8]) -> Option<u32>
    requires { steps ≤ 4095 }
    ensures { IsTextValue steps units.now text.now result }
{
    let number = without_units(text, units)?;
    match steps {
        0 => value_of_fraction(number),
        1 => value_of_switch(number),
        _ => value_of_step(number, steps),
    }
}

/// Appends bytes for which there is room.
fn put(bytes: &[u8], out: &mut Vec<u8>)
    requires { vec_len out.old + length bytes.now ≤ vec_capacity out.old }
    ensures items { out.new.items ≡ out.old.items ++ bytes.now }
    ensures capacity { vec_capacity out.new ≡ vec_capacity out.old }
{
    for &byte in bytes {
        out.push_reserved(byte);
    }
}

/// Appends the text of a normalised value, 0 to 2^24, of a parameter of this step count with these
/// units. It takes no memory.
pub fn put_value(steps: u32, units: &[u8], value: u32, out: &mut Vec<u8>)
    requires steps { steps ≤ 4095 }
    requires value { value ≤ 2 ^ 24 }
    requires room { vec_len out.old + 7 + length units.now ≤ vec_capacity out.old }
    ensures text { out.new.items ≡ out.old.items ++ value_text steps units.now value }
    ensures capacity { vec_capacity out.new ≡ vec_capacity out.old }
{
    put(Number::of_value(steps, value).text(), out);
    if !units.is_empty() {
        put(b" ", out);
        put(units, out);
    }
}
