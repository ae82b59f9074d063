//! Numbers in decimal.

ghost use Rattle.std.specs.Prelude.{◌≡◌};
ghost use Rattle.vh_text.specs.Numbers.{number_of};

/// A number in 1 to 10 decimal digits, below 2^32. Leading zeros are accepted.
pub fn number(text: &[u8]) -> Option<u32>
    ensures { result ≡ number_of text.now }
{
    if text.is_empty() || text.len() > 10 {
        return None;
    }
    let mut number = 0u64;
    for &b in text {
        if !b.is_ascii_digit() {
            return None;
        }
        number = number * 10 + u64::from(b - b'0');
    }
    u32::try_from(number).ok()
}
