ghost use Rattle.std.specs.Prelude.{◌≡◌, ◌↔◌, length, Some, IsSome, Ok};
ghost use Rattle.std.specs.List.{AllPass};
ghost use Rattle.hex.specs.Hex.{decode_of, encode_upper, is_hex_digit};
ghost use Rattle.vh_ids.specs.Texts.{id_in};

use hex::FromHex;

/// An identifier of 16 bytes (the SDK's `TUID`).
#[derive(Clone, Copy, Debug, PartialEq, Eq)]
pub struct Tuid(pub [u8; 16]);

impl Tuid {
    /// Reads a text of hexadecimal digits of either case.
    pub fn read(text: &[u8; 32]) -> Option<Tuid>
        ensures value { result ≡ id_in text.now }
        ensures found { IsSome result ↔ AllPass is_hex_digit text.now }
    {
        match <[u8; 16] as FromHex>::from_hex(text.as_slice()) {
            Ok(bytes) => Some(Tuid(bytes)),
            Err(_) => None,
        }
    }

    /// The text of the identifier, in upper case. [`Tuid::read`] gives the identifier back.
    pub fn write_upper(&self) -> [u8; 32]
        ensures text { result ≡ encode_upper self.now.0 }
        ensures reads_back { id_in result ≡ Some self.now }
    {
        upper_text(&self.0)
    }
}

/// The digits of 16 bytes, in upper case.
fn upper_text(bytes: &[u8]) -> [u8; 32]
    requires { length bytes.now ≡ 16 }
    ensures text { result ≡ encode_upper bytes.now }
    ensures reads_back { decode_of result ≡ Ok bytes.now }
{
    let mut text = [0u8; 32];
    let _ = hex::encode_to_slice(bytes, &mut text);
    text.make_ascii_uppercase();
    text
}
