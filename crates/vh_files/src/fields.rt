ghost use Rattle.std.specs.Prelude.{◌≡◌, ◌+◌, ◌≤◌, length};
ghost use Rattle.vh_files.specs.Fields.{field_at};

use byteorder::{ByteOrder, LittleEndian};

/// The number in the two bytes of `b` from `at` on, little endian.
pub fn field16(b: &[u8], at: usize) -> u16
    requires { at + 2 ≤ length b.now }
    ensures { result ≡ field_at b.now at 2 }
{
    LittleEndian::read_u16(&b[at..])
}

/// The number in the four bytes of `b` from `at` on, little endian.
pub fn field32(b: &[u8], at: usize) -> u32
    requires { at + 4 ≤ length b.now }
    ensures { result ≡ field_at b.now at 4 }
{
    LittleEndian::read_u32(&b[at..])
}

/// The number in the eight bytes of `b` from `at` on, little endian.
pub fn field64(b: &[u8], at: usize) -> u64
    requires { at + 8 ≤ length b.now }
    ensures { result ≡ field_at b.now at 8 }
{
    LittleEndian::read_u64(&b[at..])
}
