//! State bytes.

ghost use Rattle.std.specs.Prelude.{◌≡◌, ◌≤◌, ◌+◌, ◌^◌, List, length, All, IfOk, ◌==◌};
ghost use Rattle.vh_builtin.specs.Bytes.{is_form, is_pair, text_of};
ghost use Rattle.vh_builtin.specs.Takes.{TakesHeld};

use std::alloc::{AllocError, Global};
use vh_files::field32;
use vh_num::ONE;

/// Whether an id and a value up to 1.0 stand at a place.
fn is_pair(bytes: &[u8], at: usize, id: u32) -> bool
    requires { at ≤ 2 ^ 20 }
    ensures { result ≡ is_pair bytes.now at id }
{
    bytes.len() >= at + 8 && field32(bytes, at) == id && field32(bytes, at + 4) <= ONE
}

/// Whether the bytes hold values of these ids, and nothing more.
fn is_form(ids: &[u32], bytes: &[u8]) -> bool
    requires { length ids.now ≤ 3 }
    ensures { result ≡ is_form ids.now bytes.now }
{
    if bytes.len() < 4 || field32(bytes, 0) != 1 {
        return false;
    }
    for k in 0..ids.len() {
        if !is_pair(bytes, 4 + 8 * k, ids[k]) {
            return false;
        }
    }
    bytes.len() == 4 + 8 * ids.len()
}

/// Gives the first values those that bytes hold of these ids. The answer is false, and nothing changes, where
/// they aren't of the form.
pub fn take_held(ids: &[u32], bytes: &[u8], values: &mut [u32]) -> bool
    requires ids { length ids.now ≤ 3 }
    requires values { length ids.now ≤ length values.old }
    ensures { TakesHeld ids.now bytes.now values.old values.new result }
{
    if !is_form(ids, bytes) {
        return false;
    }
    for k in 0..ids.len() {
        values[k] = field32(bytes, 8 + 8 * k);
    }
    true
}

/// The bytes of the values of these ids.
pub fn text_of(alloc: Global, ids: &[u32], values: &[u32]) -> Result<Vec<u8>, AllocError>
    requires { length ids.now ≤ length values.now }
    ensures { IfOk result (λ bytes. bytes.items ≡ text_of ids.now values.now) }
{
    let mut bytes = Vec::from_slice(alloc, &1u32.to_le_bytes())?;
    for k in 0..ids.len() {
        bytes.extend_from_slice(&ids[k].to_le_bytes())?;
        bytes.extend_from_slice(&values[k].to_le_bytes())?;
    }
    Ok(bytes)
}
