//! Reading a preset file.

ghost use Rattle.std.specs.Prelude.{◌≡◌, ◌≤◌, ◌+◌, ◌*◌, ◌<◌, not, All, None, Some, IfNone, IfSome, IfOk, OnOk, Err, Ok, length};
ghost use Rattle.std.specs.List.{position};
ghost use Rattle.hex.specs.Hex.{decode_of, is_hex_digit};
ghost use Rattle.vh_preset.specs.Contents.{IsPreset};
ghost use Rattle.vh_preset.specs.Form.{first_of, head_faults, list_faults, range_fault, preset_fault, class_digits, list_at, count_in, entry_of, entries_in, IsWithin, is_out};
ghost use Rattle.vh_preset.specs.Seen.{contents_of};
ghost use Rattle.vh_preset.specs.declared.fault.PresetFault.{PresetFault as Fault_};

use crate::fault::PresetFault;
use crate::preset::{Preset, PresetEntry};
use std::alloc::Global;
use vh_files::{field32, field64};
use vh_ids::Tuid;
use vh_num::Refusal;

/// The most bytes of a preset file that the host reads.
pub const PRESET_LIMIT: u64 = 67_108_864;

/// The most entries of a chunk list.
const MOST_ENTRIES: u32 = 128;

/// The place of the first byte that is no hexadecimal digit.
fn first_other(digits: &[u8]) -> Option<usize>
    ensures value { result ≡ position (λ digit. not (is_hex_digit digit)) digits.now }
    ensures within { IfSome result (λ place. place < length digits.now) }
{
    digits.iter().position(|digit| !digit.is_ascii_hexdigit())
}

/// The first fault of the head, but for the place of the chunk list.
fn head_fault(bytes: &[u8]) -> Option<PresetFault>
    ensures value { result ≡ first_of (head_faults bytes.now) }
    ensures long { IfNone result (48 ≤ length bytes.now) }
{
    if bytes.len() < 48 {
        return Some(PresetFault::Short);
    }
    if &bytes[..4] != b"VST3".as_slice() {
        return Some(PresetFault::BadMagic);
    }
    let version = field32(bytes, 4);
    if version == 0 || version > 0x7FFF_FFFF {
        return Some(PresetFault::BadVersion);
    }
    if let Some(other) = first_other(&bytes[8..40]) {
        return Some(PresetFault::BadClassId(8 + other));
    }
    None
}

/// The first fault of the chunk list, but for its entries.
fn list_fault(bytes: &[u8]) -> Option<PresetFault>
    requires { 48 ≤ length bytes.now }
    ensures value { result ≡ first_of (list_faults bytes.now) }
    ensures room { IfNone result (list_at bytes.now + 8 + 20 * count_in bytes.now ≤ length bytes.now) }
{
    let size = bytes.len() as u64;
    let list = field64(bytes, 40);
    if list < 48 || list > size - 8 {
        return Some(PresetFault::BadListOffset);
    }
    let at = list as usize;
    if &bytes[at..at + 4] != b"List".as_slice() {
        return Some(PresetFault::BadListId);
    }
    let count = field32(bytes, at + 4);
    if count > MOST_ENTRIES || list + 8 + 20 * u64::from(count) > size {
        return Some(PresetFault::BadCount(count));
    }
    None
}

/// The class, where all of its digits are hexadecimal.
#[tactic(auto, using(crate::proofs::Faults::head_digits))]
fn class_of(bytes: &[u8]) -> Tuid
    requires short { 48 ≤ length bytes.now }
    requires digits { first_of (head_faults bytes.now) ≡ None }
    ensures { decode_of (class_digits bytes.now) ≡ Ok result.0 }
{
    let mut digits = [0; 32];
    digits.copy_from_slice(&bytes[8..40]);
    Tuid::read(&digits).unwrap()
}

/// The entry with which these bytes begin.
fn read_entry(bytes: &[u8]) -> PresetEntry
    requires { 20 ≤ length bytes.now }
    ensures { result ≡ entry_of bytes.now }
{
    let mut id = [0; 4];
    id.copy_from_slice(&bytes[..4]);
    PresetEntry {
        id,
        at: field64(bytes, 4),
        size: field64(bytes, 12),
    }
}

/// Whether a chunk begins in the head or passes the end of a file of this size.
fn is_out(entry: &PresetEntry, size: u64) -> bool
    ensures { result ≡ is_out size entry.now }
{
    match entry.at.checked_add(entry.size) {
        Some(end) => entry.at < 48 || end > size,
        None => true,
    }
}

/// Reads the entries of the chunk list, each of which is there.
#[tactic(auto, using(crate::proofs::Faults::range_at, crate::proofs::Faults::range_nowhere))]
fn read_entries(alloc: Global, bytes: &[u8]) -> Result<Vec<PresetEntry>, Refusal<PresetFault>>
    requires head { 48 ≤ length bytes.now }
    requires list { list_at bytes.now + 8 + 20 * count_in bytes.now ≤ length bytes.now }
    ensures entries { IfOk result (λ entries. entries.items ≡ entries_in bytes.now) }
    ensures within { IfOk result (λ entries. All (IsWithin (length bytes.now)) entries.items) }
    ensures faultless { OnOk result (range_fault bytes.now ≡ None) }
    ensures refused { (fault : Fault_) → result ≡ Err (Refusal.Fault fault) → range_fault bytes.now ≡ Some fault }
{
    let list = field64(bytes, 40) as usize;
    let count = field32(bytes, list + 4);
    let size = bytes.len() as u64;
    let mut entries = Vec::with_capacity(alloc, count as usize)?;
    for i in 0..count {
        let entry = read_entry(&bytes[list + 8 + 20 * i as usize..]);
        if is_out(&entry, size) {
            return Err(Refusal::Fault(PresetFault::BadRange(i)));
        }
        entries.push_reserved(entry);
    }
    Ok(entries)
}

/// Reads a preset file, whose bytes are moved into the preset. Reading costs by the entries and not by the
/// bytes of the chunks.
///
/// Refused for the first fault in the order of [`PresetFault`].
#[tactic(auto, using(crate::proofs::Faults::fault_none, crate::proofs::Faults::fault_of_head, crate::proofs::Faults::fault_of_list, crate::proofs::Faults::fault_of_range))]
pub fn read(alloc: Global, bytes: Vec<u8>) -> Result<Preset, Refusal<PresetFault>>
    ensures preset { IfOk result (λ preset. IsPreset bytes.items (contents_of preset)) }
    ensures moved { IfOk result (λ preset. preset.bytes ≡ bytes) }
    ensures refused { (fault : Fault_) → result ≡ Err (Refusal.Fault fault) → preset_fault bytes.items ≡ Some fault }
{
    if let Some(fault) = head_fault(&bytes) {
        return Err(Refusal::Fault(fault));
    }
    if let Some(fault) = list_fault(&bytes) {
        return Err(Refusal::Fault(fault));
    }
    let entries = match read_entries(alloc, &bytes) {
        Ok(entries) => entries,
        Err(refusal) => return Err(refusal),
    };
    Ok(Preset {
        class: class_of(&bytes),
        version: field32(&bytes, 4),
        entries,
        bytes,
    })
}
