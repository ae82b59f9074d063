//! Writing a preset file.

ghost use Rattle.std.specs.Prelude.{◌≡◌, ◌≤◌, ◌++◌, ◌<◌, ◌^◌, IfOk, OnOk, length, map, option_copied};
ghost use Rattle.byteorder.specs.Endian.{little_bytes};
ghost use Rattle.vh_preset.specs.Chunks.{chunks_of, parts_of, chunks_size, present};
ghost use Rattle.vh_preset.specs.Parts.{part_of, given_size, given_bytes};
ghost use Rattle.vh_preset.specs.Text.{head_text, entry_text, entries_text, list_text, preset_text};

use crate::chunks::Chunks;
use byteorder::{ByteOrder, LittleEndian};
use std::alloc::{AllocError, Global};
use vh_ids::Tuid;

/// A chunk that is present.
#[derive(Clone, Copy)]
struct Part<'a> {
    id: [u8; 4],
    bytes: &'a [u8],
}

/// Adds a chunk, where it is present.
fn add_part<'a>(
    parts: &mut Vec<Part<'a>>,
    id: [u8; 4],
    chunk: Option<&'a [u8]>,
) -> Result<(), AllocError>
    ensures { OnOk result (map part_of parts.new.items ≡ map part_of parts.old.items ++ present id (option_copied chunk.entry)) }
{
    if let Some(bytes) = chunk {
        parts.push(Part { id, bytes })?;
    }
    Ok(())
}

/// The chunks that are present, in the order in which they are written.
fn parts_of<'a>(alloc: Global, chunks: &Chunks<'a>) -> Result<Vec<Part<'a>>, AllocError>
    ensures { IfOk result (λ parts. map part_of parts.items ≡ parts_of (chunks_of chunks.now)) }
{
    let mut parts = Vec::with_capacity(alloc, 4)?;
    add_part(&mut parts, *b"Comp", chunks.comp)?;
    add_part(&mut parts, *b"Cont", chunks.cont)?;
    add_part(&mut parts, *b"Prog", chunks.prog)?;
    add_part(&mut parts, *b"Info", chunks.info)?;
    Ok(parts)
}

/// How many bytes the chunks have together.
#[tactic(auto, using(std::proofs::lemmas::List::Sums::sum_by_more_le, std::proofs::lemmas::List::Sums::sum_by_more))]
fn size_of(parts: &[Part<'_>]) -> u64
    requires { given_size parts.now ≤ 2 ^ 30 }
    ensures { result ≡ given_size parts.now }
{
    let mut size = 0;
    for part in parts {
        size += part.bytes.len() as u64;
    }
    size
}

/// Appends a number of four bytes.
fn put_u32(file: &mut Vec<u8>, number: u32) -> Result<(), AllocError>
    ensures { OnOk result (file.new.items ≡ file.old.items ++ little_bytes 4 number) }
{
    let mut field = [0; 4];
    LittleEndian::write_u32(&mut field, number);
    file.extend_from_slice(&field)
}

/// Appends a number of eight bytes.
fn put_u64(file: &mut Vec<u8>, number: u64) -> Result<(), AllocError>
    ensures { OnOk result (file.new.items ≡ file.old.items ++ little_bytes 8 number) }
{
    let mut field = [0; 8];
    LittleEndian::write_u64(&mut field, number);
    file.extend_from_slice(&field)
}

/// Appends the head of a file of this class, whose chunk list stands at this place.
fn put_head(file: &mut Vec<u8>, class: &Tuid, list: u64) -> Result<(), AllocError>
    ensures { OnOk result (file.new.items ≡ file.old.items ++ head_text class.now list) }
{
    file.extend_from_slice(b"VST3")?;
    put_u32(file, 1)?;
    file.extend_from_slice(&class.write_upper())?;
    put_u64(file, list)
}

/// Appends the bytes of the chunks.
fn put_chunks(file: &mut Vec<u8>, parts: &[Part<'_>]) -> Result<(), AllocError>
    ensures { OnOk result (file.new.items ≡ file.old.items ++ given_bytes parts.now) }
{
    for part in parts {
        file.extend_from_slice(part.bytes)?;
    }
    Ok(())
}

/// Appends the entry of a chunk at this place.
fn put_entry(file: &mut Vec<u8>, part: &Part<'_>, at: u64) -> Result<(), AllocError>
    ensures { OnOk result (file.new.items ≡ file.old.items ++ entry_text at (part_of part.now)) }
{
    file.extend_from_slice(&part.id)?;
    put_u64(file, at)?;
    put_u64(file, part.bytes.len() as u64)
}

/// Appends the entries of chunks that stand one after the other from the head on.
#[tactic(auto, using(std::proofs::lemmas::List::Sums::sum_by_more_le))]
fn put_entries(file: &mut Vec<u8>, parts: &[Part<'_>]) -> Result<(), AllocError>
    requires { given_size parts.now ≤ 2 ^ 30 }
    ensures { OnOk result (file.new.items ≡ file.old.items ++ entries_text 48 (map part_of parts.now)) }
{
    let mut at = 48;
    for part in parts {
        put_entry(file, part, at)?;
        at += part.bytes.len() as u64;
    }
    Ok(())
}

/// Appends the list of these chunks.
fn put_list(file: &mut Vec<u8>, parts: &[Part<'_>]) -> Result<(), AllocError>
    requires few { length parts.now < 2 ^ 32 }
    requires size { given_size parts.now ≤ 2 ^ 30 }
    ensures { OnOk result (file.new.items ≡ file.old.items ++ list_text (map part_of parts.now)) }
{
    file.extend_from_slice(b"List")?;
    put_u32(file, parts.len() as u32)?;
    put_entries(file, parts)
}

/// The canonical preset file of a class with these chunks, which have at most 2^30 bytes together: version 1,
/// upper-case digits, the chunks in the order `Comp`, `Cont`, `Prog`, `Info` one after the other, and their
/// list, which ends the file.
pub fn write(alloc: Global, class: &Tuid, chunks: &Chunks<'_>) -> Result<Vec<u8>, AllocError>
    requires { chunks_size (chunks_of chunks.now) ≤ 2 ^ 30 }
    ensures { IfOk result (λ file. file.items ≡ preset_text class.now (chunks_of chunks.now)) }
{
    let parts = parts_of(alloc, chunks)?;
    let size = size_of(&parts);
    let mut file = Vec::with_capacity(alloc, 56 + size as usize + 20 * parts.len())?;
    put_head(&mut file, class, 48 + size)?;
    put_chunks(&mut file, &parts)?;
    put_list(&mut file, &parts)?;
    Ok(file)
}
