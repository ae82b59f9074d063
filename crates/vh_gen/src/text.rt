//! What is said of a number.

ghost use Rattle.std.specs.Prelude.{◌≡◌, ◌++◌, IfOk, OnOk};
ghost use Rattle.vh_text.specs.Written.{line_text, written};
ghost use Rattle.vh_gen.specs.Summary.{count_words, summary_text};

use crate::sums::Sums;
use itoa::Buffer;
use std::alloc::{AllocError, Global};
use vh_text::Writer;

/// A name and a number, as a line or the end of one.
fn write_count(writer: &mut Writer, name: &[u8], count: u64) -> Result<(), AllocError>
    ensures { OnOk result (written writer.new ≡ written writer.old ++ line_text (count_words name.now count)) }
{
    let mut digits = Buffer::new();
    writer.begin(name)?;
    writer.word(digits.format(count).as_bytes())?;
    writer.end()
}

/// The lines on a number whose session has so many nodes, and its journal so many entries.
pub fn summary(
    alloc: Global,
    number: u32,
    nodes: u32,
    entries: usize,
    sums: Sums,
) -> Result<Vec<u8>, AllocError>
    ensures { IfOk result (λ text. text.items ≡ summary_text number nodes entries sums.pieces sums.sum) }
{
    let mut writer = Writer::new(alloc);
    writer.begin(b"vsthost")?;
    writer.word(b"gen")?;
    writer.number(number)?;
    writer.end()?;
    write_count(&mut writer, b"nodes", u64::from(nodes))?;
    write_count(&mut writer, b"entries", entries as u64)?;
    write_count(&mut writer, b"pieces", u64::from(sums.pieces))?;
    write_count(&mut writer, b"sum", sums.sum)?;
    writer.begin(b"close")?;
    writer.end()?;
    Ok(writer.finish())
}
