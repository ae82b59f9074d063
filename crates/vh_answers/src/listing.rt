//! The listing of a preset.

ghost use Rattle.std.specs.Prelude.{◌≡◌, ◌≤◌, ◌<◌, ◌+◌, ◌++◌, ◌∷◌, [], length, codes};
ghost use Rattle.std.specs.Fmt.{decimal};
ghost use Rattle.hex.specs.Hex.{encode_upper};
ghost use Rattle.vh_preset.specs.Seen.{contents_of};
ghost use Rattle.vh_text.specs.Written.{line_text};
ghost use Rattle.vh_answers.specs.Outside.{voice};
ghost use Rattle.vh_answers.specs.Listing.{class_words, chunk_words, first_lines, chunks_text, listing_text};
ghost use Rattle.vh_answers.specs.Told.{IsTold, written_in};

use crate::line::Line;
use vh_files::{Failed, Say};
use vh_ids::Tuid;
use vh_preset::{Preset, PresetEntry};

/// The digits of a chunk's id, in upper case.
fn digits_of(id: &[u8; 4]) -> [u8; 8]
    ensures { result ≡ encode_upper id.now }
{
    let mut text = [0u8; 8];
    let _ = hex::encode_to_slice(id.as_slice(), &mut text);
    text.make_ascii_uppercase();
    text
}

/// `class` and the digits of the class.
fn say_class<Y: Say>(line: &mut Line, say: &mut Y, class: &Tuid) -> Result<(), Failed>
    ensures { IsTold result (voice Y.Say say.old) (voice Y.Say say.new) (line_text (codes "class" ∷ encode_upper class.now.0 ∷ [])) }
{
    let digits = class.write_upper();
    line.begin(b"class");
    line.word(&digits);
    line.say(say)
}

/// `version V`
fn say_version<Y: Say>(line: &mut Line, say: &mut Y, version: u32) -> Result<(), Failed>
    ensures { IsTold result (voice Y.Say say.old) (voice Y.Say say.new) (line_text (codes "version" ∷ decimal version ∷ [])) }
{
    line.begin(b"version");
    line.number(version);
    line.say(say)
}

/// `chunk ID OFFSET SIZE`
fn say_chunk<Y: Say>(line: &mut Line, say: &mut Y, entry: &PresetEntry) -> Result<(), Failed>
    ensures { IsTold result (voice Y.Say say.old) (voice Y.Say say.new) (line_text (chunk_words entry.now)) }
{
    let digits = digits_of(&entry.id);
    line.begin(b"chunk");
    line.word(&digits);
    line.long(entry.at);
    line.long(entry.size);
    line.say(say)
}

/// The lines of all entries.
fn say_chunks<Y: Say>(line: &mut Line, say: &mut Y, entries: &[PresetEntry]) -> Result<(), Failed>
    ensures { IsTold result (voice Y.Say say.old) (voice Y.Say say.new) (chunks_text entries.now) }
{
    for entry in entries {
        say_chunk(line, say, entry)?;
    }
    Ok(())
}

/// The lines before those of the entries.
fn say_first<Y: Say>(line: &mut Line, say: &mut Y, preset: &Preset) -> Result<(), Failed>
    ensures { IsTold result (voice Y.Say say.old) (voice Y.Say say.new) (first_lines (contents_of preset.now)) }
{
    line.begin(b"vsthost preset 1");
    line.say(say)?;
    say_class(line, say, &preset.class)?;
    say_version(line, say, preset.version)
}

/// The line behind all others.
fn say_close<Y: Say>(line: &mut Line, say: &mut Y) -> Result<(), Failed>
    ensures { IsTold result (voice Y.Say say.old) (voice Y.Say say.new) (line_text (codes "close" ∷ [])) }
{
    line.begin(b"close");
    line.say(say)
}

/// Says what a preset has: its class, its version, and its chunks. Where a write fails, a front part of it was said.
pub fn say_listing<Y: Say>(line: &mut Line, say: &mut Y, preset: &Preset) -> Result<(), Failed>
    ensures { IsTold result (voice Y.Say say.old) (voice Y.Say say.new) (listing_text (contents_of preset.now)) }
{
    say_first(line, say, preset)?;
    say_chunks(line, say, &preset.entries)?;
    say_close(line, say)
}
