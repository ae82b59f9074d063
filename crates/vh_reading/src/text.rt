//! Reading a text.

ghost use Rattle.std.specs.Prelude.{◌≡◌, ◌≤◌, ◌<◌, ◌^◌, length, IfOk, IfErr};
ghost use Rattle.vh_answers.specs.Outside.{store, OnlyReads};
ghost use Rattle.vh_answers.specs.Refusals.{IsRefusal};
ghost use Rattle.vh_answers.specs.Steps.{Gives, Halts};
ghost use Rattle.vh_reading.specs.Reading.{text_step};

use std::alloc::Global;
use vh_answers::{Place, Status};
use vh_files::{Files, fill};

/// Reads the bytes of a text. One that has more than the limit is refused by `long`, before it is read.
pub fn read_text<F: Files>(
    alloc: Global,
    files: &mut F,
    name: &str,
    place: Place,
    limit: u64,
    long: Status,
) -> Result<Vec<u8>, Status>
    requires limit { limit < 2 ^ 63 }
    requires refuses { IsRefusal long }
    ensures gives { IfOk result (λ text. Gives (store F.Files files.old) (text_step place name.now limit long) text.items) }
    ensures within { IfOk result (λ text. length text.items ≤ limit) }
    ensures stop { IfErr result (Halts (store F.Files files.old) (store F.Files files.new) (text_step place name.now limit long)) }
    ensures only_read { OnlyReads (store F.Files files.old) (store F.Files files.new) }
{
    let Ok(size) = files.size(name) else {
        return Err(Status::ReadFault(place));
    };
    if size > limit {
        return Err(long);
    }
    let Ok(mut text) = vec![in alloc; 0u8; size as usize] else {
        return Err(Status::Memory);
    };
    let Ok(got) = fill(files, name, 0, text.as_mut_slice()) else {
        return Err(Status::ReadFault(place));
    };
    text.truncate(got);
    Ok(text)
}
