//! The line of an answer.

ghost use Rattle.std.specs.Prelude.{◌≡◌, ◌≤◌, ◌+◌, ◌++◌, ◌∷◌, [], length, codes};
ghost use Rattle.vh_answers.specs.Outside.{voice};
ghost use Rattle.vh_answers.specs.Told.{IsTold};
ghost use Rattle.vh_answers.specs.Refusals.{wav_number, place_name, node_word, SaysOf};
ghost use Rattle.vh_answers.specs.declared.status.Status.TheVariants as status;
ghost use Rattle.vh_text.specs.Written.{line_text};
ghost use Rattle.std.specs.Fmt.{decimal};
ghost use Rattle.vh_answers.specs.Told.{written_in};
ghost use Rattle.vh_preset.specs.Numbers.{refusal_number};

use crate::line::Line;
use crate::status::{Place, Status};
use vh_files::{Failed, Say};
use vh_preset::PresetRefusal;
use vh_wav::WavFault;

fn wav_number(fault: WavFault) -> u32
    ensures { result ≡ wav_number fault }
{
    match fault {
        WavFault::NotRiff => 1,
        WavFault::NoFmt => 2,
        WavFault::BadFmt => 3,
        WavFault::Unsupported(_, _) => 4,
        WavFault::NoData => 5,
        WavFault::Truncated => 6,
        WavFault::OtherChannels(_) => 7,
    }
}

fn place_name(place: Place) -> &'static [u8]
    ensures name { result.now ≡ place_name place }
    ensures most { length result.now ≤ 7 }
{
    match place {
        Place::Session => b"session",
        Place::Preset => b"preset",
        Place::Input => b"input",
        Place::Journal => b"journal",
        Place::Output => b"output",
        Place::Report => b"report",
    }
}

/// Says that a text is refused for a fault of this kind in a line of it.
fn say_fault<Y: Say>(
    line: &mut Line,
    say: &mut Y,
    text: &[u8],
    at: u32,
    kind: u8,
) -> Result<(), Failed>
    requires { length text.now ≤ 7 }
    ensures { IsTold result (voice Y.Say say.old) (voice Y.Say say.new) (line_text (codes "refused" ∷ text.now ∷ decimal at ∷ decimal kind ∷ [])) }
{
    line.begin(b"refused");
    line.word(text);
    line.number(at);
    line.number(u32::from(kind));
    line.say(say)
}

/// Says that a call on a file failed.
fn say_failed<Y: Say>(line: &mut Line, say: &mut Y, call: &[u8], place: Place) -> Result<(), Failed>
    requires { length call.now ≤ 5 }
    ensures { IsTold result (voice Y.Say say.old) (voice Y.Say say.new) (line_text (codes "failed" ∷ call.now ∷ place_name place ∷ [])) }
{
    line.begin(b"failed");
    line.word(call);
    line.word(place_name(place));
    line.say(say)
}

/// Says that the words are no command.
fn say_usage<Y: Say>(line: &mut Line, say: &mut Y) -> Result<(), Failed>
    ensures { IsTold result (voice Y.Say say.old) (voice Y.Say say.new) (line_text (codes "refused" ∷ codes "usage" ∷ [])) }
{
    line.begin(b"refused usage");
    line.say(say)
}

/// Says that the input is refused for a fault.
fn say_wav<Y: Say>(line: &mut Line, say: &mut Y, fault: WavFault) -> Result<(), Failed>
    ensures { IsTold result (voice Y.Say say.old) (voice Y.Say say.new) (line_text (codes "refused" ∷ codes "wav" ∷ decimal (wav_number fault) ∷ [])) }
{
    line.begin(b"refused wav");
    line.number(wav_number(fault));
    line.say(say)
}

/// Adds the number of a node to a line, or a dash for none.
fn put_node(line: &mut Line, node: Option<u32>)
    requires { length (written_in line.old) ≤ 116 }
    ensures text { written_in line.new ≡ written_in line.old ++ 32 ∷ node_word node }
    ensures long { length (written_in line.new) ≤ length (written_in line.old) + 11 }
{
    match node {
        Some(node) => line.number(node),
        None => line.word(b"-"),
    }
}

/// Says that a preset is refused.
fn say_preset<Y: Say>(
    line: &mut Line,
    say: &mut Y,
    node: Option<u32>,
    kind: PresetRefusal,
) -> Result<(), Failed>
    ensures { IsTold result (voice Y.Say say.old) (voice Y.Say say.new) (line_text (codes "refused" ∷ codes "preset" ∷ node_word node ∷ decimal (refusal_number kind) ∷ [])) }
{
    line.begin(b"refused preset");
    put_node(line, node);
    line.number(u32::from(kind.number()));
    line.say(say)
}

/// Says that a file can't be written. Of the report nothing is said.
fn say_unwritten<Y: Say>(line: &mut Line, say: &mut Y, place: Place)
    ensures said { SaysOf (status.WriteFault place) (voice Y.Say say.old) (voice Y.Say say.new) }
    ensures faults { Y.faults say.old ≤ Y.faults say.new }
{
    match place {
        Place::Report => {}
        _ => {
            let _ = say_failed(line, say, b"write", place);
        }
    }
}

/// Says the line of an answer that refuses, and nothing of another. Where a write fails, a front part of the line was
/// said.
pub fn say_refusal<Y: Say>(line: &mut Line, say: &mut Y, status: &Status)
    ensures said { SaysOf status.now (voice Y.Say say.old) (voice Y.Say say.new) }
    ensures faults { Y.faults say.old ≤ Y.faults say.new }
{
    let _ = match *status {
        Status::Ok | Status::Memory => Ok(()),
        Status::Usage => say_usage(line, say),
        Status::SessionRefused(fault) => say_fault(
            line,
            say,
            b"session",
            fault.line,
            fault.kind.number(),
        ),
        Status::WavRefused(fault) => say_wav(line, say, fault),
        Status::PresetRefused { node, kind } => say_preset(line, say, node, kind),
        Status::JournalRefused(fault) => say_fault(
            line,
            say,
            b"journal",
            fault.line,
            fault.kind.number(),
        ),
        Status::ReadFault(place) => say_failed(line, say, b"read", place),
        Status::WriteFault(place) => {
            say_unwritten(line, say, place);
            Ok(())
        }
    };
}
