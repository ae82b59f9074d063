//! The top call.

ghost use Rattle.std.specs.Prelude.{◌≡◌, ◌≤◌, ℕ, map, Some};
ghost use Rattle.std.specs.String.{string_bytes};
ghost use Rattle.vh_plugin.specs.Counts.{raised_by};
ghost use Rattle.vh_answers.specs.Outside.{outside, ChangesOnly, KeepsCounts};
ghost use Rattle.vh_answers.specs.Steps.{EndsUnsaid, Answers, IsUnhindered, IsDone};
ghost use Rattle.vh_host.specs.Words.{command_in};
ghost use Rattle.vh_host.specs.Known.{Known, AreEnded};
ghost use Rattle.vh_host.specs.Commands.{steps_in, command_steps, outputs_of};
ghost use Rattle.vh_host.specs.Named.{command_of, status_of, IsSized};
ghost use Rattle.vh_host.specs.Serves.{Serves};

use crate::check::check;
use crate::generated::generated;
use crate::preset_save::preset_save;
use crate::preset_show::preset_show;
use crate::render::render;
use crate::words::{Command, read_words};
use std::alloc::Global;
use vh_answers::{Line, Status, say_refusal};
use vh_files::{Files, Say};
use vh_plugin::PluginSet;

/// Runs a command. A call of the set's `work` does nothing: the proof uses that the count is one of 64 bits.
fn run_command<F: Files, Y: Say, S: PluginSet>(
    alloc: Global,
    command: &Command<'_>,
    files: &mut F,
    say: &mut Y,
    set: &mut S,
) -> Result<(), Status>
    requires sized { IsSized (command_of command.now) }
    requires serves { Serves (Some (command_of command.now)) (S.infos set.old) }
    ensures ends { EndsUnsaid (λ calls. S.work set.new ≡ raised_by calls (S.work set.old)) (outside F.Files Y.Say files.old files.new say.old say.new)
        (command_steps (record { infos = S.infos set.old; code = S.code set.old; class_of = S.P.Processor.class_of }) (command_of command.now)) (status_of result) }
    ensures others { ChangesOnly (outputs_of (Some (command_of command.now))) (F.held files.old) (F.held files.new) }
    ensures counts { KeepsCounts (outside F.Files Y.Say files.old files.new say.old say.new) }
    ensures objects { AreEnded (S.made set.old) (S.ended set.old) (S.made set.new) (S.ended set.new) }
    ensures infos { S.infos set.new ≡ S.infos set.old }
    ensures codes { (class : ℕ) → S.code set.new class ≡ S.code set.old class }
{
    let _ = set.work();
    match *command {
        Command::Render(files_asked) => render(alloc, &files_asked, files, say, set),
        Command::Check(name) => check(alloc, name, files, say, set.classes()),
        Command::PresetShow(name) => preset_show(alloc, name, files, say),
        Command::PresetSave(asked) => preset_save(alloc, &asked, files, set),
        Command::Gen(number) => generated(alloc, number, say, set),
    }
}

/// Runs the command that words are. Of a refusal nothing is said.
fn run_words<F: Files, Y: Say, S: PluginSet>(
    alloc: Global,
    words: &[String],
    files: &mut F,
    say: &mut Y,
    set: &mut S,
) -> Status
    requires { Serves (command_in (map string_bytes words.now)) (S.infos set.old) }
    ensures ends { EndsUnsaid (λ calls. S.work set.new ≡ raised_by calls (S.work set.old)) (outside F.Files Y.Say files.old files.new say.old say.new)
        (steps_in (record { infos = S.infos set.old; code = S.code set.old; class_of = S.P.Processor.class_of }) (map string_bytes words.now)) result }
    ensures others { ChangesOnly (outputs_of (command_in (map string_bytes words.now))) (F.held files.old) (F.held files.new) }
    ensures counts { KeepsCounts (outside F.Files Y.Say files.old files.new say.old say.new) }
    ensures objects { AreEnded (S.made set.old) (S.ended set.old) (S.made set.new) (S.ended set.new) }
    ensures infos { S.infos set.new ≡ S.infos set.old }
    ensures codes { (class : ℕ) → S.code set.new class ≡ S.code set.old class }
{
    let Some(command) = read_words(words) else {
        return Status::Usage;
    };
    match run_command(alloc, &command, files, say, set) {
        Ok(()) => Status::Ok,
        Err(status) => status,
    }
}

/// Runs a command, of these:
///
/// - `render SESSION IN OUT` renders a session, whose nodes are loaded with their presets, over the frames of IN, a WAV file
///   of the session's channels, into OUT, a WAV file of the session's bits and of IN's rate, and says the report.
/// - `replay SESSION IN OUT JOURNAL` renders it under the entries of a journal.
/// - `check SESSION` reads a session and says its canonical text; presets are not read.
/// - `preset-show FILE` says what a preset has: its class, its version, and its chunks.
/// - `preset-save SESSION NODE OUT` saves a node's class, its first values and its controller's state as the preset OUT,
///   and says nothing.
/// - `gen N` renders the session that is drawn from the number N, 1 to 10 digits below 2^32, over an input and under a
///   journal that are drawn too, and says how large they are and what the output adds up to. The set's first eight
///   classes are the built-in ones.
///
/// Behind the files of a rendering `block=N`, N from 1 to 8192, may stand: it cuts the rendering into blocks of N frames
/// in place of the session's pattern, and changes no sample.
///
/// A refusal or a fault is said as one line. No file but OUT is changed, and none where the answer is a refusal or
/// `Memory`. All plug-ins that were made are ended.
pub fn run<F: Files, Y: Say, S: PluginSet>(
    alloc: Global,
    words: &[String],
    files: &mut F,
    say: &mut Y,
    set: &mut S,
) -> Status
    requires { Serves (command_in (map string_bytes words.now)) (S.infos set.old) }
    ensures answer { Answers (λ calls. S.work set.new ≡ raised_by calls (S.work set.old)) (outside F.Files Y.Say files.old files.new say.old say.new)
        (steps_in (record { infos = S.infos set.old; code = S.code set.old; class_of = S.P.Processor.class_of }) (map string_bytes words.now)) result }
    ensures others { ChangesOnly (outputs_of (command_in (map string_bytes words.now))) (F.held files.old) (F.held files.new) }
    ensures counts { KeepsCounts (outside F.Files Y.Say files.old files.new say.old say.new) }
    ensures completes { IsUnhindered (outside F.Files Y.Say files.old files.new say.old say.new)
        (steps_in (record { infos = S.infos set.old; code = S.code set.old; class_of = S.P.Processor.class_of }) (map string_bytes words.now)) → IsDone result }
    ensures objects { AreEnded (S.made set.old) (S.ended set.old) (S.made set.new) (S.ended set.new) }
    ensures infos { S.infos set.new ≡ S.infos set.old }
    ensures codes { (class : ℕ) → S.code set.new class ≡ S.code set.old class }
{
    let Ok(mut line) = Line::new(alloc) else {
        return Status::Memory;
    };
    let status = run_words(alloc, words, files, say, set);
    say_refusal(&mut line, say, &status);
    status
}
