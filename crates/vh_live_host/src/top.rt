//! The top call.

ghost use Rattle.std.specs.Prelude.{◌≡◌, ◌≤◌, ℕ, map, Some};
ghost use Rattle.std.specs.String.{string_bytes};
ghost use Rattle.vh_plugin.specs.Counts.{raised_by};
ghost use Rattle.vh_answers.specs.declared.status.Status.TheVariants as status;
ghost use Rattle.vh_answers.specs.Outside.{outside, ChangesOnly, KeepsCounts};
ghost use Rattle.vh_answers.specs.Steps.{EndsUnsaid, Answers, IsUnhindered, IsDone};
ghost use Rattle.vh_host.specs.Known.{Known, AreEnded};
ghost use Rattle.vh_live_host.specs.Words.{Live as Asked, live_in, outputs_of};
ghost use Rattle.vh_live_host.specs.Commands.{steps_in, asked_in};
ghost use Rattle.vh_live_host.specs.Headline.{Headline};

use crate::live::live;
use crate::words::read_words;
use std::alloc::Global;
use std::sync::Wait;
use std::thread::Threads;
use vh_answers::{Line, Status, say_refusal};
use vh_files::{Files, Gate, Say};
use vh_legal_text::laws::legal_reads_back;
use vh_plugin::PluginSet;

/// Renders what words ask for. Of a refusal nothing is said.
///
/// A call of the set's `work` does nothing: the proof uses that the count is one of 64 bits.
fn run_words<R: Threads + Wait + Sync, F: Files, Y: Say, S: PluginSet, G: Gate + Sync>(
    rt: &R,
    alloc: Global,
    words: &[String],
    files: &mut F,
    say: &mut Y,
    set: &mut S,
    gate: &G,
) -> Status
    ensures ends { EndsUnsaid (λ calls. S.work set.new ≡ raised_by calls (S.work set.old)) (outside F.Files Y.Say files.old files.new say.old say.new)
        (steps_in (record { infos = S.infos set.old; code = S.code set.old; class_of = S.P.Processor.class_of }) (map string_bytes words.now)) result }
    ensures others { ChangesOnly (outputs_of (live_in (map string_bytes words.now))) (F.held files.old) (F.held files.new) }
    ensures counts { KeepsCounts (outside F.Files Y.Say files.old files.new say.old say.new) }
    ensures objects { AreEnded (S.made set.old) (S.ended set.old) (S.made set.new) (S.ended set.new) }
    ensures infos { S.infos set.new ≡ S.infos set.old }
    ensures codes { (class : ℕ) → S.code set.new class ≡ S.code set.old class }
{
    let Some(asked) = read_words(words) else {
        return Status::Usage;
    };
    let _ = set.work();
    match live(rt, alloc, &asked, files, say, set, gate) {
        Ok(()) => Status::Ok,
        Err(status) => status,
    }
}

/// Runs `live SESSION IN OUT JOURNAL`: renders a session, whose nodes are loaded with their presets, over the frames of IN,
/// a WAV file of the session's channels, while each of its editors works at its script in a thread of its own. What was
/// rendered is written into OUT, a WAV file of the session's bits and of IN's rate, and what the editors did into JOURNAL;
/// then the report is said. Behind the files `block=N`, N from 1 to 8192, may stand, as for `render`.
///
/// Whatever the threads do, the samples are the rendering over the written journal, in which each editor's accepted edits
/// and messages stand once and in its order.
///
/// A refusal or a fault is said as one line. No file but OUT and JOURNAL is changed, and none where the answer is a refusal
/// or `Memory`. All plug-ins that were made are ended.
///
/// It waits for its threads. `gate` is asked before each block and before each word. A call of a law does nothing: the proof
/// uses what it ensures.
pub fn run_live<R: Threads + Wait + Sync, F: Files, Y: Say, S: PluginSet, G: Gate + Sync>(
    rt: &R,
    alloc: Global,
    words: &[String],
    files: &mut F,
    say: &mut Y,
    set: &mut S,
    gate: &G,
) -> Status
    ensures headline { result ≡ status.Ok → (live : Asked) × (live_in (map string_bytes words.now) ≡ Some live)
        × Headline (record { infos = S.infos set.old; code = S.code set.old; class_of = S.P.Processor.class_of }) live (outside F.Files Y.Say files.old files.new say.old say.new)
        (record { made = S.made set.old; ended = S.ended set.old; work = S.work set.old }) (record { made = S.made set.new; ended = S.ended set.new; work = S.work set.new }) }
    ensures answer { Answers (λ calls. S.work set.new ≡ raised_by calls (S.work set.old)) (outside F.Files Y.Say files.old files.new say.old say.new)
        (steps_in (record { infos = S.infos set.old; code = S.code set.old; class_of = S.P.Processor.class_of }) (map string_bytes words.now)) result }
    ensures others { ChangesOnly (outputs_of (live_in (map string_bytes words.now))) (F.held files.old) (F.held files.new) }
    ensures counts { KeepsCounts (outside F.Files Y.Say files.old files.new say.old say.new) }
    ensures completes { IsUnhindered (outside F.Files Y.Say files.old files.new say.old say.new)
        (asked_in (record { infos = S.infos set.old; code = S.code set.old; class_of = S.P.Processor.class_of }) (map string_bytes words.now)) → IsDone result }
    ensures objects { AreEnded (S.made set.old) (S.ended set.old) (S.made set.new) (S.ended set.new) }
    ensures infos { S.infos set.new ≡ S.infos set.old }
    ensures codes { (class : ℕ) → S.code set.new class ≡ S.code set.old class }
{
    legal_reads_back();
    let Ok(mut line) = Line::new(alloc) else {
        return Status::Memory;
    };
    let status = run_words(rt, alloc, words, files, say, set, gate);
    say_refusal(&mut line, say, &status);
    status
}
