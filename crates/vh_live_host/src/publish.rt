//! What is written and said of a live rendering.

ghost use Rattle.std.specs.Prelude.{◌≡◌, ◌≤◌, ◌<◌, ◌*◌, ◌^◌, ℕ, List, [], ◌∷◌, length, map, All};
ghost use Rattle.vh_cut.specs.Cut.{pieces_of};
ghost use Rattle.vh_params.specs.Nodes.{nodes_of};
ghost use Rattle.vh_session.specs.Names.{content_of};
ghost use Rattle.vh_answers.specs.declared.status.Place.TheVariants.{Output as OutputPlace, Journal as JournalPlace};
ghost use Rattle.vh_answers.specs.Outside.{outside, ChangesOnly, KeepsCounts};
ghost use Rattle.vh_answers.specs.Report.{report_text, answer_of};
ghost use Rattle.vh_answers.specs.Steps.{Last, EndsUnsaid};
ghost use Rattle.vh_host.specs.Named.{status_of};
ghost use Rattle.vh_live_host.specs.Waves.{IsWave, wave_text};

use crate::file::write_file;
use crate::results::Results;
use crate::wave::Wave;
use crate::words::Live;
use vh_answers::{Place, Report, Status};
use vh_files::{Files, Say};
use vh_params::Reply;
use vh_session::Session;

/// Writes the frames and the journal, and says the report. Nothing here takes memory.
pub(crate) fn publish<F: Files, Y: Say>(
    live: &Live<'_>,
    session: &Session,
    wave: &Wave<'_>,
    replies: &[Reply],
    results: &mut Results,
    files: &mut F,
    say: &mut Y,
) -> Result<(), Status>
    requires wave { IsWave wave.now }
    requires room { length results.old.room.items ≡ 24576 * wave.now.channels }
    requires values { All (λ value. value ≤ 2 ^ 24) results.old.values.items }
    requires modes { length results.old.modes.items ≡ length (nodes_of session.now.nodes) }
    requires replies { All (λ reply. reply.node < length (nodes_of session.now.nodes)) replies.now }
    requires editors { length results.old.editors.items < 2 ^ 32 }
    ensures ends { (calls : ℕ) → EndsUnsaid (λ n. n ≡ calls) (outside F.Files Y.Say files.old files.new say.old say.new)
        (Last (record { place = OutputPlace; name = live.now.output.now; apart = live.now.input.now ∷ live.now.journal.now ∷ []; text = wave_text wave.now }
        ∷ record { place = JournalPlace; name = live.now.journal.now; apart = live.now.input.now ∷ live.now.output.now ∷ []; text = results.old.journal.items } ∷ [])
        (report_text (content_of session.now) results.old.values.items results.old.modes.items (length (pieces_of wave.now.frames wave.now.sizes.now [])) (map answer_of replies.now) results.old.editors.items) calls) (status_of result) }
    ensures others { ChangesOnly (live.now.output.now ∷ live.now.journal.now ∷ []) (F.held files.old) (F.held files.new) }
    ensures counts { KeepsCounts (outside F.Files Y.Say files.old files.new say.old say.new) }
{
    let Ok(pieces) = wave.write(files, live.output, &mut results.room) else {
        return Err(Status::WriteFault(Place::Output));
    };
    let Ok(()) = write_file(files, live.journal, &results.journal) else {
        return Err(Status::WriteFault(Place::Journal));
    };
    let report = Report {
        pieces,
        values: &results.values,
        modes: &results.modes,
        replies,
        editors: &results.editors,
    };
    match report.say(session, &mut results.line, say) {
        Ok(()) => Ok(()),
        Err(_) => Err(Status::WriteFault(Place::Report)),
    }
}
