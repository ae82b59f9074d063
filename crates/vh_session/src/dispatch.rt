//! What a line says, by its first word.

ghost use Rattle.std.specs.Prelude.{◌≡◌, ◌≤◌, length, IfOk};
ghost use Rattle.vh_params.specs.ClassList.{classes_of};
ghost use Rattle.vh_session.specs.LineKinds.{least_words, most_words};
ghost use Rattle.vh_session.specs.Lines.{line_of_kind, line_of_word};
ghost use Rattle.vh_session.specs.View.{told, draft_in, entry_of};
ghost use Rattle.vh_session.specs.Follows.{MayFollow};
ghost use Rattle.vh_text.specs.Tokens.{texts};

use crate::draft::Draft;
use crate::entry::Entry;
use crate::fault::SessionKind;
use crate::kind::LineKind;
use crate::rules::arity;
use vh_params::Classes;

impl Draft {
    /// What a line of this kind and these words behind its first says.
    fn line_of_kind<'a>(
        &self,
        classes: &'a Classes,
        kind: LineKind,
        words: &[&'a [u8]],
    ) -> Result<Entry<'a>, SessionKind>
        requires least { least_words kind ≤ length words.now }
        requires most { length words.now ≤ most_words kind }
        ensures says { told result ≡ line_of_kind (classes_of classes.now) (draft_in self.now) kind (texts words.now) }
        ensures follows { IfOk result (λ entry. MayFollow (draft_in self.now) (entry_of entry)) }
    {
        match kind {
            LineKind::Length => self.length_line(words[0]),
            LineKind::Channels => self.channels_line(words[0]),
            LineKind::Bits => self.bits_line(words[0]),
            LineKind::Pattern => self.pattern_line(words),
            LineKind::Node => self.node_line(classes, words[0], words[1]),
            LineKind::Preset => self.preset_line(words[0], words[1]),
            LineKind::Param => self.param_line(words[0], words[1], words[2]),
            LineKind::Wire => self.wire_line(words[0], words[1], words.get(2).copied()),
            LineKind::Lane => self.lane_line(words[0], words[1], words[2], words[3], words[4]),
            LineKind::Point => self.point_line(words[0], words[1]),
            LineKind::Editor => self.editor_line(words[0]),
            LineKind::Begin => self.begin_line(words[0], words[1]),
            LineKind::Perform => self.perform_line(words[0], words[1], words[2]),
            LineKind::End => self.end_line(words[0], words[1]),
            LineKind::Tell => self.tell_line(words[0], &words[1..]),
            LineKind::Hold => self.hold_line(words[0]),
            LineKind::Drop => self.drop_line(words[0]),
            LineKind::Wait => self.wait_line(words[0]),
        }
    }

    /// What a line of this first word and these words behind it says.
    pub(crate) fn line_of_word<'a>(
        &self,
        classes: &'a Classes,
        first: &[u8],
        words: &[&'a [u8]],
    ) -> Result<Entry<'a>, SessionKind>
        ensures says { told result ≡ line_of_word (classes_of classes.now) (draft_in self.now) first.now (texts words.now) }
        ensures follows { IfOk result (λ entry. MayFollow (draft_in self.now) (entry_of entry)) }
    {
        let Some(kind) = LineKind::named(first) else {
            return Err(SessionKind::UnknownWord);
        };
        arity(words.len(), kind.least_words(), kind.most_words())?;
        self.line_of_kind(classes, kind, words)
    }
}
