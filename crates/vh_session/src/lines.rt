//! What each kind of line says, after the lines before it.

ghost use Rattle.std.specs.Prelude.{◌≡◌, ◌≤◌, ◌==◌, length, option_copied, IfOk};
ghost use Rattle.std.specs.List.{list_any};
ghost use Rattle.vh_params.specs.ClassList.{classes_of};
ghost use Rattle.vh_session.specs.Lines.{length_line, channels_line, bits_line, node_line, preset_line, param_line, wire_line, lane_line, point_line, editor_line, script_line, begin_line, perform_line, end_line, pattern_line, tell_line, hold_line, drop_line, wait_line, has_preset, has_first, has_wire, lacks_bus, has_lane};
ghost use Rattle.vh_text.specs.Tokens.{texts};
ghost use Rattle.vh_session.specs.View.{told, draft_in, entry_of, script_word};
ghost use Rattle.vh_session.specs.Follows.{MayFollow};
ghost use Rattle.vh_session.specs.Entry.{last_sample, break_count};
ghost use Rattle.vh_session.specs.Limits.{most_sizes, most_numbers};

use crate::draft::Draft;
use crate::entry::{Entry, Sizes};
use crate::fault::SessionKind;
use crate::limits::{
    MOST_BREAKS, MOST_EDITORS, MOST_FILE, MOST_FRAMES, MOST_GRAIN, MOST_LANES, MOST_NODES,
    MOST_NUMBERS, MOST_SCRIPT_WORDS, MOST_SIZE, MOST_SIZES, MOST_WIRES,
};
use crate::numbers::numbers_within;
use crate::rules::{
    any_number, first_end, last_end, number_of_bits, number_within, settable_param, the_class,
    the_node,
};
use crate::wire::{End, Wire};
use vh_num::ONE;
use vh_params::{Classes, Command, Word, Words, is_name};

/// Whether one of these first values (id, value) is of this parameter.
fn has_id(firsts: &[(u32, u32)], id: u32) -> bool
    ensures { result ≡ list_any (λ first. first.0 == id) firsts.now }
{
    for first in firsts {
        if first.0 == id {
            return true;
        }
    }
    false
}

impl Draft {
    /// `length L`.
    pub(crate) fn length_line(&self, text: &[u8]) -> Result<Entry<'static>, SessionKind>
        ensures says { told result ≡ length_line (draft_in self.now) text.now }
        ensures follows { IfOk result (λ entry. MayFollow (draft_in self.now) (entry_of entry)) }
    {
        let length = number_within(text, 0, MOST_FRAMES)?;
        if self.frames.is_some() {
            return Err(SessionKind::Repeated);
        }
        Ok(Entry::Length(length))
    }

    /// `channels C`.
    pub(crate) fn channels_line(&self, text: &[u8]) -> Result<Entry<'static>, SessionKind>
        ensures says { told result ≡ channels_line (draft_in self.now) text.now }
        ensures follows { IfOk result (λ entry. MayFollow (draft_in self.now) (entry_of entry)) }
    {
        let channels = number_within(text, 1, 2)?;
        if self.channels.is_some() {
            return Err(SessionKind::Repeated);
        }
        Ok(Entry::Channels(channels))
    }

    /// `bits B`.
    pub(crate) fn bits_line(&self, text: &[u8]) -> Result<Entry<'static>, SessionKind>
        ensures says { told result ≡ bits_line (draft_in self.now) text.now }
        ensures follows { IfOk result (λ entry. MayFollow (draft_in self.now) (entry_of entry)) }
    {
        let bits = number_of_bits(text)?;
        if self.bits.is_some() {
            return Err(SessionKind::Repeated);
        }
        Ok(Entry::Bits(bits))
    }

    /// `pattern N ..`.
    pub(crate) fn pattern_line(&self, words: &[&[u8]]) -> Result<Entry<'static>, SessionKind>
        requires { length words.now ≤ most_sizes }
        ensures says { told result ≡ pattern_line (draft_in self.now) (texts words.now) }
        ensures follows { IfOk result (λ entry. MayFollow (draft_in self.now) (entry_of entry)) }
    {
        let mut list = [0u32; MOST_SIZES];
        numbers_within(words, 1, MOST_SIZE, &mut list)?;
        if !self.pattern.is_empty() {
            return Err(SessionKind::Repeated);
        }
        Ok(Entry::Pattern(Sizes {
            list,
            len: words.len(),
        }))
    }

    /// `node NAME CLASS`.
    pub(crate) fn node_line<'a>(
        &self,
        classes: &'a Classes,
        name: &'a [u8],
        class_name: &[u8],
    ) -> Result<Entry<'a>, SessionKind>
        ensures says { told result ≡ node_line (classes_of classes.now) (draft_in self.now) name.now class_name.now }
        ensures follows { IfOk result (λ entry. MayFollow (draft_in self.now) (entry_of entry)) }
    {
        if !is_name(name) {
            return Err(SessionKind::BadName);
        }
        let class = the_class(classes, class_name)?;
        if the_node(&self.nodes, name).is_ok() {
            return Err(SessionKind::DuplicateNode);
        }
        if self.nodes.len() >= MOST_NODES {
            return Err(SessionKind::TooMany);
        }
        Ok(Entry::Node { name, class })
    }

    /// Whether a node has a preset.
    fn has_preset(&self, node: u32) -> bool
        ensures { result ≡ has_preset (draft_in self.now).presets node }
    {
        match self.marks.get(node as usize) {
            Some(mark) => mark.preset.is_some(),
            None => false,
        }
    }

    /// `preset NODE FILE`.
    pub(crate) fn preset_line<'a>(
        &self,
        name: &[u8],
        file: &'a [u8],
    ) -> Result<Entry<'a>, SessionKind>
        ensures says { told result ≡ preset_line (draft_in self.now) name.now file.now }
        ensures follows { IfOk result (λ entry. MayFollow (draft_in self.now) (entry_of entry)) }
    {
        let node = the_node(&self.nodes, name)?;
        if file.len() > MOST_FILE {
            return Err(SessionKind::BadName);
        }
        if self.has_preset(node) {
            return Err(SessionKind::Repeated);
        }
        Ok(Entry::Preset { node, file })
    }

    /// Whether a parameter has a first value.
    fn has_first(&self, node: u32, id: u32) -> bool
        ensures { result ≡ has_first (draft_in self.now).firsts node id }
    {
        match self.marks.get(node as usize) {
            Some(mark) => has_id(&mark.firsts, id),
            None => false,
        }
    }

    /// `param NODE ID VALUE`.
    pub(crate) fn param_line(
        &self,
        name: &[u8],
        id: &[u8],
        value: &[u8],
    ) -> Result<Entry<'static>, SessionKind>
        ensures says { told result ≡ param_line (draft_in self.now) name.now id.now value.now }
        ensures follows { IfOk result (λ entry. MayFollow (draft_in self.now) (entry_of entry)) }
    {
        let node = the_node(&self.nodes, name)?;
        let param = settable_param(&self.nodes, node, id)?;
        let value = number_within(value, 0, ONE)?;
        if self.has_first(node, param.id) {
            return Err(SessionKind::Repeated);
        }
        Ok(Entry::Param {
            node,
            id: param.id,
            value,
        })
    }

    /// Whether this wire stands.
    fn has_wire(&self, wire: &Wire) -> bool
        ensures { result ≡ has_wire self.now.wires.items wire.now }
    {
        for other in &self.wires {
            if other == wire {
                return true;
            }
        }
        false
    }

    /// Whether a further word of a wire's line isn't `aux`, or asks for a bus that isn't there.
    fn lacks_bus(&self, to: End, further: Option<&[u8]>) -> bool
        ensures { result ≡ lacks_bus (draft_in self.now).aux to (option_copied further.entry) }
    {
        let Some(further) = further else {
            return false;
        };
        let has_aux = match to {
            End::Node(node) => match self.marks.get(node as usize) {
                Some(mark) => mark.aux,
                None => false,
            },
            _ => false,
        };
        !(further == b"aux".as_slice() && has_aux)
    }

    /// `wire FROM TO` and `wire FROM TO aux`.
    pub(crate) fn wire_line(
        &self,
        from: &[u8],
        to: &[u8],
        further: Option<&[u8]>,
    ) -> Result<Entry<'static>, SessionKind>
        ensures says { told result ≡ wire_line (draft_in self.now) from.now to.now (option_copied further.entry) }
        ensures follows { IfOk result (λ entry. MayFollow (draft_in self.now) (entry_of entry)) }
    {
        let from = first_end(&self.nodes, from)?;
        let to = last_end(&self.nodes, to)?;
        let wire = Wire {
            from,
            to,
            aux: further.is_some(),
        };
        if self.lacks_bus(to, further) || self.has_wire(&wire) {
            return Err(SessionKind::BadWire);
        }
        if self.wires.len() >= MOST_WIRES {
            return Err(SessionKind::TooMany);
        }
        Ok(Entry::Wire(wire))
    }

    /// Whether a parameter has a lane.
    fn has_lane(&self, node: u32, id: u32) -> bool
        ensures { result ≡ has_lane (draft_in self.now).lanes node id }
    {
        for lane in &self.lanes {
            if lane.node == node && lane.id == id {
                return true;
            }
        }
        false
    }

    /// `lane NODE ID GRAIN SAMPLE VALUE`.
    pub(crate) fn lane_line(
        &self,
        name: &[u8],
        id: &[u8],
        grain: &[u8],
        sample: &[u8],
        value: &[u8],
    ) -> Result<Entry<'static>, SessionKind>
        ensures says { told result ≡ lane_line (draft_in self.now) name.now id.now grain.now sample.now value.now }
        ensures follows { IfOk result (λ entry. MayFollow (draft_in self.now) (entry_of entry)) }
    {
        let node = the_node(&self.nodes, name)?;
        let param = settable_param(&self.nodes, node, id)?;
        let grain = number_within(grain, 0, MOST_GRAIN)?;
        let sample = number_within(sample, 0, MOST_FRAMES)?;
        let value = number_within(value, 0, ONE)?;
        if !param.can_automate() || self.has_lane(node, param.id) {
            return Err(SessionKind::BadLane);
        }
        if self.lanes.len() >= MOST_LANES {
            return Err(SessionKind::TooMany);
        }
        Ok(Entry::Lane {
            node,
            id: param.id,
            grain,
            sample,
            value,
        })
    }

    /// The sample of the last lane's last breakpoint, and how many it has.
    fn last_break(&self) -> (u32, usize)
        ensures sample { result.0 ≡ last_sample (draft_in self.now).lanes }
        ensures count { result.1 ≡ break_count (draft_in self.now).lanes }
    {
        let Some(lane) = self.lanes.last() else {
            return (0, 0);
        };
        match lane.breaks.last() {
            Some(&(sample, _)) => (sample, lane.breaks.len()),
            None => (0, 0),
        }
    }

    /// `point SAMPLE VALUE`.
    pub(crate) fn point_line(
        &self,
        sample: &[u8],
        value: &[u8],
    ) -> Result<Entry<'static>, SessionKind>
        ensures says { told result ≡ point_line (draft_in self.now) sample.now value.now }
        ensures follows { IfOk result (λ entry. MayFollow (draft_in self.now) (entry_of entry)) }
    {
        let sample = number_within(sample, 0, MOST_FRAMES)?;
        let value = number_within(value, 0, ONE)?;
        let (last, count) = self.last_break();
        if !self.in_lane || sample <= last {
            return Err(SessionKind::BadLane);
        }
        if count >= MOST_BREAKS {
            return Err(SessionKind::TooMany);
        }
        Ok(Entry::Point { sample, value })
    }

    /// `editor N`.
    pub(crate) fn editor_line(&self, text: &[u8]) -> Result<Entry<'static>, SessionKind>
        ensures says { told result ≡ editor_line (draft_in self.now) text.now }
        ensures follows { IfOk result (λ entry. MayFollow (draft_in self.now) (entry_of entry)) }
    {
        let editor = any_number(text)?;
        if editor as usize != self.scripts.len() {
            return Err(SessionKind::BadEditor);
        }
        if self.scripts.len() >= MOST_EDITORS {
            return Err(SessionKind::TooMany);
        }
        Ok(Entry::Editor)
    }

    /// A word of the last editor's script.
    pub(crate) fn script_line(&self, word: Word) -> Result<Entry<'static>, SessionKind>
        ensures says { told result ≡ script_line (draft_in self.now) (script_word word) }
        ensures follows { IfOk result (λ entry. MayFollow (draft_in self.now) (entry_of entry)) }
    {
        if self.scripts.is_empty() {
            return Err(SessionKind::BadEditor);
        }
        if self.script_count >= MOST_SCRIPT_WORDS {
            return Err(SessionKind::TooMany);
        }
        Ok(Entry::Script(word))
    }

    /// `begin NODE ID`.
    pub(crate) fn begin_line(&self, name: &[u8], id: &[u8]) -> Result<Entry<'static>, SessionKind>
        ensures says { told result ≡ begin_line (draft_in self.now) name.now id.now }
        ensures follows { IfOk result (λ entry. MayFollow (draft_in self.now) (entry_of entry)) }
    {
        let node = the_node(&self.nodes, name)?;
        let id = any_number(id)?;
        self.script_line(Word::Edit(Command::Begin { node, id }))
    }

    /// `perform NODE ID VALUE`.
    pub(crate) fn perform_line(
        &self,
        name: &[u8],
        id: &[u8],
        value: &[u8],
    ) -> Result<Entry<'static>, SessionKind>
        ensures says { told result ≡ perform_line (draft_in self.now) name.now id.now value.now }
        ensures follows { IfOk result (λ entry. MayFollow (draft_in self.now) (entry_of entry)) }
    {
        let node = the_node(&self.nodes, name)?;
        let id = any_number(id)?;
        let value = any_number(value)?;
        self.script_line(Word::Edit(Command::Perform { node, id, value }))
    }

    /// `end NODE ID`.
    pub(crate) fn end_line(&self, name: &[u8], id: &[u8]) -> Result<Entry<'static>, SessionKind>
        ensures says { told result ≡ end_line (draft_in self.now) name.now id.now }
        ensures follows { IfOk result (λ entry. MayFollow (draft_in self.now) (entry_of entry)) }
    {
        let node = the_node(&self.nodes, name)?;
        let id = any_number(id)?;
        self.script_line(Word::Edit(Command::End { node, id }))
    }

    /// `tell NODE W ..`.
    pub(crate) fn tell_line(
        &self,
        name: &[u8],
        words: &[&[u8]],
    ) -> Result<Entry<'static>, SessionKind>
        requires { length words.now ≤ most_numbers }
        ensures says { told result ≡ tell_line (draft_in self.now) name.now (texts words.now) }
        ensures follows { IfOk result (λ entry. MayFollow (draft_in self.now) (entry_of entry)) }
    {
        let node = the_node(&self.nodes, name)?;
        let mut list = [0u32; MOST_NUMBERS];
        numbers_within(words, 0, u32::MAX, &mut list)?;
        let words = Words::new(&list[..words.len()]);
        self.script_line(Word::Edit(Command::Tell { node, words }))
    }

    /// `hold NODE`.
    pub(crate) fn hold_line(&self, name: &[u8]) -> Result<Entry<'static>, SessionKind>
        ensures says { told result ≡ hold_line (draft_in self.now) name.now }
        ensures follows { IfOk result (λ entry. MayFollow (draft_in self.now) (entry_of entry)) }
    {
        let node = the_node(&self.nodes, name)?;
        self.script_line(Word::Hold(node))
    }

    /// `drop NODE`.
    pub(crate) fn drop_line(&self, name: &[u8]) -> Result<Entry<'static>, SessionKind>
        ensures says { told result ≡ drop_line (draft_in self.now) name.now }
        ensures follows { IfOk result (λ entry. MayFollow (draft_in self.now) (entry_of entry)) }
    {
        let node = the_node(&self.nodes, name)?;
        self.script_line(Word::Unhold(node))
    }

    /// `wait B`.
    pub(crate) fn wait_line(&self, text: &[u8]) -> Result<Entry<'static>, SessionKind>
        ensures says { told result ≡ wait_line (draft_in self.now) text.now }
        ensures follows { IfOk result (λ entry. MayFollow (draft_in self.now) (entry_of entry)) }
    {
        let block = any_number(text)?;
        self.script_line(Word::Wait(block))
    }
}
