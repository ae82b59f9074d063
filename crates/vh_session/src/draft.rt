//! A session as far as its lines have been read.

ghost use Rattle.std.specs.Prelude.{◌≡◌, ◌≤◌, ◌<◌, ◌-◌, ◌^◌, length, slice_index_or, OnOk};
ghost use Rattle.vh_lane.specs.Values.{AreBreaks};
ghost use Rattle.vh_session.specs.Limits.{most_grain, most_breaks};

use crate::entry::Entry;
use crate::wire::Wire;
use std::alloc::{AllocError, Global};
use vh_params::{Label, NodeTable, Word};

/// What is known of a node beside its name, class and parameters.
#[derive(Drop)]
pub(crate) struct Mark {
    pub(crate) line: u32,
    pub(crate) aux: bool,
    pub(crate) preset: Option<Vec<u8>>,
    /// First values, as (id, value).
    pub(crate) firsts: Vec<(u32, u32)>,
}

impl Mark {
    ghost use Rattle.std.specs.Prelude.{[], None};

    /// A node at this line, before any line on it.
    fn new(alloc: Global, line: u32, aux: bool) -> Mark
        ensures line { result.line ≡ line }
        ensures aux { result.aux ≡ aux }
        ensures preset { result.preset ≡ None }
        ensures firsts { result.firsts.items ≡ [] }
    {
        Mark {
            line,
            aux,
            preset: None,
            firsts: Vec::new(alloc),
        }
    }
}

/// A lane with its breakpoints (sample, value) so far.
#[derive(Drop)]
pub(crate) struct LaneDraft {
    pub(crate) node: u32,
    pub(crate) id: u32,
    pub(crate) grain: u32,
    pub(crate) breaks: Vec<(u32, u32)>,
    ghost coarse: { grain ≤ most_grain },
    ghost rising: { AreBreaks breaks.items },
}

impl LaneDraft {
    ghost use Rattle.std.specs.Prelude.{[], ◌∷◌, IfOk};
    ghost use Rattle.vh_session.specs.Entry.{with_break};
    ghost use Rattle.vh_session.specs.View.{lane_text};

    /// A lane with its first breakpoint.
    fn new(
        alloc: Global,
        node: u32,
        id: u32,
        grain: u32,
        first: (u32, u32),
    ) -> Result<LaneDraft, AllocError>
        requires coarse { grain ≤ most_grain }
        requires within { first.1 ≤ 2 ^ 24 }
        ensures { IfOk result (λ lane. lane_text lane ≡ record { node = node; id = id; grain = grain; breaks = first ∷ [] }) }
    {
        Ok(LaneDraft {
            node,
            id,
            grain,
            breaks: Vec::from_slice(alloc, &[first])?,
        })
    }

    /// Adds a breakpoint behind the last one.
    fn push(&mut self, sample: u32, value: u32) -> Result<(), AllocError>
        requires behind { (slice_index_or self.old.breaks.items (length self.old.breaks.items - 1) (0, 0)).0 < sample }
        requires few { length self.old.breaks.items < most_breaks }
        requires within { value ≤ 2 ^ 24 }
        ensures { OnOk result (lane_text self.new ≡ with_break (sample, value) (lane_text self.old)) }
    {
        self.breaks.push((sample, value))?;
        Ok(())
    }
}

/// What the lines so far come to.
#[derive(Drop)]
pub(crate) struct Draft {
    pub(crate) frames: Option<u32>,
    pub(crate) channels: Option<u32>,
    pub(crate) bits: Option<u32>,
    pub(crate) pattern: Vec<u32>,
    pub(crate) nodes: NodeTable,
    pub(crate) marks: Vec<Mark>,
    pub(crate) wires: Vec<Wire>,
    pub(crate) lanes: Vec<LaneDraft>,
    pub(crate) in_lane: bool,
    pub(crate) scripts: Vec<Vec<Word>>,
    pub(crate) script_count: u32,
}

impl Draft {
    ghost use Rattle.vh_session.specs.View.{draft_in, entry_of};
    ghost use Rattle.vh_session.specs.Entry.{with_entry, no_draft};
    ghost use Rattle.vh_session.specs.Follows.{MayFollow};
    ghost use Rattle.vh_session.specs.Sound.{IsSound};

    /// Nothing yet.
    pub(crate) fn new(alloc: Global) -> Draft
        ensures nothing { draft_in result ≡ no_draft }
        ensures sound { IsSound result }
    {
        Draft {
            frames: None,
            channels: None,
            bits: None,
            pattern: Vec::new(alloc),
            nodes: NodeTable::new(alloc),
            marks: Vec::new(alloc),
            wires: Vec::new(alloc),
            lanes: Vec::new(alloc),
            in_lane: false,
            scripts: Vec::new(alloc),
            script_count: 0,
        }
    }

    /// Adds what a line of this number says.
    pub(crate) fn add(
        &mut self,
        alloc: Global,
        line: u32,
        entry: Entry<'_>,
    ) -> Result<(), AllocError>
        requires follows { MayFollow (draft_in self.old) (entry_of entry) }
        requires sound { IsSound self.old }
        ensures added { OnOk result (draft_in self.new ≡ with_entry line (entry_of entry.entry) (draft_in self.old)) }
        ensures sound { OnOk result (IsSound self.new) }
    {
        self.in_lane = matches!(entry, Entry::Lane { .. } | Entry::Point { .. });
        match entry {
            Entry::Length(frames) => self.frames = Some(frames),
            Entry::Channels(channels) => self.channels = Some(channels),
            Entry::Bits(bits) => self.bits = Some(bits),
            Entry::Pattern(sizes) => self.pattern.extend_from_slice(sizes.as_slice())?,
            Entry::Node { name, class } => {
                self.marks.push(Mark::new(alloc, line, class.aux))?;
                self.nodes.add(alloc, Label::new(name), class)?;
            }
            Entry::Preset { node, file } => {
                self.marks[node as usize].preset = Some(Vec::from_slice(alloc, file)?);
            }
            Entry::Param { node, id, value } => {
                self.marks[node as usize].firsts.push((id, value))?;
            }
            Entry::Wire(wire) => self.wires.push(wire)?,
            Entry::Lane {
                node,
                id,
                grain,
                sample,
                value,
            } => self
                .lanes
                .push(LaneDraft::new(alloc, node, id, grain, (sample, value))?)?,
            Entry::Point { sample, value } => {
                if let Some(lane) = self.lanes.last_mut() {
                    lane.push(sample, value)?;
                }
            }
            Entry::Editor => self.scripts.push(Vec::new(alloc))?,
            Entry::Script(word) => {
                self.script_count += 1;
                if let Some(script) = self.scripts.last_mut() {
                    script.push(word)?;
                }
            }
        }
        Ok(())
    }
}
