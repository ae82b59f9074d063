//! The link.

ghost use Rattle.std.specs.Prelude.{◌≡◌, ◌≤◌, ◌<◌, ◌^◌, ◌⊎◌, true, false, List, [], IsSome, OnOk, OnErr};
ghost use Rattle.std.specs.String.{string_bytes};
ghost use Rattle.vh_files.specs.Causes.{Rose};
ghost use Rattle.vh_files.specs.Store.{told, HasNow, SameElsewhere};
ghost use Rattle.vh_num.specs.Frames.{Frame};
ghost use Rattle.vh_wav.specs.Heads.{IsHead, frames_end};
ghost use Rattle.vh_wav.specs.Text.{head_text, wav_text};
ghost use Rattle.vh_link.specs.Outputs.{HasPart};
ghost use Rattle.vh_link.specs.Link.{Link, Reads, Wrote};

use crate::buffers::Buffers;
use crate::output::{keep, write_frames, write_head, write_pad};
use std::marker::Model;
use vh_files::{Failed, Files};
use vh_wav::{Frames, Head, read_frames};

/// Two WAV files of a store that is lent: an input that is read from its first frame on, and an output to which frames
/// are added, with the input's channels and rate.
///
/// Nothing of a file is held but the bytes of one call, and no call takes memory.
#[derive(Drop)]
pub struct WavLink<'a, F: Files> {
    files: &'a mut F,
    input: String,
    head: Head,
    output: String,
    bits: u16,
    max: u32,
    at: u64,
    started: bool,
    room: u32,
    pushed: u32,
    bytes: Vec<u8>,
    cut: Vec<i32>,
    kept: usize,
}

impl<'a, F: Files> Model for WavLink<'a, F> {
    ghost use Rattle.std.specs.Prelude.{take};
    ghost use Rattle.std.specs.String.{string_bytes};
    ghost use Rattle.vh_num.specs.Frames.{frames_of};
    ghost use Rattle.vh_link.specs.Link.{Link, IsLink, HasSpace};

    ghost Value = { Link F };

    ghost view = { λ l. record {
      store = l.files.now;
      loan = l.files.ghost_name;
      input = string_bytes l.input;
      head = l.head;
      output = string_bytes l.output;
      bits = l.bits;
      max = l.max;
      at = l.at;
      started = l.started;
      room = l.room;
      pushed = l.pushed;
      cut = frames_of l.head.channels (take l.kept l.cut.items);
    } };

    ghost invariant = { λ l. IsLink (F.complete l.files.now) (F.held l.files.now) (string_bytes l.input) (string_bytes l.output) l.head l.bits l.max l.at l.started l.room l.pushed
        × HasSpace l.head.channels l.max l.kept l.bytes.items l.cut.items };
}

impl<'a, F: Files> WavLink<'a, F> {
    /// A link between an input with this head and an output of this many bits a sample, 16 or 24. It doesn't touch the
    /// store.
    pub fn new(
        files: &'a mut F,
        input: String,
        head: Head,
        output: String,
        bits: u16,
        buffers: Buffers,
    ) -> WavLink<'a, F>
        requires head { IsHead head }
        requires fits { frames_end head < 2 ^ 64 }
        requires bits { (bits ≡ 16) ⊎ (bits ≡ 24) }
        requires buffers { buffers.channels ≡ head.channels }
        requires there { F.complete files.old ≡ true → IsSome (told (F.held files.old) (string_bytes input)) }
        ensures { result ≡ record {
          store = files.old;
          loan = files.entry.ghost_name;
          input = string_bytes input;
          head = head;
          output = string_bytes output;
          bits = bits;
          max = buffers.max;
          at = 0;
          started = false;
          room = 0;
          pushed = 0;
          cut = [];
        } }
    {
        let Buffers {
            channels: _,
            max,
            bytes,
            cut,
        } = buffers;
        WavLink {
            files,
            input,
            head,
            output,
            bits,
            max,
            at: 0,
            started: false,
            room: 0,
            pushed: 0,
            bytes,
            cut,
            kept: 0,
        }
    }

    /// Creates the output and adds its head for so many frames, at most 2^24, which may then be added.
    ///
    /// After a failure none may be, and the output is as before or has a front part of its head.
    pub fn start(&mut self, frames: u32) -> Result<(), Failed>
        requires room { self.old.room ≡ 0 }
        requires pushed { self.old.pushed ≡ 0 }
        requires frames { frames ≤ 2 ^ 24 }
        ensures text { OnOk result (HasNow (F.complete self.old.store) (told (F.held self.new.store) self.old.output) (head_text self.old.head.channels self.old.head.rate self.old.bits frames)) }
        ensures part { OnErr result ((F.held self.new.store ≡ F.held self.old.store) ⊎ HasPart (F.complete self.old.store) (told (F.held self.new.store) self.old.output) (head_text self.old.head.channels self.old.head.rate self.old.bits frames)) }
        ensures others { SameElsewhere self.old.output (F.held self.old.store) (F.held self.new.store) }
        ensures room { OnOk result (self.new ≡ record self.old { store = self.new.store; started = true; room = frames }) }
        ensures no_room { OnErr result (self.new ≡ record self.old { store = self.new.store; started = false }) }
        ensures reads { (input : List Frame) → Reads F.held self.old input → Reads F.held self.new input }
        ensures wrote { (frames : List Frame) → Wrote F.complete F.held self.old frames → Wrote F.complete F.held self.new frames }
        ensures failed { OnErr result (Rose (F.write_faults self.old.store) (F.write_faults self.new.store)) }
        ensures later { F.write_faults self.old.store ≤ F.write_faults self.new.store }
        ensures complete { F.complete self.new.store ≡ F.complete self.old.store }
        ensures read_faults { F.read_faults self.new.store ≡ F.read_faults self.old.store }
    {
        match write_head(
            &mut *self.files,
            self.output.as_str(),
            &self.head,
            self.bits,
            frames,
        ) {
            Ok(()) => {
                self.started = true;
                self.room = frames;
                Ok(())
            }
            Err(failed) => {
                self.started = false;
                Err(failed)
            }
        }
    }

    /// Ends the output, to which all of its frames were added: adds the byte that makes them even. The link is then as
    /// before its start, but for what was read.
    pub fn finish(&mut self) -> Result<(), Failed>
        requires started { self.old.started ≡ true }
        requires all { self.old.pushed ≡ self.old.room }
        requires whole { self.old.cut ≡ [] }
        ensures file { (frames : List Frame) → Wrote F.complete F.held self.old frames → OnOk result (HasNow (F.complete self.old.store) (told (F.held self.new.store) self.old.output) (wav_text self.old.head.channels self.old.head.rate self.old.bits frames)) }
        ensures part { (frames : List Frame) → Wrote F.complete F.held self.old frames → OnErr result (HasPart (F.complete self.old.store) (told (F.held self.new.store) self.old.output) (wav_text self.old.head.channels self.old.head.rate self.old.bits frames)) }
        ensures others { SameElsewhere self.old.output (F.held self.old.store) (F.held self.new.store) }
        ensures ended { self.new ≡ record self.old { store = self.new.store; started = false; room = 0; pushed = 0 } }
        ensures reads { (input : List Frame) → Reads F.held self.old input → Reads F.held self.new input }
        ensures failed { OnErr result (Rose (F.write_faults self.old.store) (F.write_faults self.new.store)) }
        ensures later { F.write_faults self.old.store ≤ F.write_faults self.new.store }
        ensures complete { F.complete self.new.store ≡ F.complete self.old.store }
        ensures read_faults { F.read_faults self.new.store ≡ F.read_faults self.old.store }
    {
        let frames = self.pushed;
        self.started = false;
        self.room = 0;
        self.pushed = 0;
        write_pad(
            &mut *self.files,
            self.output.as_str(),
            self.head.channels,
            self.bits,
            frames,
        )
    }

    /// Gives the store back.
    pub fn into_files(self) -> &'a mut F
        ensures loan { result.ghost_name ≡ self.entry.loan }
        ensures store { result.now ≡ self.entry.store }
    {
        let WavLink {
            files,
            input: _,
            head: _,
            output: _,
            bits: _,
            max: _,
            at: _,
            started: _,
            room: _,
            pushed: _,
            bytes: _,
            cut: _,
            kept: _,
        } = self;
        files
    }
}

impl<'a, F: Files> Frames for WavLink<'a, F> {
    ghost use Rattle.vh_link.specs.Link.{Reads, Wrote, Fixed, fixed_of};

    ghost channels = { λ l. l.head.channels };

    ghost room = { λ l. l.room };

    ghost pushed = { λ l. l.pushed };

    ghost max = { λ l. l.max };

    ghost reads = { Reads F.held };

    ghost wrote = { Wrote F.complete F.held };

    ghost cut = { λ l. l.cut };

    ghost pull_faults = { λ l. F.read_faults l.store };

    ghost push_faults = { λ l. F.write_faults l.store };

    ghost Rest = { Fixed };

    ghost rest = { fixed_of F.complete F.held };

    fn pull(&mut self, n: usize, out: &mut [i32]) -> Result<(), Failed> {
        read_frames(
            &mut *self.files,
            self.input.as_str(),
            &self.head,
            self.at,
            n,
            &mut self.bytes,
            out,
        )?;
        self.at += (n as u64).min(self.head.frames - self.at);
        Ok(())
    }

    fn push(&mut self, n: usize, frames: &[i32]) -> Result<(), Failed> {
        match write_frames(
            &mut *self.files,
            self.output.as_str(),
            self.head.channels,
            self.bits,
            n,
            frames,
            &mut self.bytes,
        ) {
            Ok(()) => {
                self.pushed += n as u32;
                Ok(())
            }
            Err(failed) => {
                keep(frames, &mut self.cut);
                self.kept = frames.len();
                Err(failed)
            }
        }
    }
}
