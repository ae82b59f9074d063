//! Reading the input.

ghost use Rattle.std.specs.Prelude.{◌≡◌, ◌≤◌, ◌<◌, ◌^◌, Ok, IfOk, IfErr};
ghost use Rattle.vh_wav.specs.Heads.{IsHead, frames_end};
ghost use Rattle.vh_answers.specs.Outside.{store, ReadAs, OnlyReads};
ghost use Rattle.vh_answers.specs.Steps.{Gives, Halts};
ghost use Rattle.vh_host.specs.Commands.{input_step};
ghost use Rattle.vh_host.specs.Input.{Heard, IsHeard, head_in};

use std::alloc::Global;
use vh_answers::{Place, Status};
use vh_files::{Failed, Files};
use vh_num::Refusal;
use vh_render::Sound;
use vh_wav::{Head, HeadRefused, WavFault, read_head};

/// An input: its frames a second, and as many frames of it as a session has.
#[derive(Drop)]
pub struct Input {
    pub rate: u32,
    pub sound: Sound,
}

/// Reads the head of an input of so many channels.
fn read_head_of<F: Files>(files: &mut F, name: &str, channels: u16) -> Result<Head, Status>
    ensures head { IfOk result (λ head. ReadAs (store F.Files files.old) name.now (λ bytes. head_in channels bytes ≡ Ok head)) }
    ensures lawful { IfOk result IsHead }
    ensures fits { IfOk result (λ head. frames_end head < 2 ^ 64) }
    ensures channels { IfOk result (λ head. head.channels ≡ channels) }
    ensures stop { IfErr result (Halts (store F.Files files.old) (store F.Files files.new) (input_step name.now channels)) }
    ensures only_read { OnlyReads (store F.Files files.old) (store F.Files files.new) }
{
    let Ok(size) = files.size(name) else {
        return Err(Status::ReadFault(Place::Input));
    };
    match read_head(files, name, size) {
        Ok(head) if head.channels == channels => Ok(head),
        Ok(head) => Err(Status::WavRefused(WavFault::OtherChannels(head.channels))),
        Err(HeadRefused::Failed) => Err(Status::ReadFault(Place::Input)),
        Err(HeadRefused::Wav(fault)) => Err(Status::WavRefused(fault)),
    }
}

/// Reads the input of a session of so many channels and frames.
pub fn read_input<F: Files>(
    alloc: Global,
    files: &mut F,
    name: &str,
    channels: u16,
    frames: u32,
) -> Result<Input, Status>
    requires { frames ≤ 2 ^ 24 }
    ensures hears { IfOk result (λ input. (heard : Heard) × Gives (store F.Files files.old) (input_step name.now channels) heard × IsHeard channels frames heard input.rate input.sound) }
    ensures stop { IfErr result (Halts (store F.Files files.old) (store F.Files files.new) (input_step name.now channels)) }
    ensures only_read { OnlyReads (store F.Files files.old) (store F.Files files.new) }
{
    let head = read_head_of(files, name, channels)?;
    match Sound::read(alloc, files, name, &head, frames) {
        Ok(sound) => Ok(Input {
            rate: head.rate,
            sound,
        }),
        Err(Refusal::Fault(Failed)) => Err(Status::ReadFault(Place::Input)),
        Err(Refusal::Memory) => Err(Status::Memory),
    }
}
