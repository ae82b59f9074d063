//! The buses of a component.

ghost use Rattle.std.specs.Prelude.{◌≡◌, ◌≤◌, ◌<◌, ℕ, true, false, [], ◌∷◌, length, take, Option, IfSome, if◌then◌else◌};
ghost use Rattle.vh_component.specs.Buses.{bus_place, main_bus, aux_bus, IsActivated, IsArranged, arranged};

use thiserror::Error;

/// A bus (the SDK's `BusInfo`).
#[derive(Clone, Copy, Debug, PartialEq, Eq)]
pub struct BusInfo {
    /// 0 for audio, 1 for events.
    pub media: u8,
    /// 0 for an input, 1 for an output.
    pub direction: u8,
    /// 0 for a main bus, 1 for an auxiliary one.
    pub kind: u8,
    pub channels: u16,
    pub active: bool,
}

impl BusInfo {
    /// The bus, with so many channels where it is an audio bus.
    fn arranged(self, channels: u16) -> BusInfo
        ensures { result ≡ arranged channels self }
    {
        if self.media == 0 {
            BusInfo { channels, ..self }
        } else {
            self
        }
    }
}

/// There is no such bus.
#[derive(Clone, Copy, Debug, PartialEq, Eq, Error)]
#[error("there is no such bus")]
pub struct NoBus;

/// The component can't have this arrangement.
#[derive(Clone, Copy, Debug, PartialEq, Eq, Error)]
#[error("this arrangement isn't supported")]
pub struct Unsupported;

/// The buses of a component, in their order.
#[derive(Clone, Copy, Debug, PartialEq, Eq)]
pub struct Layout {
    buses: [BusInfo; 4],
    len: usize,
    ghost within: { len ≤ 4 },
    ghost size: { length buses ≡ 4 },
}

impl Layout {
    ghost use Rattle.vh_component.specs.Layouts.{buses_of};

    /// The main audio input and the main audio output, both active, and with `aux` an auxiliary audio
    /// input, which isn't.
    pub fn new(channels: u16, aux: bool) -> Layout
        ensures { buses_of result ≡ main_bus 0 channels ∷ main_bus 1 channels ∷ (if aux then aux_bus channels ∷ [] else []) }
    {
        let main = |direction: u8| BusInfo {
            media: 0,
            direction,
            kind: 0,
            channels,
            active: true,
        };
        let side = BusInfo {
            media: 0,
            direction: 0,
            kind: 1,
            channels,
            active: false,
        };
        Layout {
            buses: [main(0), main(1), side, side],
            len: if aux { 3 } else { 2 },
        }
    }

    /// The buses.
    pub fn buses(&self) -> &[BusInfo]
        ensures { result.now ≡ buses_of self.now }
    {
        &self.buses[..self.len]
    }

    /// Switches the bus of this number among those of a media type and a direction.
    #[tactic(auto, using(crate::proofs::Arranged::switched_in))]
    pub fn activate_bus(
        &mut self,
        media: u8,
        direction: u8,
        index: u32,
        on: bool,
    ) -> Result<(), NoBus>
        ensures { IsActivated media direction index on (buses_of self.old) (buses_of self.new) result }
    {
        match place_of(&self.buses[..self.len], media, direction, index) {
            Some(place) => {
                self.buses[place].active = on;
                Ok(())
            }
            None => Err(NoBus),
        }
    }

    /// Gives every audio bus so many channels, where inputs and outputs are to have as many, 1 or 2.
    #[tactic(auto, using(crate::proofs::Arranged::all_arranged))]
    pub fn set_arrangement(&mut self, ins: u16, outs: u16) -> Result<(), Unsupported>
        ensures { IsArranged ins outs (buses_of self.old) (buses_of self.new) result }
    {
        if ins != outs || ins == 0 || ins > 2 {
            return Err(Unsupported);
        }
        for i in 0..self.buses.len() {
            self.buses[i] = self.buses[i].arranged(ins);
        }
        Ok(())
    }
}

/// The place of the bus of this number among those of a media type and a direction.
fn place_of(buses: &[BusInfo], media: u8, direction: u8, index: u32) -> Option<usize>
    ensures place { result ≡ bus_place 0 buses.now media direction index }
    ensures within { IfSome result (λ place. place < length buses.now) }
{
    let mut left = index;
    for (place, bus) in buses.iter().enumerate() {
        if bus.media == media && bus.direction == direction {
            if left == 0 {
                return Some(place);
            }
            left -= 1;
        }
    }
    None
}
