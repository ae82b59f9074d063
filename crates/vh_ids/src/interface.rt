ghost use Rattle.std.specs.Prelude.{◌≡◌};
ghost use Rattle.vh_ids.specs.Interfaces.{iid_of, own_iid};

use crate::tuid::Tuid;

/// The interfaces of the host's objects. The names are the SDK's, without the `I` or `F`.
#[derive(Clone, Copy, Debug, PartialEq, Eq)]
pub enum Interface {
    Unknown,
    PluginBase,
    Component,
    AudioProcessor,
    EditController,
    ConnectionPoint,
    ComponentHandler,
    Message,
}

/// The identifier of this project's interface number `n`.
fn own(n: u8) -> Tuid
    ensures { result.0 ≡ own_iid n }
{
    Tuid([
        0x56, 0x48, 0x53, 0x54, 0x49, 0x49, 0x44, 0, 0, 0, 0, 0, 0, 0, 0, n,
    ])
}

/// The identifier of an interface: that of `FUnknown` is the SDK's, the others are this project's.
pub fn iid(k: Interface) -> Tuid
    ensures { result.0 ≡ iid_of k }
{
    match k {
        Interface::Unknown => Tuid([0, 0, 0, 0, 0, 0, 0, 0, 0xC0, 0, 0, 0, 0, 0, 0, 0x46]),
        Interface::PluginBase => own(1),
        Interface::Component => own(2),
        Interface::AudioProcessor => own(3),
        Interface::EditController => own(4),
        Interface::ConnectionPoint => own(5),
        Interface::ComponentHandler => own(6),
        Interface::Message => own(7),
    }
}
