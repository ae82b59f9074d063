use vh_ids::{Interface, Tuid, iid};
use vh_query::Interfaces;

#[test]
fn texts_are_read_in_either_case(rt: HostRuntime) {
    let id = Tuid([
        0x01, 0x23, 0x45, 0x67, 0x89, 0xAB, 0xCD, 0xEF, 0xFE, 0xDC, 0xBA, 0x98, 0x76, 0x54, 0x32,
        0x10,
    ]);
    let rows = [
        (b"0123456789ABCDEFFEDCBA9876543210", Some(id)),
        (b"0123456789abcdeffedcba9876543210", Some(id)),
        (b"0123456789aBcDeFfEdCbA9876543210", Some(id)),
        (b"0123456789abcdeffedcba987654321g", None),
        (b"0123456789abcdeffedcba98765432 0", None),
        (b"G123456789abcdeffedcba9876543210", None),
    ];
    for (text, want) in rows {
        assert_eq!(rt; Tuid::read(text), want);
    }
    assert_eq!(rt; id.write_upper(), *b"0123456789ABCDEFFEDCBA9876543210");
}

/// The identifiers as the SDK prints them, and the place of each among the interfaces of a component and of a
/// controller.
#[test]
fn interfaces_have_their_identifiers(rt: HostRuntime) {
    let rows = [
        (
            Interface::Unknown,
            b"0000000000000000C000000000000046",
            Some(0),
            Some(0),
        ),
        (
            Interface::PluginBase,
            b"56485354494944000000000000000001",
            Some(1),
            Some(1),
        ),
        (
            Interface::Component,
            b"56485354494944000000000000000002",
            Some(2),
            None,
        ),
        (
            Interface::AudioProcessor,
            b"56485354494944000000000000000003",
            Some(3),
            None,
        ),
        (
            Interface::EditController,
            b"56485354494944000000000000000004",
            None,
            Some(2),
        ),
        (
            Interface::ConnectionPoint,
            b"56485354494944000000000000000005",
            Some(4),
            Some(3),
        ),
        (
            Interface::ComponentHandler,
            b"56485354494944000000000000000006",
            None,
            None,
        ),
        (
            Interface::Message,
            b"56485354494944000000000000000007",
            None,
            None,
        ),
    ];
    let component = Interfaces::of_component();
    let controller = Interfaces::of_controller();
    for (interface, text, in_component, in_controller) in rows {
        let id = iid(interface);
        assert_eq!(rt; id.write_upper(), *text);
        assert_eq!(rt; component.find(&id), in_component);
        assert_eq!(rt; controller.find(&id), in_controller);
    }
    assert_eq!(rt; component.find(&Tuid([0; 16])), None);
}
