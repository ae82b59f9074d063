//! A session in blocks of other sizes.

ghost use Rattle.std.specs.Prelude.{◌≡◌};
ghost use Rattle.vh_cut.specs.Cut.{IsPattern};
ghost use Rattle.vh_session.specs.Names.{content_of};

use vh_session::Session;

/// The session in blocks of these sizes.
pub(crate) fn sized(session: Session, sizes: Vec<u32>) -> Session
    requires { IsPattern sizes.items }
    ensures content { content_of result ≡ record (content_of session) { pattern = sizes.items } }
    ensures length { result.length ≡ session.length }
    ensures channels { result.channels ≡ session.channels }
    ensures nodes { result.nodes ≡ session.nodes }
{
    let Session {
        length,
        channels,
        bits,
        pattern: _,
        nodes,
        presets,
        firsts,
        wires,
        lanes,
        scripts,
    } = session;
    Session {
        length,
        channels,
        bits,
        pattern: sizes,
        nodes,
        presets,
        firsts,
        wires,
        lanes,
        scripts,
    }
}
