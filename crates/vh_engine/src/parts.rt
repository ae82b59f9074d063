//! What an engine renders with.

use vh_component::Processing;
use vh_session::Session;

/// The session, a processor for each node, and the normalised first values, node by node and within each by
/// rising id.
pub struct Parts<P> {
    pub session: Session,
    pub processors: Vec<Processing<P>>,
    pub first: Vec<u32>,
}
