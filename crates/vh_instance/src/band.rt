//! A band.

use vh_component::Processing;
use vh_counted::{Counted, Holder, Opened};

/// The instances of a session's nodes, by node: of each the component and the controller.
pub struct Band<P, C> {
    pub components: Vec<Counted<P>>,
    pub controllers: Vec<Counted<C>>,
    /// The components' openers, processing.
    pub processors: Vec<Processing<P>>,
    /// The controllers' openers.
    pub edits: Vec<Opened<C>>,
    /// The editors' holders of the controllers, editor by editor and within each by node.
    pub holders: Vec<Vec<Holder<C>>>,
    /// The first values, node by node and within each by rising id.
    pub first: Vec<u32>,
}
