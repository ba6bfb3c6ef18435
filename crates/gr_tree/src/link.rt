//! Links between nodes, and the place of a node.

/// A link between two nodes, in no direction.
#[derive(Clone, Copy, Debug, PartialEq, Eq)]
pub struct Link {
    /// One of the two nodes.
    pub one: u16,
    /// The other node.
    pub other: u16,
}

/// Where a node stands, seen from a root.
#[derive(Clone, Copy, Debug, PartialEq, Eq)]
pub struct Place {
    /// The next node on the path to the root; the root has none.
    pub up: Option<u16>,
    /// How many links lie between the node and the root.
    pub depth: u16,
}
