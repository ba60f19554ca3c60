// Edges, and how far nodes are from a target.

/// An edge: the node to which it leads, and its place.
#[derive(Clone, Copy)]
pub struct Edge {
    pub to: usize,
    pub place: u32,
}

/// Over how many edges a node leads to the target, 0 where no way is known, and the first of them.
#[derive(Clone, Copy)]
pub struct Mark {
    pub steps: usize,
    pub edge: Edge,
}
