//! How far a search has come.

/// How far the search has come at a node.
#[derive(Clone, Copy, Drop)]
pub enum Mark {
    /// The search has not come here yet.
    New,
    /// The node stands on the path of the search.
    Open,
    /// All that the node leads to has been searched; nodes are numbered as they are finished.
    Done(usize),
}

/// What the successors of a node say.
#[derive(Clone, Copy, Drop)]
pub enum Next {
    /// All of them are finished.
    AllDone,
    /// This one, at this place, is new; those before it are finished.
    Fresh(usize, usize),
    /// This one stands on the path.
    Back(usize),
}
