//! The trees of shortest ways from all places.
use crate::hop::Hop;

/// Row a has the hops of the tree from place a, none where no way leads: a fixed table, since the entries on bytes allocate nothing.
#[derive(Clone, Copy)]
pub struct Ways {
    pub hops: [[Option<Hop>; 16]; 16],
}
