//! Ways to the root of a tree.
ghost use Rattle.std.specs.Prelude.{◌<◌};

/// A place's way to the root of a tree: how long it is, fifteen steps at most, and the next place on it, the root itself at the root.
#[derive(Clone, Copy)]
pub struct Hop {
    pub distance: u8,
    pub toward: u8,
    ghost short: { distance < 16 },
}
