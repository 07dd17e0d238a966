//! Which places of a device are joined.
ghost use Rattle.std.specs.Prelude.{◌≤◌};

/// Which of sixteen places at most are joined, in a fixed table, since the entries on bytes allocate nothing.
#[derive(Clone, Copy)]
pub struct Device {
    pub size: usize,
    pub joined: [[bool; 16]; 16],
    ghost small: { size ≤ 16 },
}
