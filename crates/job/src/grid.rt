//! Which places of a device are joined, as a table.
ghost use Rattle.std.specs.Prelude.{◌≡◌, ◌*◌, vec_len};

/// `size` rows of `size` numbers, a 1 for each two places that are joined, else 0.
#[derive(Drop)]
pub struct Grid {
    pub size: u8,
    pub joined: Vec<u8>,
    ghost square: { vec_len joined ≡ size * size },
}
