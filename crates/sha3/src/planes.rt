//! The 25 lanes of a state, plane by plane: fields and no arrays, so that each step is proved by computing.

/// The lanes (0, y) to (4, y).
#[derive(Clone, Copy)]
pub struct Plane {
    pub x0: u64,
    pub x1: u64,
    pub x2: u64,
    pub x3: u64,
    pub x4: u64,
}

/// The planes y = 0 to 4.
#[derive(Clone, Copy)]
pub struct Lanes {
    pub y0: Plane,
    pub y1: Plane,
    pub y2: Plane,
    pub y3: Plane,
    pub y4: Plane,
}

/// The state between two blocks.
#[derive(Drop)]
pub struct KeccakState {
    pub lanes: Lanes,
}
