//! The words that SHA-1 works on. Fields and no arrays: by a rolled loop over arrays a block takes twice the time.

/// The hash value, H0 to H4.
#[derive(Drop)]
pub struct HashValue {
    pub h0: u32,
    pub h1: u32,
    pub h2: u32,
    pub h3: u32,
    pub h4: u32,
}

/// The five working variables.
#[derive(Clone, Copy)]
pub struct Working {
    pub a: u32,
    pub b: u32,
    pub c: u32,
    pub d: u32,
    pub e: u32,
}

/// Four words of the message schedule, one after the other.
#[derive(Clone, Copy)]
pub struct Quad {
    pub w0: u32,
    pub w1: u32,
    pub w2: u32,
    pub w3: u32,
}

/// Sixteen words of the message schedule, one after the other.
#[derive(Clone, Copy)]
pub struct Sixteen {
    pub p: Quad,
    pub q: Quad,
    pub r: Quad,
    pub s: Quad,
}
