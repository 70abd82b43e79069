//! One side of one hop and way.

// No `impl Model`: its Value would hold the digest's state, `D.State`, and may not name a bound's member.

/// A cipher, a digest, and the number of the next layer. It holds keys, so it has one owner and is never shown.
#[derive(Drop)]
pub struct End<C, D> {
    pub(crate) cipher: C,
    pub(crate) digest: D,
    pub(crate) layer: u32,
}
