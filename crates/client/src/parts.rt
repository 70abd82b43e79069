//! A client.
ghost use Rattle.std.specs.Prelude.{◌≡◌, ◌<◌, ◌≤◌, vec_len};
ghost use Rattle.rows.specs.Views.{row_len};

use rows::Row;
use streams::{Flow, Streams};

/// By hop, the nearest first: the ends that send forward, the ends that receive backward, and what it counts; and its streams of
/// all hops.
// Three lists, and not one of hops: the two rows move on apart, and each is lent whole, to wrap for a hop or to find one.
// No `impl Model`, as with a relay.
#[derive(Drop)]
pub struct Client<C, D> {
    pub(crate) forward: Row<C, D>,
    pub(crate) backward: Row<C, D>,
    pub(crate) flows: Vec<Flow>,
    pub(crate) streams: Streams,
    ghost even: { (row_len backward ≡ row_len forward) × (vec_len flows ≡ row_len forward) × (0 < row_len forward) × (row_len forward ≤ 8) },
}
