//! The records themselves.
ghost use Rattle.std.specs.Prelude.{◌≡◌, ◌≤◌, length};

/// Begun by BEGIN, opened by CONNECTED.
#[derive(Clone, Copy, PartialEq, Eq, Debug)]
pub enum StreamState {
    Begun,
    Open,
}

/// One stream of an end: its number, its hop, and how far it is.
#[derive(Clone, Copy, PartialEq, Eq, Debug)]
pub struct StreamRecord {
    pub number: u16,
    pub hop: u16,
    pub state: StreamState,
}

/// What becomes of a record when a command of its stream is sent or delivered. Three outcomes of one record, so neither an Option nor a
/// Result.
#[derive(Clone, Copy, PartialEq, Eq, Debug)]
pub enum Effect {
    Kept,
    Freed,
    Forbidden,
}

/// Whether a command was delivered in time, or late: after the end of its stream, or before its beginning.
#[derive(Clone, Copy, PartialEq, Eq, Debug)]
pub enum Mark {
    InTime,
    Late,
}

/// How many streams an end has at most.
pub(crate) const CAPACITY: usize = 32;

/// The stream records of an end: the first `count` are in use, in the order in which they began. `highest` is the
/// greatest number that this end began, so that a client begins no stream twice. An array with its count, since an end's memory
/// is fixed. (Ghost fields and no model: a view forgets the records that are not in use, and a `Copy` struct gives its fields back.
/// And no `==`, which would tell tables of the same streams apart by records that are not in use.)
#[derive(Clone, Copy, Debug)]
pub struct Streams {
    pub(crate) records: [StreamRecord; CAPACITY],
    pub(crate) count: usize,
    pub(crate) highest: u16,
    ghost full: { length records ≡ 32 },
    ghost fits: { count ≤ 32 },
}

/// The window that a flow begins with, and never exceeds.
pub(crate) const WINDOW_START: u16 = 1_000;

/// How many DATA one acknowledgement stands for.
pub(crate) const STEP: u16 = 100;

/// How many messages an end ever sends to one hop.
pub(crate) const MESSAGE_LIMIT: u32 = 16_777_216;

/// What an end counts for one hop: the DATA that it may still send, the DATA delivered to it and not yet acknowledged,
/// and the messages that it sent. (A ghost field and no model: a `Copy` struct that holds one with a model is not copied where it is
/// passed by value and used again.)
#[derive(Clone, Copy, PartialEq, Eq, Debug)]
pub struct Flow {
    pub(crate) window: u16,
    pub(crate) unacknowledged: u16,
    pub(crate) sent: u32,
    ghost small: { (window ≤ 1000) × (unacknowledged ≤ 1000) × (sent ≤ 16777216) },
}
