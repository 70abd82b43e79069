//! The commands of a relay payload, and the two ways that a payload goes.

/// What a payload asks of the end that recognises it.
#[derive(Clone, Copy, PartialEq, Eq, Debug)]
pub enum Command {
    Begin,
    Data,
    End,
    Connected,
    Sendme,
    Drop,
}

/// Forward is from the client to a hop, backward from a hop to the client.
#[derive(Clone, Copy, PartialEq, Eq, Debug)]
pub enum Way {
    Forward,
    Backward,
}
