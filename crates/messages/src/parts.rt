//! What the rules look at, and what they answer.
ghost use Rattle.std.specs.Prelude.{◌≡◌};
ghost use Rattle.model.specs.Messages.{sendme};

use cell::{Command, Way};
use std::marker::Model;
use streams::{Flow, Streams};

/// A message to be sent. Its command is a number, since a host may name any: those that are no command are refused like those
/// that may not be sent.
#[derive(Drop)]
pub struct Message<'a> {
    pub command: u8,
    pub stream: u16,
    pub content: &'a [u8],
}

impl<'a> Model for Message<'a> {
    ghost use Rattle.cell.specs.Payload.{Message};

    ghost Value = { Message };

    ghost view = { λ m. record { command = m.command; stream = m.stream; content = m.content.now } };
}

/// An end that is about to send: which way, to or from which hop, what it counts for that hop, its streams, and whether the layers
/// that a message needs are used up. (No model: a `Copy` struct with a lifetime cannot have one.)
#[derive(Clone, Copy)]
pub struct Sender<'a> {
    pub way: Way,
    pub hop: u16,
    pub flow: Flow,
    pub worn: bool,
    pub streams: &'a Streams,
}

/// What a message needs that nothing forbids: its command, and what its sender counts once it is sent. (Without the message, which
/// its caller has at hand.)
#[derive(Clone, Copy, Debug, PartialEq, Eq)]
pub struct Cleared {
    pub command: Command,
    pub flow: Flow,
}

/// What is handed out: hop, command, stream and mark, and the length of the data, which begins at byte 11. Plain numbers, as hosts
/// pass them on.
pub type Delivery = ((u16, u8, u16, u8), usize);

/// What a payload says of itself, once it is known to be well formed.
#[derive(Clone, Copy)]
pub(crate) struct Heading {
    pub(crate) command: Command,
    pub(crate) stream: u16,
    pub(crate) len: usize,
}

impl Message<'_> {
    /// An acknowledgement: an empty SENDME.
    pub fn sendme() -> Message<'static>
        ensures { result ≡ sendme }
    {
        Message {
            command: Command::Sendme.into(),
            stream: 0,
            content: &[],
        }
    }
}
