//! The refusals in words, each with its number.
use crate::faults::{EndError, EndFault};
use std::error::Error;
use std::fmt;

impl fmt::Display for EndError {
    fn fmt<W: fmt::Write>(&self, f: &mut fmt::Formatter<W>) -> fmt::Result {
        let text = match self {
            EndError::Cell(error) => return write!(f, "{error} ({})", self.number()),
            EndError::Command => "this end may not send such a command",
            EndError::DataLength => "the data is more than 498 bytes",
            EndError::NoSuchHop => "there is no such hop",
            EndError::Stream => "the stream's state does not allow the command",
            EndError::Window => "the window is used up",
            EndError::Spent => "the messages or the layers are used up",
            EndError::Coincidence => "this hop would take the payload for its own",
            EndError::NotDue => "fewer than 100 DATA are unacknowledged",
            EndError::Unrecognised => "no hop's test passed",
            EndError::Malformed => "the payload is none that its sender may send",
            EndError::Overrun => "the sender went beyond its window",
        };
        write!(f, "{text} ({})", self.number())
    }
}

impl Error for EndError {}

impl fmt::Display for EndFault {
    fn fmt<W: fmt::Write>(&self, f: &mut fmt::Formatter<W>) -> fmt::Result {
        match self.at {
            0 => write!(f, "{}", self.error),
            hop => write!(f, "hop {hop}: {}", self.error),
        }
    }
}

impl Error for EndFault {}
