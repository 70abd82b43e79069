//! The bytes that stand for commands, and the numbers that stand for refusals.
ghost use Rattle.std.specs.Prelude.{◌≡◌};
ghost use Rattle.cell.specs.Commands.{Decodes, Encodes, goes_on, cell_error_number};

use crate::command::{Command, Way};
use crate::error::CellError;
use std::error::Error;
use std::fmt;

/// A byte that stands for no command.
#[derive(Clone, Copy, PartialEq, Eq, Debug)]
pub struct UnknownCommand(pub u8);

/// The command that a byte stands for; most bytes stand for none.
impl TryFrom<u8> for Command {
    type Error = UnknownCommand;

    ghost try_from_gives = { Decodes };

    fn try_from(byte: u8) -> Result<Command, UnknownCommand> {
        match byte {
            1 => Ok(Command::Begin),
            2 => Ok(Command::Data),
            3 => Ok(Command::End),
            4 => Ok(Command::Connected),
            5 => Ok(Command::Sendme),
            10 => Ok(Command::Drop),
            _ => Err(UnknownCommand(byte)),
        }
    }
}

impl From<Command> for u8 {
    ghost from_gives = { Encodes };

    fn from(command: Command) -> u8 {
        match command {
            Command::Begin => 1,
            Command::Data => 2,
            Command::End => 3,
            Command::Connected => 4,
            Command::Sendme => 5,
            Command::Drop => 10,
        }
    }
}

impl Command {
    /// Whether a payload of this command may go this way.
    pub fn goes(self, way: Way) -> bool
        ensures { result ≡ goes_on self way }
    {
        !matches!(
            (self, way),
            (Command::Begin, Way::Backward) | (Command::Connected, Way::Forward)
        )
    }
}

impl fmt::Display for UnknownCommand {
    fn fmt<W: fmt::Write>(&self, f: &mut fmt::Formatter<W>) -> fmt::Result {
        write!(f, "no command has the byte {}", self.0)
    }
}

impl Error for UnknownCommand {}

impl CellError {
    /// The number of the refusal in docs/refusals.md.
    pub fn number(&self) -> u8
        ensures { result ≡ cell_error_number self.now }
    {
        match self {
            CellError::Length => 1,
            CellError::Header => 2,
            CellError::TooLong => 6,
        }
    }
}
