//! Commands and payloads, as the rules of a way see them.
ghost use Rattle.std.specs.Prelude.{◌≡◌, is_some, IfSome};
ghost use Rattle.cell.specs.Commands.{command_byte};
ghost use Rattle.model.specs.Messages.{may_send, travels, well_formed};
ghost use Rattle.messages.specs.Headings.{Headed, owns_no_stream};

use crate::parts::Heading;
use cell::{Command, PayloadReader, Way};

// The command of a number, if it may travel this way.
fn travelling(way: Way, number: u8) -> Option<Command>
    ensures test { is_some result ≡ travels way number }
    ensures command { IfSome result (λ c. command_byte c ≡ number) }
{
    let command = Command::try_from(number).ok()?;
    command.goes(way).then_some(command)
}

/// The command of a number, if a host may send it this way.
pub(crate) fn sendable(way: Way, number: u8) -> Option<Command>
    ensures test { is_some result ≡ may_send way number }
    ensures command { IfSome result (λ c. command_byte c ≡ number) }
{
    // A match and no `filter`, whose answer would be told apart by hand in the proof.
    match travelling(way, number)? {
        Command::Sendme => None,
        command => Some(command),
    }
}

// SENDME and DROP belong to no stream.
fn is_streamless(command: Command) -> bool
    ensures { result ≡ owns_no_stream command }
{
    matches!(command, Command::Sendme | Command::Drop)
}

/// What a payload says of itself, if a receiver of this way may be handed it.
pub(crate) fn heading(way: Way, reader: &PayloadReader<'_>) -> Option<Heading>
    ensures test { is_some result ≡ well_formed way reader.now.bytes.now }
    ensures parts { IfSome result (λ h. Headed h reader.now.bytes.now) }
{
    let part = reader.data_part().ok()?;
    let command = travelling(way, reader.command())?;
    let stream = reader.stream();
    if is_streamless(command) && stream != 0 {
        return None;
    }
    Some(Heading {
        command,
        stream,
        len: part.len,
    })
}
