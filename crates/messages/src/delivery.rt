//! What an end is handed, and what is counted and recorded then.
ghost use Rattle.std.specs.Prelude.{◌≡◌, not, is_ok, if◌then◌else◌};
ghost use Rattle.cell.specs.Commands.{command_byte};
ghost use Rattle.cell.specs.Payload.{command_of, stream_of};
ghost use Rattle.model.specs.Flows.{received as counted, overruns};
ghost use Rattle.model.specs.Streams.{receives, or_unchanged, mark_of};
ghost use Rattle.streams.specs.Views.{flow_seen, streams_seen};
ghost use Rattle.streams.specs.Marks.{mark_number};
ghost use Rattle.messages.specs.Delivery.{handed, arrives};

use crate::faults::{EndError, EndFault};
use crate::heading::heading;
use crate::parts::{Delivery, Heading};
use cell::{PayloadReader, Way};
use streams::{Flow, Mark, Streams};

/// Hands a payload that came this way to an end of a hop, once the hop's test passed: 14 and 15, or it is counted and recorded.
/// Flow and streams are lent one by one: a client has a flow for each hop, and one table of streams for all.
pub fn deliver(
    way: Way,
    hop: u16,
    flow: &mut Flow,
    streams: &mut Streams,
    payload: &[u8],
) -> Result<Delivery, EndFault>
    ensures answer { result ≡ handed hop (arrives way hop (flow_seen flow.old) (streams_seen streams.old) payload.now) }
    ensures flow { flow_seen flow.new ≡ (if is_ok result then counted (command_of payload.now) (flow_seen flow.old) else flow_seen flow.old) }
    ensures streams { streams_seen streams.new ≡ (if is_ok result then or_unchanged (streams_seen streams.old) (receives way hop (command_of payload.now) (stream_of payload.now) (streams_seen streams.old)) else streams_seen streams.old) }
{
    let reader = PayloadReader::new(payload)?;
    let head = heading(way, &reader).ok_or(EndError::Malformed.at(hop))?;
    if flow.overruns(head.command) {
        return Err(EndError::Overrun.at(hop));
    }
    let mark = accept(way, hop, flow, streams, head);
    Ok((
        (hop, head.command.into(), head.stream, mark.into()),
        head.len,
    ))
}

// Late or not, it counts; it is recorded only in time.
fn accept(way: Way, hop: u16, flow: &mut Flow, streams: &mut Streams, head: Heading) -> Mark
    ensures mark { mark_number result ≡ mark_of (receives way hop (command_byte head.command) head.stream (streams_seen streams.old)) }
    ensures flow { flow_seen flow.new ≡ (if not (overruns (command_byte head.command) (flow_seen flow.old)) then counted (command_byte head.command) (flow_seen flow.old) else flow_seen flow.old) }
    ensures streams { streams_seen streams.new ≡ or_unchanged (streams_seen streams.old) (receives way hop (command_byte head.command) head.stream (streams_seen streams.old)) }
{
    let mark = streams.received(way, hop, head.command, head.stream);
    flow.received(head.command);
    mark
}
