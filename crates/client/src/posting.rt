//! What sending a message and acknowledging have in common.
ghost use Rattle.std.specs.Prelude.{◌≡◌, ℕ, ◌+◌, ◌<◌, ◌≤◌, Bool, false, List, length, is_ok, if◌then◌else◌, None, Err, Option, MatchResult, slice_set};
ghost use Rattle.cell.specs.Commands.{command_byte};
ghost use Rattle.cell.specs.Payload.{blank};
ghost use Rattle.model.specs.Streams.{or_unchanged, client_sends};
ghost use Rattle.model.specs.Ends.{worn_out, wrapped, advanced, coincidence};
ghost use Rattle.model.specs.Calls.{flow_at};
ghost use Rattle.rows.specs.Views.{row_len};
ghost use Rattle.rows.specs.Rows.{advanced_to};
ghost use Rattle.hops.specs.Views.{rules};
ghost use Rattle.streams.specs.Views.{flow_seen};
ghost use Rattle.messages.specs.Sending.{sending};
ghost use Rattle.messages.specs.Answers.{unless_coincides, if_room, send_answer, if_sent};
ghost use Rattle.client.specs.Views.{client_seen, Becomes};
ghost use Rattle.client.specs.Answers.{sent_by, at_hop, sender_to};

use crate::parts::Client;
use cell::{Command, PAYLOAD_SIZE, Way, write_payload};
use crypto::cipher::Cipher;
use crypto::digest::Digest;
use messages::{Cleared, EndError, EndFault, Message, Sender};
use streams::Flow;
use wraps::{WrapError, wrap};

// What is asked of a place (`is_hop`, `unworn`) is a fact about it and this client, and `command` one about two values: no type of one
// of them alone keeps it.
impl<C: Cipher, D: Digest + Drop> Client<C, D> {
    // The place of a hop in the row.
    pub(crate) fn place(&self, hop: u16) -> Result<usize, EndFault>
        ensures { MatchResult result
            (λ d. (d + 1 ≡ hop) × (d < row_len self.now.forward))
            (λ f. (p : List ℕ) (o : Option ℕ) (room : Bool) (co : Option ℕ) → length p ≡ 509 → Err f ≡ send_answer (at_hop C.Cipher D.Digest self.now hop p o) room co) }
    {
        usize::from(hop)
            .checked_sub(1)
            .filter(|d| *d < self.forward.len())
            .ok_or(EndError::NoSuchHop.at(hop))
    }

    // What decides whether the client may send to the hop at place d.
    pub(crate) fn sender(&self, d: usize) -> Sender<'_>
        requires { d < row_len self.now.forward }
        ensures { sending result ≡ sender_to C.Cipher D.Digest self.now d }
    {
        Sender {
            way: Way::Forward,
            hop: d as u16 + 1,
            flow: self.flow(d),
            worn: self.forward.worn_out(d),
            streams: &self.streams,
        }
    }

    // What is counted for the hop at place d.
    pub(crate) fn flow(&self, d: usize) -> Flow
        requires { d < row_len self.now.forward }
        ensures { flow_seen result ≡ flow_at (rules C.Cipher D.Digest) (client_seen D.Digest self.now) d }
    {
        self.flows[d]
    }

    // Sends what the rules let go, if there is room and no nearer hop would take it for its own.
    pub(crate) fn post(
        &mut self,
        room: bool,
        d: usize,
        message: &Message<'_>,
        cleared: Cleared,
        payload: &mut [u8; PAYLOAD_SIZE],
    ) -> Result<bool, EndFault>
        requires is_hop { d < row_len self.old.forward }
        requires fits { length message.now.content ≤ 498 }
        requires command { command_byte cleared.command ≡ message.now.command }
        requires unworn { worn_out (client_seen D.Digest self.old).forward d ≡ false }
        ensures answer { result ≡ if_room room (coincidence (rules C.Cipher D.Digest) (client_seen D.Digest self.old).forward d (blank message.now)) }
        ensures client { Becomes D.Digest self.old self.new (if_sent result (sent_by (rules C.Cipher D.Digest) (client_seen D.Digest self.old) d (flow_seen cleared.flow) message.now) (client_seen D.Digest self.old)) }
        ensures payload { payload.new ≡ if_sent result (wrapped (rules C.Cipher D.Digest) (client_seen D.Digest self.old).forward d (blank message.now)) payload.old }
    {
        if room {
            let taken = self.prepare(d, message, cleared.command, payload)?;
            self.sent(d, message, cleared, taken);
        }
        Ok(room)
    }

    // Replaces the payload by the wrapped message, unless it coincides. The work is done on a copy.
    #[tactic(auto, unfolding(cell::specs::Payload::blank))]
    fn prepare(
        &self,
        d: usize,
        message: &Message<'_>,
        command: Command,
        payload: &mut [u8; PAYLOAD_SIZE],
    ) -> Result<D, EndFault>
        requires is_hop { d < row_len self.now.forward }
        requires fits { length message.now.content ≤ 498 }
        requires command { command_byte command ≡ message.now.command }
        ensures answer { MatchResult result
            (λ t. (coincidence (rules C.Cipher D.Digest) (client_seen D.Digest self.now).forward d (blank message.now) ≡ None)
            × (advanced_to (client_seen D.Digest self.now).forward d (D.Digest.state t) ≡ advanced (rules C.Cipher D.Digest) (client_seen D.Digest self.now).forward d (blank message.now)))
            (λ f. unless_coincides (coincidence (rules C.Cipher D.Digest) (client_seen D.Digest self.now).forward d (blank message.now)) ≡ Err f) }
        ensures payload { payload.new ≡ (if is_ok result then wrapped (rules C.Cipher D.Digest) (client_seen D.Digest self.now).forward d (blank message.now) else payload.old) }
    {
        let mut work = [0u8; PAYLOAD_SIZE];
        write_payload(&mut work, command, message.stream, message.content).unwrap();
        // A match, since two of the three refusals cannot come: the closure of a `map_err` would have to require that.
        match wrap(&self.forward, d, &mut work) {
            Ok(taken) => {
                *payload = work;
                Ok(taken)
            }
            Err(WrapError::Coincidence(j)) => Err(EndError::Coincidence.at(j as u16 + 1)),
            Err(WrapError::Length | WrapError::NoSuchHop) => unreachable(),
        }
    }

    // The client once a cleared message was sent.
    fn sent(&mut self, d: usize, message: &Message<'_>, cleared: Cleared, taken: D)
        requires is_hop { d < row_len self.old.forward }
        requires unworn { worn_out (client_seen D.Digest self.old).forward d ≡ false }
        ensures client { Becomes D.Digest self.old self.new (record {
          forward = advanced_to (client_seen D.Digest self.old).forward d (D.Digest.state taken);
          backward = (client_seen D.Digest self.old).backward;
          flows = slice_set (client_seen D.Digest self.old).flows d (flow_seen cleared.flow);
          streams = or_unchanged (client_seen D.Digest self.old).streams (client_sends (d + 1) (command_byte cleared.command) message.now.stream (client_seen D.Digest self.old).streams);
        }) }
    {
        self.forward.advance(d, taken);
        self.flows[d] = cleared.flow;
        self.streams.sent(Way::Forward, d as u16 + 1, cleared.command, message.stream);
    }
}
