//! What an end may send. The tests change nothing: they answer what the sender counts once the message is sent.
ghost use Rattle.std.specs.Prelude.{◌≡◌, false, Some, None, MatchResult, nat_le, nat_lt};
ghost use Rattle.model.specs.Messages.{sendme};
ghost use Rattle.model.specs.Flows.{step, message_limit, posted, acknowledged};
ghost use Rattle.streams.specs.Views.{flow_seen};
ghost use Rattle.messages.specs.Faults.{fault_by};
ghost use Rattle.messages.specs.Refusals.{exhausted as used, message_refusal, sendme_refusal};
ghost use Rattle.messages.specs.Sending.{sending, MaySend, MayAcknowledge};

use crate::faults::{EndError, EndFault};
use crate::heading::sendable;
use crate::parts::{Cleared, Message, Sender};
use cell::{Command, DATA_LIMIT};
use streams::Flow;

impl Sender<'_> {
    /// Whether it may send a message: 5, 6, 8, 9 and 10, in this order.
    pub fn message(&self, message: &Message<'_>) -> Result<Cleared, EndFault>
        ensures { MatchResult result
            (λ x. MaySend (sending self.now) message.now x)
            (λ f. fault_by self.now.hop (message_refusal (sending self.now) message.now) ≡ Some f) }
    {
        let command = sendable(self.way, message.command).ok_or(EndError::Command.at(self.hop))?;
        if message.content.len() > DATA_LIMIT {
            return Err(EndError::DataLength.at(self.hop));
        }
        if !self
            .streams
            .may_send(self.way, self.hop, command, message.stream)
        {
            return Err(EndError::Stream.at(self.hop));
        }
        if !self.flow.window_allows(command) {
            return Err(EndError::Window.at(self.hop));
        }
        if self.exhausted() {
            return Err(EndError::Spent.at(self.hop));
        }
        let mut flow = self.flow;
        flow.posted(command);
        Ok(Cleared { command, flow })
    }

    /// Whether it may acknowledge 100 DATA by an empty SENDME: 12 and 10, in this order.
    pub fn sendme(&self) -> Result<Cleared, EndFault>
        ensures { MatchResult result
            (λ x. MayAcknowledge (sending self.now) x)
            (λ f. fault_by self.now.hop (sendme_refusal (sending self.now)) ≡ Some f) }
    {
        if !self.flow.due() {
            return Err(EndError::NotDue.at(self.hop));
        }
        if self.exhausted() {
            return Err(EndError::Spent.at(self.hop));
        }
        Ok(Cleared {
            command: Command::Sendme,
            flow: after_sendme(self.flow),
        })
    }

    // The messages of the hop, or the layers, are used up.
    fn exhausted(&self) -> bool
        ensures { result ≡ used (sending self.now) }
    {
        self.flow.spent() || self.worn
    }
}

// 100 DATA are acknowledged, and one SENDME is sent.
fn after_sendme(flow: Flow) -> Flow
    requires due { nat_lt (flow_seen flow).unacknowledged step ≡ false }
    requires unspent { nat_le message_limit (flow_seen flow).sent ≡ false }
    ensures { flow_seen result ≡ posted sendme.command (acknowledged (flow_seen flow)) }
{
    let mut next = flow;
    next.acknowledged();
    next.posted(Command::Sendme);
    next
}
