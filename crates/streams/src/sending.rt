//! The rule of sending: which command may be sent, and what is recorded once it was. The client sends forward, a relay backward;
//! only BEGIN makes the two differ.
#![tactic(auto, using(crate::proofs::Commands::rule_of_sending), unfolding(crate::specs::Views::streams_seen))]

ghost use Rattle.std.specs.Prelude.{◌≡◌, not};
ghost use Rattle.cell.specs.Commands.{command_byte};
ghost use Rattle.model.specs.Streams.{sends, or_unchanged, is_broken};
ghost use Rattle.streams.specs.Views.{streams_seen};
ghost use Rattle.streams.specs.Order.{KeptBySending};

use crate::types::Streams;
use cell::{Command, Way};

// Way, hop, command and stream one by one: each caller has them from different values, and would make a struct for the one call.
impl Streams {
    /// Whether an end that sends this way may send a command of a stream to or from a hop.
    pub fn may_send(&self, way: Way, hop: u16, command: Command, stream: u16) -> bool
        ensures { result ≡ not (is_broken (sends way hop (command_byte command) stream (streams_seen self.now))) }
    {
        match command {
            Command::Begin => match way {
                Way::Forward => self.may_begin(stream),
                Way::Backward => false,
            },
            Command::Sendme | Command::Drop => stream == 0,
            Command::Connected | Command::Data | Command::End => self.allows(hop, command, stream),
        }
    }

    /// A command was sent this way; where it may not, nothing changes.
    pub fn sent(&mut self, way: Way, hop: u16, command: Command, stream: u16)
        ensures after { streams_seen self.new ≡ or_unchanged (streams_seen self.old) (sends way hop (command_byte command) stream (streams_seen self.old)) }
        ensures order { KeptBySending way (streams_seen self.old) (streams_seen self.new) }
    {
        match command {
            Command::Begin => match way {
                Way::Forward => self.begin(hop, stream),
                Way::Backward => {}
            },
            Command::Sendme | Command::Drop => {}
            Command::Connected | Command::Data | Command::End => self.change(hop, command, stream),
        }
    }
}
