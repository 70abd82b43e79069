//! The rule of receiving: whether a command is late, and what is recorded once it was delivered. The client receives backward, a
//! relay forward; only BEGIN makes the two differ.
#![tactic(auto, using(crate::proofs::Commands::rule_of_receiving), unfolding(crate::specs::Views::streams_seen))]

ghost use Rattle.std.specs.Prelude.{◌≡◌, not};
ghost use Rattle.cell.specs.Commands.{command_byte};
ghost use Rattle.model.specs.Streams.{receives, or_unchanged, mark_of, is_broken};
ghost use Rattle.streams.specs.Views.{streams_seen};
ghost use Rattle.streams.specs.Marks.{mark_number};
ghost use Rattle.streams.specs.Order.{KeptByReceiving};

use crate::types::{Mark, Streams};
use cell::{Command, Way};

impl Streams {
    // Whether a command that comes this way is in time.
    fn is_in_time(&self, way: Way, hop: u16, command: Command, stream: u16) -> bool
        ensures { result ≡ not (is_broken (receives way hop (command_byte command) stream (streams_seen self.now))) }
    {
        match command {
            Command::Begin => match way {
                Way::Forward => self.may_start(stream),
                Way::Backward => false,
            },
            Command::Sendme | Command::Drop => true,
            Command::Connected | Command::Data | Command::End => self.allows(hop, command, stream),
        }
    }

    /// The mark of a command that would be delivered now.
    pub fn mark(&self, way: Way, hop: u16, command: Command, stream: u16) -> Mark
        ensures { mark_number result ≡ mark_of (receives way hop (command_byte command) stream (streams_seen self.now)) }
    {
        if self.is_in_time(way, hop, command, stream) {
            Mark::InTime
        } else {
            Mark::Late
        }
    }

    /// A command that came this way was delivered; a late one changes nothing.
    pub fn received(&mut self, way: Way, hop: u16, command: Command, stream: u16) -> Mark
        ensures mark { mark_number result ≡ mark_of (receives way hop (command_byte command) stream (streams_seen self.old)) }
        ensures after { streams_seen self.new ≡ or_unchanged (streams_seen self.old) (receives way hop (command_byte command) stream (streams_seen self.old)) }
        ensures order { KeptByReceiving way (streams_seen self.old) (streams_seen self.new) }
    {
        match command {
            Command::Begin => match way {
                Way::Forward => self.accept(hop, stream),
                Way::Backward => Mark::Late,
            },
            Command::Sendme | Command::Drop => Mark::InTime,
            Command::Connected | Command::Data | Command::End => {
                let mark = self.mark(way, hop, command, stream);
                self.change(hop, command, stream);
                mark
            }
        }
    }
}
