//! One record under one command.
ghost use Rattle.std.specs.Prelude.{◌≡◌};
ghost use Rattle.cell.specs.Commands.{command_byte};
ghost use Rattle.model.specs.Streams.{effect};
ghost use Rattle.streams.specs.Views.{state_seen, record_seen};
ghost use Rattle.streams.specs.Effects.{effect_seen, after_effect};

use crate::types::{Effect, StreamRecord, StreamState};
use cell::Command;

impl StreamRecord {
    /// CONNECTED opens a stream that was begun, DATA needs an open one, END frees either; nothing else is allowed.
    pub fn apply(&mut self, command: Command) -> Effect
        ensures effect { result ≡ effect_seen (effect (state_seen self.old.state) (command_byte command)) }
        ensures after { record_seen self.new ≡ after_effect (record_seen self.old) (effect (state_seen self.old.state) (command_byte command)) }
    {
        match (self.state, command) {
            (StreamState::Begun, Command::Connected) => {
                self.state = StreamState::Open;
                Effect::Kept
            }
            (StreamState::Open, Command::Data) => Effect::Kept,
            (_, Command::End) => Effect::Freed,
            (_, _) => Effect::Forbidden,
        }
    }
}
