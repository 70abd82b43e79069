//! Windows and acknowledgements: what may be sent, what may be received, and what is counted.
ghost use Rattle.std.specs.Prelude.{◌≡◌, ◌-◌, ◌*◌, ◌≤◌, not, ◌&&◌, if◌then◌else◌, nat_le, nat_lt};
ghost use Rattle.cell.specs.Commands.{command_byte};
ghost use Rattle.model.specs.Messages.{is_data, is_sendme};
ghost use Rattle.model.specs.Flows.{step, window_start, message_limit, posted as after_posted, received as after_received, acknowledged as after_acknowledged, overruns as too_many};
ghost use Rattle.streams.specs.Views.{flow_seen};
ghost use Rattle.streams.specs.Counts.{Within};

use crate::types::{Flow, MESSAGE_LIMIT, STEP, WINDOW_START};
use cell::Command;

impl Flow {
    /// Whether the window lets a command be sent: only DATA needs one.
    pub fn window_allows(&self, command: Command) -> bool
        ensures answer { result ≡ not (nat_lt (flow_seen self.now).window (is_data (command_byte command))) }
        ensures within { Within (flow_seen self.now) }
    {
        data_count(command) <= self.window
    }

    /// Whether this end sent all the messages that it may ever send.
    pub fn spent(&self) -> bool
        ensures answer { result ≡ nat_le message_limit (flow_seen self.now).sent }
        ensures within { Within (flow_seen self.now) }
    {
        self.sent >= MESSAGE_LIMIT
    }

    /// Whether enough DATA is unacknowledged for one acknowledgement.
    pub fn due(&self) -> bool
        ensures answer { result ≡ not (nat_lt (flow_seen self.now).unacknowledged step) }
        ensures within { Within (flow_seen self.now) }
    {
        self.unacknowledged >= STEP
    }

    /// Whether the other end sent more than its window, or acknowledged more than it received.
    #[tactic(auto, unfolding(model::specs::Flows::overruns))]
    pub fn overruns(&self, command: Command) -> bool
        ensures answer { result ≡ too_many (command_byte command) (flow_seen self.now) }
        ensures within { Within (flow_seen self.now) }
    {
        match command {
            Command::Data => self.unacknowledged >= WINDOW_START,
            Command::Sendme => self.window > WINDOW_START - STEP,
            Command::Begin | Command::Connected | Command::Drop | Command::End => false,
        }
    }

    /// A command was sent. Where the window or the number of messages does not allow it, nothing changes. The answer is whether it was
    /// allowed: a refusal has no other cause, so it needs no error.
    pub fn posted(&mut self, command: Command) -> bool
        ensures allowed { result ≡ (not (nat_lt (flow_seen self.old).window (is_data (command_byte command))) && not (nat_le message_limit (flow_seen self.old).sent)) }
        ensures after { flow_seen self.new ≡ (if result then after_posted (command_byte command) (flow_seen self.old) else flow_seen self.old) }
        ensures within { Within (flow_seen self.new) }
    {
        if !self.window_allows(command) || self.spent() {
            return false;
        }
        self.window -= data_count(command);
        self.sent += 1;
        true
    }

    /// A command was delivered, late or not. One that overruns changes nothing. The answer is whether it was allowed, as of `posted`.
    pub fn received(&mut self, command: Command) -> bool
        ensures allowed { result ≡ not (too_many (command_byte command) (flow_seen self.old)) }
        ensures after { flow_seen self.new ≡ (if result then after_received (command_byte command) (flow_seen self.old) else flow_seen self.old) }
        ensures within { Within (flow_seen self.new) }
    {
        if self.overruns(command) {
            return false;
        }
        self.window += raise(command);
        self.unacknowledged += data_count(command);
        true
    }

    /// 100 DATA were acknowledged. Where fewer wait, nothing changes. The answer is whether it was allowed, as of `posted`.
    pub fn acknowledged(&mut self) -> bool
        ensures allowed { result ≡ not (nat_lt (flow_seen self.old).unacknowledged step) }
        ensures after { flow_seen self.new ≡ (if result then after_acknowledged (flow_seen self.old) else flow_seen self.old) }
        ensures within { Within (flow_seen self.new) }
    {
        if !self.due() {
            return false;
        }
        self.unacknowledged -= STEP;
        true
    }
}

// DATA counts one, every other command nothing. (Apart from `sendme_count`: each promises a count of the model, which one function of
// both commands could name only by a command's number.)
#[tactic(auto, using(crate::proofs::Windows::other_data), unfolding(model::specs::Messages::is_data))]
fn data_count(command: Command) -> u16
    ensures { result ≡ is_data (command_byte command) }
{
    match command {
        Command::Data => 1,
        _ => 0,
    }
}

// A SENDME raises the window by 100.
fn raise(command: Command) -> u16
    ensures { result ≡ step * is_sendme (command_byte command) }
{
    STEP * sendme_count(command)
}

#[tactic(auto, using(crate::proofs::Windows::other_sendme), unfolding(model::specs::Messages::is_sendme))]
fn sendme_count(command: Command) -> u16
    ensures count { result ≡ is_sendme (command_byte command) }
    ensures at_most_one { result ≤ 1 }
{
    match command {
        Command::Sendme => 1,
        _ => 0,
    }
}
