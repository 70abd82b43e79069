//! Payloads to the client: the relay's own, and those of relays behind it. Of each two operations one is for a relay alone, and one
//! for a relay whose link may have no room.
ghost use Rattle.std.specs.Prelude.{◌≡◌, ℕ, ◌≤◌, true, false, length, is_ok, if◌then◌else◌, nat_le};
ghost use Rattle.cell.specs.Commands.{command_byte};
ghost use Rattle.model.specs.Messages.{sendme};
ghost use Rattle.model.specs.Ends.{layer_limit};
ghost use Rattle.model.specs.Calls.{relay_adds, relay_added};
ghost use Rattle.hops.specs.Views.{rules};
ghost use Rattle.streams.specs.Views.{flow_seen};
ghost use Rattle.messages.specs.Sending.{sending};
ghost use Rattle.messages.specs.Answers.{alone, if_sent};
ghost use Rattle.relay.specs.Views.{relay_seen, Becomes};
ghost use Rattle.relay.specs.Answers.{sent_by, sender_of, reply_answer, replied, reply_payload, pass_answer, sendme_answer, relay_acknowledged};

use crate::parts::Relay;
use cell::{PAYLOAD_SIZE, Way, write_payload};
use crypto::cipher::Cipher;
use crypto::digest::Digest;
use messages::{Cleared, EndError, EndFault, LENGTH, Message, Sender};

impl<C: Cipher, D: Digest + Drop> Relay<C, D> {
    /// Sends a message to the client: the payload is sealed and has the relay's layer.
    pub fn reply(&mut self, message: &Message<'_>, payload: &mut [u8]) -> Result<(), EndFault>
        ensures answer { result ≡ alone (reply_answer C.Cipher D.Digest self.old true message.now payload.old) }
        ensures relay { Becomes D.Digest self.old self.new (if is_ok result then replied C.Cipher D.Digest self.old message.now else relay_seen D.Digest self.old) }
        ensures payload { payload.new ≡ (if is_ok result then reply_payload C.Cipher D.Digest self.old message.now else payload.old) }
    {
        self.reply_if(true, message, payload)?;
        Ok(())
    }

    /// The same, if there is room; the answer is whether it was sent.
    pub fn reply_if(
        &mut self,
        room: bool,
        message: &Message<'_>,
        payload: &mut [u8],
    ) -> Result<bool, EndFault>
        ensures answer { result ≡ reply_answer C.Cipher D.Digest self.old room message.now payload.old }
        ensures relay { Becomes D.Digest self.old self.new (if_sent result (replied C.Cipher D.Digest self.old message.now) (relay_seen D.Digest self.old)) }
        ensures payload { payload.new ≡ if_sent result (reply_payload C.Cipher D.Digest self.old message.now) payload.old }
    {
        let payload = payload.as_mut_array::<PAYLOAD_SIZE>().ok_or(LENGTH)?;
        let cleared = self.sender().message(message)?;
        if room {
            self.post(message, cleared, payload);
        }
        Ok(room)
    }

    /// Acknowledges 100 DATA of the client by an empty SENDME.
    pub fn acknowledge(&mut self, payload: &mut [u8]) -> Result<(), EndFault>
        ensures answer { result ≡ alone (sendme_answer C.Cipher D.Digest self.old true payload.old) }
        ensures relay { Becomes D.Digest self.old self.new (if is_ok result then relay_acknowledged C.Cipher D.Digest self.old else relay_seen D.Digest self.old) }
        ensures payload { payload.new ≡ (if is_ok result then reply_payload C.Cipher D.Digest self.old sendme else payload.old) }
    {
        self.acknowledge_if(true, payload)?;
        Ok(())
    }

    /// The same, if there is room; the answer is whether it was sent.
    pub fn acknowledge_if(&mut self, room: bool, payload: &mut [u8]) -> Result<bool, EndFault>
        ensures answer { result ≡ sendme_answer C.Cipher D.Digest self.old room payload.old }
        ensures relay { Becomes D.Digest self.old self.new (if_sent result (relay_acknowledged C.Cipher D.Digest self.old) (relay_seen D.Digest self.old)) }
        ensures payload { payload.new ≡ if_sent result (reply_payload C.Cipher D.Digest self.old sendme) payload.old }
    {
        let payload = payload.as_mut_array::<PAYLOAD_SIZE>().ok_or(LENGTH)?;
        let cleared = self.sender().sendme()?;
        if room {
            self.post(&Message::sendme(), cleared, payload);
        }
        Ok(room)
    }

    /// Adds the relay's layer to a payload on its way to the client.
    pub fn pass_back(&mut self, payload: &mut [u8]) -> Result<(), EndFault>
        ensures answer { result ≡ alone (pass_answer C.Cipher D.Digest self.old true payload.old) }
        ensures relay { Becomes D.Digest self.old self.new (if is_ok result then relay_added (rules C.Cipher D.Digest) (relay_seen D.Digest self.old) else relay_seen D.Digest self.old) }
        ensures payload { payload.new ≡ (if is_ok result then relay_adds (rules C.Cipher D.Digest) (relay_seen D.Digest self.old) payload.old else payload.old) }
    {
        self.pass_back_if(true, payload)?;
        Ok(())
    }

    /// The same, if there is room; the answer is whether it goes on.
    pub fn pass_back_if(&mut self, room: bool, payload: &mut [u8]) -> Result<bool, EndFault>
        ensures answer { result ≡ pass_answer C.Cipher D.Digest self.old room payload.old }
        ensures relay { Becomes D.Digest self.old self.new (if_sent result (relay_added (rules C.Cipher D.Digest) (relay_seen D.Digest self.old)) (relay_seen D.Digest self.old)) }
        ensures payload { payload.new ≡ if_sent result (relay_adds (rules C.Cipher D.Digest) (relay_seen D.Digest self.old) payload.old) payload.old }
    {
        let payload = payload.as_mut_array::<PAYLOAD_SIZE>().ok_or(LENGTH)?;
        if self.backward.is_worn() {
            return Err(EndError::Spent.at(self.hop));
        }
        if room {
            self.backward.add_layer(payload);
            self.backward.move_on();
        }
        Ok(room)
    }

    // What decides whether the relay may send.
    fn sender(&self) -> Sender<'_>
        ensures { sending result ≡ sender_of self.now }
    {
        Sender {
            way: Way::Backward,
            hop: self.hop,
            flow: self.flow,
            worn: self.backward.is_worn(),
            streams: &self.streams,
        }
    }

    // The change once nothing forbids it.
    #[tactic(auto, unfolding(cell::specs::Payload::blank))]
    fn post(&mut self, message: &Message<'_>, cleared: Cleared, payload: &mut [u8; PAYLOAD_SIZE])
        requires fits { length message.now.content ≤ 498 }
        requires command { command_byte cleared.command ≡ message.now.command }
        requires unworn { nat_le layer_limit self.old.backward.layer ≡ false }
        ensures relay { Becomes D.Digest self.old self.new (sent_by (rules C.Cipher D.Digest) (relay_seen D.Digest self.old) self.old.hop (flow_seen cleared.flow) message.now) }
        ensures payload { payload.new ≡ reply_payload C.Cipher D.Digest self.old message.now }
    {
        write_payload(payload, cleared.command, message.stream, message.content).unwrap();
        let taken = self.backward.seal(payload).unwrap();
        self.backward.add_layer(payload);
        self.backward.take_on(taken);
        self.flow = cleared.flow;
        self.streams
            .sent(Way::Backward, self.hop, cleared.command, message.stream);
    }
}
