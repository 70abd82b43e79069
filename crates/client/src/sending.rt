//! A message to a hop. Of the two operations one is for a client alone, and one for a client whose link may have no room.
ghost use Rattle.std.specs.Prelude.{◌≡◌, true, is_ok, if◌then◌else◌};
ghost use Rattle.messages.specs.Answers.{alone, if_sent};
ghost use Rattle.client.specs.Views.{client_seen, Becomes};
ghost use Rattle.client.specs.Answers.{client_answer, sent_to, wrapped_to};

use crate::parts::Client;
use cell::PAYLOAD_SIZE;
use crypto::cipher::Cipher;
use crypto::digest::Digest;
use messages::{EndFault, LENGTH, Message};

impl<C: Cipher, D: Digest + Drop> Client<C, D> {
    /// Sends a message to a hop: the payload is sealed for it and has the layers of the hops up to it.
    pub fn send(
        &mut self,
        hop: u16,
        message: &Message<'_>,
        payload: &mut [u8],
    ) -> Result<(), EndFault>
        ensures answer { result ≡ alone (client_answer C.Cipher D.Digest self.old true hop message.now payload.old) }
        ensures client { Becomes D.Digest self.old self.new (if is_ok result then sent_to C.Cipher D.Digest self.old hop message.now else client_seen D.Digest self.old) }
        ensures payload { payload.new ≡ (if is_ok result then wrapped_to C.Cipher D.Digest self.old hop message.now else payload.old) }
    {
        self.send_if(true, hop, message, payload)?;
        Ok(())
    }

    /// The same, if there is room; the answer is whether it was sent. Room is asked for before a coincidence.
    pub fn send_if(
        &mut self,
        room: bool,
        hop: u16,
        message: &Message<'_>,
        payload: &mut [u8],
    ) -> Result<bool, EndFault>
        ensures answer { result ≡ client_answer C.Cipher D.Digest self.old room hop message.now payload.old }
        ensures client { Becomes D.Digest self.old self.new (if_sent result (sent_to C.Cipher D.Digest self.old hop message.now) (client_seen D.Digest self.old)) }
        ensures payload { payload.new ≡ if_sent result (wrapped_to C.Cipher D.Digest self.old hop message.now) payload.old }
    {
        let payload = payload.as_mut_array::<PAYLOAD_SIZE>().ok_or(LENGTH)?;
        let d = self.place(hop)?;
        let cleared = self.sender(d).message(message)?;
        self.post(room, d, message, cleared, payload)
    }
}
