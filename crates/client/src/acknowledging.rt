//! An acknowledgement of a hop's DATA, for a client alone and for one whose link may have no room.
ghost use Rattle.std.specs.Prelude.{◌≡◌, true, is_ok, if◌then◌else◌};
ghost use Rattle.model.specs.Messages.{sendme};
ghost use Rattle.messages.specs.Answers.{alone, if_sent};
ghost use Rattle.client.specs.Views.{client_seen, Becomes};
ghost use Rattle.client.specs.Answers.{sendme_answer, acknowledged_to, wrapped_to};

use crate::parts::Client;
use cell::PAYLOAD_SIZE;
use crypto::cipher::Cipher;
use crypto::digest::Digest;
use messages::{EndFault, LENGTH, Message};

impl<C: Cipher, D: Digest + Drop> Client<C, D> {
    /// Acknowledges 100 DATA of a hop by an empty SENDME.
    pub fn acknowledge(&mut self, hop: u16, payload: &mut [u8]) -> Result<(), EndFault>
        ensures answer { result ≡ alone (sendme_answer C.Cipher D.Digest self.old true hop payload.old) }
        ensures client { Becomes D.Digest self.old self.new (if is_ok result then acknowledged_to C.Cipher D.Digest self.old hop else client_seen D.Digest self.old) }
        ensures payload { payload.new ≡ (if is_ok result then wrapped_to C.Cipher D.Digest self.old hop sendme else payload.old) }
    {
        self.acknowledge_if(true, hop, payload)?;
        Ok(())
    }

    /// The same, if there is room; the answer is whether it was sent.
    pub fn acknowledge_if(
        &mut self,
        room: bool,
        hop: u16,
        payload: &mut [u8],
    ) -> Result<bool, EndFault>
        ensures answer { result ≡ sendme_answer C.Cipher D.Digest self.old room hop payload.old }
        ensures client { Becomes D.Digest self.old self.new (if_sent result (acknowledged_to C.Cipher D.Digest self.old hop) (client_seen D.Digest self.old)) }
        ensures payload { payload.new ≡ if_sent result (wrapped_to C.Cipher D.Digest self.old hop sendme) payload.old }
    {
        let payload = payload.as_mut_array::<PAYLOAD_SIZE>().ok_or(LENGTH)?;
        let d = self.place(hop)?;
        let cleared = self.sender(d).sendme()?;
        self.post(room, d, &Message::sendme(), cleared, payload)
    }
}
