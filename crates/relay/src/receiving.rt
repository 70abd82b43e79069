//! A payload from the client: the relay's layer is removed, and the payload delivered or left to be passed on.
ghost use Rattle.std.specs.Prelude.{◌≡◌, Bool, true, false, length, if◌then◌else◌, nat_le};
ghost use Rattle.cell.specs.Payload.{zeroed};
ghost use Rattle.model.specs.Ends.{layer_limit};
ghost use Rattle.model.specs.Calls.{refusal, stops, passes_on, relay_delivery};
ghost use Rattle.hops.specs.Views.{rules};
ghost use Rattle.relay.specs.Views.{relay_seen, Becomes, Stays};
ghost use Rattle.relay.specs.Answers.{arrival, in_numbers, leaves, relay_after, relay_answer, relay_next, relay_payload};

use crate::parts::{Arrival, Relay};
use cell::{PAYLOAD_SIZE, Way};
use crypto::cipher::Cipher;
use crypto::digest::Digest;
use messages::{Delivery, EndError, EndFault, LENGTH, deliver};

impl<C: Cipher, D: Digest + Drop> Relay<C, D> {
    /// Takes a payload from the client: removes the relay's layer, and delivers the payload or leaves it to be passed on. The answer
    /// is all 0 where it is to be passed on.
    pub fn receive(&mut self, payload: &mut [u8]) -> Result<Delivery, EndFault>
        ensures answer { result ≡ in_numbers (relay_answer C.Cipher D.Digest self.old true payload.old) }
        ensures relay { Becomes D.Digest self.old self.new (relay_next C.Cipher D.Digest self.old true payload.old) }
        ensures payload { payload.new ≡ relay_payload C.Cipher D.Digest self.old true payload.old }
    {
        match self.receive_if(true, payload)? {
            Arrival::Delivered(handed) => Ok(handed),
            Arrival::Passed | Arrival::Held => Ok(((0, 0, 0, 0), 0)),
        }
    }

    /// The same, where a payload that is to be passed on needs room.
    pub fn receive_if(&mut self, room: bool, payload: &mut [u8]) -> Result<Arrival, EndFault>
        ensures answer { result ≡ relay_answer C.Cipher D.Digest self.old room payload.old }
        ensures relay { Becomes D.Digest self.old self.new (relay_next C.Cipher D.Digest self.old room payload.old) }
        ensures payload { payload.new ≡ relay_payload C.Cipher D.Digest self.old room payload.old }
    {
        let payload = payload.as_mut_array::<PAYLOAD_SIZE>().ok_or(LENGTH)?;
        if self.forward.is_worn() {
            return Err(EndError::Spent.at(self.hop));
        }
        let mut bare = *payload;
        self.forward.remove_layer(&mut bare);
        match self.forward.recognise(&bare) {
            Some(taken) => self.take_in(taken, &bare, payload),
            None => self.pass_on(room, &bare, payload),
        }
    }

    // The test failed.
    fn pass_on(
        &mut self,
        room: bool,
        bare: &[u8; PAYLOAD_SIZE],
        payload: &mut [u8; PAYLOAD_SIZE],
    ) -> Result<Arrival, EndFault>
        requires unworn { nat_le layer_limit self.old.forward.layer ≡ false }
        ensures answer { result ≡ arrival room self.old.hop (if self.old.last then stops (refusal 13 self.old.hop) else passes_on) }
        ensures relay { Becomes D.Digest self.old self.new (relay_after (rules C.Cipher D.Digest) (relay_seen D.Digest self.old) self.old.hop room bare.now (if self.old.last then stops (refusal 13 self.old.hop) else passes_on)) }
        ensures payload { payload.new ≡ leaves room payload.old bare.now (if self.old.last then stops (refusal 13 self.old.hop) else passes_on) }
    {
        if self.last {
            return Err(EndError::Unrecognised.at(self.hop));
        }
        if !room {
            return Ok(Arrival::Held);
        }
        *payload = *bare;
        self.forward.move_on();
        Ok(Arrival::Passed)
    }

    // The test passed. What is delivered needs no room.
    fn take_in(
        &mut self,
        taken: D,
        bare: &[u8; PAYLOAD_SIZE],
        payload: &mut [u8; PAYLOAD_SIZE],
    ) -> Result<Arrival, EndFault>
        requires unworn { nat_le layer_limit self.old.forward.layer ≡ false }
        requires taken { D.Digest.state taken ≡ D.Digest.takes (D.Digest.state self.old.forward.digest) (zeroed bare.now) }
        ensures answer { (room : Bool) → result ≡ arrival room self.old.hop (relay_delivery (rules C.Cipher D.Digest) (relay_seen D.Digest self.old) self.old.hop bare.now) }
        ensures state { (room : Bool) → relay_seen D.Digest self.new ≡ relay_after (rules C.Cipher D.Digest) (relay_seen D.Digest self.old) self.old.hop room bare.now (relay_delivery (rules C.Cipher D.Digest) (relay_seen D.Digest self.old) self.old.hop bare.now) }
        ensures payload { (room : Bool) → payload.new ≡ leaves room payload.old bare.now (relay_delivery (rules C.Cipher D.Digest) (relay_seen D.Digest self.old) self.old.hop bare.now) }
        ensures place { Stays self.old self.new }
    {
        let handed = deliver(
            Way::Forward,
            self.hop,
            &mut self.flow,
            &mut self.streams,
            bare,
        )?;
        *payload = *bare;
        self.forward.take_on(taken);
        Ok(Arrival::Delivered(handed))
    }
}
