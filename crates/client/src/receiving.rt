//! A payload from the nearest relay: layers are removed outward up to the hop that it is from.
ghost use Rattle.std.specs.Prelude.{◌≡◌, ℕ, ◌+◌, ◌<◌, false, length};
ghost use Rattle.cell.specs.Payload.{zeroed};
ghost use Rattle.model.specs.Ends.{worn_out, advanced};
ghost use Rattle.model.specs.Calls.{client_delivery};
ghost use Rattle.rows.specs.Views.{row_len};
ghost use Rattle.rows.specs.Rows.{advanced_to};
ghost use Rattle.hops.specs.Views.{rules};
ghost use Rattle.messages.specs.Delivery.{handed};
ghost use Rattle.client.specs.Views.{client_seen, Becomes};
ghost use Rattle.client.specs.Answers.{client_taken, client_left, client_receipt, client_next, client_payload};

use crate::parts::Client;
use cell::{PAYLOAD_SIZE, Way};
use crypto::cipher::Cipher;
use crypto::digest::Digest;
use messages::{Delivery, EndError, EndFault, LENGTH, deliver};

impl<C: Cipher, D: Digest + Drop> Client<C, D> {
    /// Takes a payload from the nearest relay: removes layers outward up to the hop that it is from.
    pub fn receive(&mut self, payload: &mut [u8]) -> Result<Delivery, EndFault>
        ensures answer { result ≡ client_receipt C.Cipher D.Digest self.old payload.old }
        ensures client { Becomes D.Digest self.old self.new (client_next C.Cipher D.Digest self.old payload.old) }
        ensures payload { payload.new ≡ client_payload C.Cipher D.Digest self.old payload.old }
    {
        let payload = payload.as_mut_array::<PAYLOAD_SIZE>().ok_or(LENGTH)?;
        if let Some(i) = self.backward.worn_at() {
            return Err(EndError::Spent.at(i as u16 + 1));
        }
        let mut bare = *payload;
        let last = self.backward.len() as u16;
        let (d, taken) = self
            .backward
            .seek(&mut bare)
            .ok_or(EndError::Unrecognised.at(last))?;
        self.take_in(d, taken, &bare, payload)
    }

    // The test of the hop at place d passed.
    fn take_in(
        &mut self,
        d: usize,
        taken: D,
        bare: &[u8; PAYLOAD_SIZE],
        payload: &mut [u8; PAYLOAD_SIZE],
    ) -> Result<Delivery, EndFault>
        requires is_hop { d < row_len self.old.backward }
        requires unworn { worn_out (client_seen D.Digest self.old).backward d ≡ false }
        requires taken { advanced_to (client_seen D.Digest self.old).backward d (D.Digest.state taken) ≡ advanced (rules C.Cipher D.Digest) (client_seen D.Digest self.old).backward d (zeroed bare.now) }
        ensures answer { result ≡ handed (d + 1) (client_delivery (rules C.Cipher D.Digest) (client_seen D.Digest self.old) d bare.now) }
        ensures client { Becomes D.Digest self.old self.new (client_taken (rules C.Cipher D.Digest) (client_seen D.Digest self.old) d bare.now (client_delivery (rules C.Cipher D.Digest) (client_seen D.Digest self.old) d bare.now)) }
        ensures payload { payload.new ≡ client_left payload.old bare.now (client_delivery (rules C.Cipher D.Digest) (client_seen D.Digest self.old) d bare.now) }
    {
        let mut flow = self.flow(d);
        let handed = deliver(
            Way::Backward,
            d as u16 + 1,
            &mut flow,
            &mut self.streams,
            bare,
        )?;
        *payload = *bare;
        self.backward.advance(d, taken);
        self.flows[d] = flow;
        Ok(handed)
    }
}
