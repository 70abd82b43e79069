//! An end's layers, and how it moves on once a payload is sent or accepted.
ghost use Rattle.std.specs.Prelude.{◌≡◌, ℕ, leb, if◌then◌else◌, nat_le};
ghost use Rattle.model.specs.Ends.{layer_limit, moved};
ghost use Rattle.hops.specs.Views.{end_seen, took_to};

use crate::end::End;
use crypto::cipher::Cipher;
use crypto::digest::Digest;

/// No layer of this number or above is ever used.
const LAYER_LIMIT: u32 = 134_217_728;

impl<C: Cipher, D: Digest + Drop> End<C, D> {
    /// An end that has used no layer.
    pub fn new(cipher: C, digest: D) -> End<C, D>
        ensures { end_seen D.Digest result ≡ record { cipher = cipher; layer = 0; digest = D.Digest.state digest } }
    {
        End {
            cipher,
            digest,
            layer: 0,
        }
    }

    /// Whether its layers are used up.
    pub fn is_worn(&self) -> bool
        ensures { result ≡ nat_le layer_limit self.now.layer }
    {
        self.layer >= LAYER_LIMIT
    }

    /// Adds its next layer. The end moves on only once the payload is sent.
    pub fn add_layer(&self, payload: &mut [u8])
        ensures { payload.new ≡ C.Cipher.added self.now.cipher self.now.layer payload.old }
    {
        self.cipher.add(self.layer, payload);
    }

    /// Removes its next layer. The end moves on only once the payload is accepted.
    pub fn remove_layer(&self, payload: &mut [u8])
        ensures { payload.new ≡ C.Cipher.removed self.now.cipher self.now.layer payload.old }
    {
        self.cipher.remove(self.layer, payload);
    }

    /// A layer was used. An end whose layers are used up stays as it is.
    pub fn move_on(&mut self)
        ensures { end_seen D.Digest self.new ≡ (if leb layer_limit self.old.layer then end_seen D.Digest self.old else moved (end_seen D.Digest self.old)) }
    {
        if !self.is_worn() {
            self.layer += 1;
        }
    }

    /// A layer was used, and the digest took a payload. An end whose layers are used up stays as it is.
    pub fn take_on(&mut self, taken: D)
        ensures { end_seen D.Digest self.new ≡ (if leb layer_limit self.old.layer then end_seen D.Digest self.old else took_to (end_seen D.Digest self.old) (D.Digest.state taken)) }
    {
        if !self.is_worn() {
            self.digest = taken;
            self.move_on();
        }
    }
}
