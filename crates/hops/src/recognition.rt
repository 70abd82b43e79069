//! Sealing and recognition, on one hop's digest.
ghost use Rattle.std.specs.Prelude.{◌≡◌, ℕ, ◌&&◌, length, is_some, IfSome, is_ok, IfOk, if◌then◌else◌, Some, None, MatchResult, ◌==◌};
ghost use Rattle.cell.specs.Refusals.{size_refusal};
ghost use Rattle.cell.specs.Payload.{recognised_of, tag_of, zeroed};
ghost use Rattle.model.specs.Ends.{recognises, sealed as sealed_by};
ghost use Rattle.model.specs.Lists.{same};
ghost use Rattle.hops.specs.Views.{rules};

use crate::end::End;
use cell::{CellError, PAYLOAD_SIZE, PayloadReader, clear_tag, set_tag};
use crypto::cipher::Cipher;
use crypto::digest::Digest;

// As words and not by `==` on the arrays: one comparison, so that its time does not depend on which byte differs first.
fn same_tag(found: &[u8; 4], tag: &[u8; 4]) -> bool
    ensures { result ≡ same found.now tag.now }
{
    u32::from_be_bytes(*found) == u32::from_be_bytes(*tag)
}

// A copy of the payload, its tag zeroed: the payload as its sender's digest took it.
fn unsealed(payload: &[u8]) -> [u8; PAYLOAD_SIZE]
    requires is_payload { length payload.now ≡ 509 }
    ensures { result ≡ zeroed payload.now }
{
    let mut copy = <[u8; PAYLOAD_SIZE]>::try_from(payload).unwrap();
    clear_tag(&mut copy).unwrap();
    copy
}

/// Whether bytes 1 and 2 are zero: the part of a hop's test that asks no digest.
pub fn check_is_zero(payload: &[u8]) -> bool
    ensures { result ≡ (length payload.now == 509 && recognised_of payload.now == 0) }
{
    PayloadReader::new(payload).is_ok_and(|reader| reader.recognised() == 0)
}

impl<C: Cipher, D: Digest + Drop> End<C, D> {
    /// The part of the test that asks the digest: bytes 5 to 8 are its tag of the payload with those four zeroed. Where it passes, the
    /// answer is the digest as it is once it took that payload. Otherwise that digest is let go, so that a cell which passes by
    /// with two zero check bytes leaves no trace.
    pub fn match_tag(&self, payload: &[u8]) -> Option<D>
        ensures test { is_some result ≡ (length payload.now == 509 && same (tag_of payload.now) (D.Digest.tags (D.Digest.state self.now.digest) (zeroed payload.now))) }
        ensures taken { IfSome result (λ d. D.Digest.state d ≡ D.Digest.takes (D.Digest.state self.now.digest) (zeroed payload.now)) }
    {
        let reader = PayloadReader::new(payload).ok()?;
        let trial = self.digest.trial(&unsealed(payload));
        same_tag(&reader.tag(), &trial.tag).then_some(trial.taken)
    }

    /// The end's test: bytes 1 and 2 are zero, and its tag is that of the payload. Where it passes, the answer is the digest as it is once
    /// the payload is accepted.
    #[tactic(auto, unfolding(model::specs::Ends::recognises))]
    pub fn recognise(&self, payload: &[u8]) -> Option<D>
        ensures test { is_some result ≡ (length payload.now == 509 && recognises D.Digest.tags (D.Digest.state self.now.digest) payload.now) }
        ensures taken { IfSome result (λ d. D.Digest.state d ≡ D.Digest.takes (D.Digest.state self.now.digest) (zeroed payload.now)) }
    {
        if check_is_zero(payload) {
            self.match_tag(payload)
        } else {
            None
        }
    }

    /// Seals a payload whose tag is zero: writes the digest's tag of it. The answer is the digest as it is once the payload is sent; the
    /// end stays as it was, so that a sender who is refused afterwards has nothing to restore.
    #[tactic(auto, unfolding(model::specs::Ends::sealed))]
    pub fn seal(&self, payload: &mut [u8]) -> Result<D, CellError>
        ensures refuses { MatchResult result (λ _. size_refusal 509 payload.old ≡ None) (λ e. size_refusal 509 payload.old ≡ Some e) }
        ensures sealed { payload.new ≡ (if is_ok result then sealed_by (rules C.Cipher D.Digest) (D.Digest.state self.now.digest) payload.old else payload.old) }
        ensures taken { IfOk result (λ d. D.Digest.state d ≡ D.Digest.takes (D.Digest.state self.now.digest) payload.old) }
    {
        // First the length: a digest would hash a payload of any, however long, before `set_tag` refuses it.
        if payload.len() != PAYLOAD_SIZE {
            return Err(CellError::Length);
        }
        let trial = self.digest.trial(payload);
        set_tag(payload, trial.tag)?;
        Ok(trial.taken)
    }
}
