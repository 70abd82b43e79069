//! The running digest of a suite, as one digest.
ghost use Rattle.std.specs.Prelude.{◌≡◌};
ghost use Rattle.std.proofs.Math.Path.{refl};
ghost use Rattle.suites.specs.Digests.{DigestState, digest_state, digest_tags, digest_takes, in_sha1, in_sha3};
ghost use Rattle.sha_1.specs.Digests as one;
ghost use Rattle.sha3.specs.Digests as three;

use crate::keys::SuiteDigest;
use crypto::digest::{Digest, Trial};

// The trial of a suite's digest, from that of the digest inside.
fn wrapped<D, F: FnOnce(D) -> SuiteDigest>(trial: Trial<D>, wrap: F) -> Trial<SuiteDigest>
    requires { F.pre wrap trial.taken }
    ensures tag { result.tag ≡ trial.tag }
    ensures taken { F.post wrap trial.taken result.taken }
{
    let Trial { tag, taken } = trial;
    Trial {
        tag,
        taken: wrap(taken),
    }
}

impl Digest for SuiteDigest {
    ghost State = { DigestState };

    ghost state = { λ d. digest_state d };

    ghost takes = { λ s p. digest_takes s p };

    ghost tags = { λ s p. digest_tags s p };

    ghost tag_length = { unfold one.first_four three.first_four in elim [ in_sha1 s ↦ λ p. refl | in_sha3 s ↦ λ p. refl ] };

    fn take(&mut self, payload: &[u8]) {
        match self {
            SuiteDigest::Sha1(digest) => digest.take(payload),
            SuiteDigest::Sha3(digest) => digest.take(payload),
        }
    }

    fn tag(&self, payload: &[u8]) -> [u8; 4] {
        match self {
            SuiteDigest::Sha1(digest) => digest.tag(payload),
            SuiteDigest::Sha3(digest) => digest.tag(payload),
        }
    }

    fn trial(&self, payload: &[u8]) -> Trial<SuiteDigest> {
        match self {
            SuiteDigest::Sha1(digest) => wrapped(digest.trial(payload), SuiteDigest::Sha1),
            SuiteDigest::Sha3(digest) => wrapped(digest.trial(payload), SuiteDigest::Sha3),
        }
    }
}
