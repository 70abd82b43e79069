//! A slip opened: the keys of both ways, or the first thing wrong with it.
ghost use Rattle.std.specs.Prelude.{◌≡◌, ◌+◌, ◌*◌, length, IfOk, Some, None, MatchResult};
ghost use Rattle.suites.specs.Opened.{CipherOf, DigestOf, Opened};
ghost use Rattle.suites.specs.Suites.{key_length, seed_length, slip_fault, NumberedBy};

use crate::faults::{SlipError, SlipFault};
use crate::keys::{HopKeys, SuiteCipher, SuiteDigest, WayKeys};
use crate::slip::{Slip, Suite};
use aes::CounterMode;
use lioness::Lioness;
use sha_1::running::Sha1;
use sha3::running::Sha3;

impl TryFrom<u16> for Suite {
    type Error = SlipError;

    ghost try_from_gives = { NumberedBy };

    fn try_from(number: u16) -> Result<Suite, SlipError> {
        match number {
            1 => Ok(Suite::Aes128Sha1),
            2 => Ok(Suite::Aes256Sha3),
            3 => Ok(Suite::LionessSha3),
            _ => Err(SlipError::Suite),
        }
    }
}

impl Suite {
    fn seed_length(self) -> usize
        ensures { result ≡ seed_length self }
    {
        match self {
            Suite::Aes128Sha1 => 20,
            Suite::Aes256Sha3 | Suite::LionessSha3 => 32,
        }
    }

    fn key_length(self) -> usize
        ensures { result ≡ key_length self }
    {
        match self {
            Suite::Aes128Sha1 => 16,
            Suite::Aes256Sha3 => 32,
            Suite::LionessSha3 => 128,
        }
    }

    fn cipher(self, key: &[u8]) -> SuiteCipher
        requires { length key.now ≡ key_length self }
        ensures { CipherOf self key.now result }
    {
        match self {
            Suite::Aes128Sha1 => {
                SuiteCipher::Counter(CounterMode::new(key.as_array::<16>().unwrap()))
            }
            Suite::Aes256Sha3 => {
                SuiteCipher::Counter(CounterMode::new(key.as_array::<32>().unwrap()))
            }
            Suite::LionessSha3 => { SuiteCipher::Lioness(Lioness::new(key.as_array().unwrap())) }
        }
    }

    fn digest(self, seed: &[u8]) -> SuiteDigest
        ensures { DigestOf self seed.now result }
    {
        match self {
            Suite::Aes128Sha1 => SuiteDigest::Sha1(Sha1::seeded(seed)),
            Suite::Aes256Sha3 | Suite::LionessSha3 => SuiteDigest::Sha3(Sha3::seeded(seed)),
        }
    }

    fn way_keys(self, seed: &[u8], key: &[u8]) -> WayKeys
        requires { length key.now ≡ key_length self }
        ensures cipher { CipherOf self key.now result.cipher }
        ensures digest { DigestOf self seed.now result.digest }
    {
        WayKeys {
            cipher: self.cipher(key),
            digest: self.digest(seed),
        }
    }
}

impl Slip {
    pub fn new(suite: u16, bytes: Vec<u8>) -> Slip
        ensures suite { result.suite ≡ suite }
        ensures bytes { result.bytes ≡ bytes }
    {
        Slip { suite, bytes }
    }

    /// The keys of both ways. A suite that is none is refused before a length that is not the suite's.
    pub fn open(self, place: u16) -> Result<HopKeys, SlipFault>
        ensures refused { MatchResult result (λ _. slip_fault self.suite (length self.bytes.items) place ≡ None) (λ f. slip_fault self.suite (length self.bytes.items) place ≡ Some f) }
        ensures opened { IfOk result (λ keys. Opened self.suite self.bytes.items keys) }
    {
        let suite = Suite::try_from(self.suite).map_err(|error| error.at(place))?;
        let seed = suite.seed_length();
        let key = suite.key_length();
        if self.bytes.len() != 2 * seed + 2 * key {
            return Err(SlipError::Length.at(place));
        }
        let bytes = &self.bytes;
        Ok(HopKeys {
            forward: suite.way_keys(&bytes[0..seed], &bytes[2 * seed..2 * seed + key]),
            backward: suite.way_keys(
                &bytes[seed..2 * seed],
                &bytes[2 * seed + key..2 * seed + 2 * key],
            ),
        })
    }
}
