//! What a hop works with: for each way a cipher and a running digest, of any suite.
use aes::CounterMode;
use lioness::Lioness;
use sha_1::running::Sha1;
use sha3::running::Sha3;

/// The cipher of a suite. Hops of one circuit may have different ones.
#[derive(Drop)]
pub enum SuiteCipher {
    /// AES-128 or AES-256 in counter mode.
    Counter(CounterMode),
    Lioness(Lioness),
}

/// The running digest of a suite.
#[derive(Drop)]
pub enum SuiteDigest {
    Sha1(Sha1),
    Sha3(Sha3),
}

/// One way of a hop.
#[derive(Drop)]
pub struct WayKeys {
    pub cipher: SuiteCipher,
    pub digest: SuiteDigest,
}

/// Both ways of a hop.
#[derive(Drop)]
pub struct HopKeys {
    pub forward: WayKeys,
    pub backward: WayKeys,
}
