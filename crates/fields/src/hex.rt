//! Bytes as lower-case hexadecimal.
ghost use Rattle.std.specs.Prelude.{◌≡◌, ℕ, ◌<◌, List, [], ◌∷◌, IfSome, Option, Some, None, MatchOption, MatchResult};
ghost use Rattle.fields.specs.Hex.{digit_value, behind, pair_value, decoded};

use std::alloc::{AllocError, Global};
use std::fmt;

// Not `to_digit(16)`, which takes upper case.
fn digit(c: u8) -> Option<u8>
    ensures value { result ≡ digit_value c }
    ensures small { IfSome result (λ v. v < 16) }
{
    match c {
        b'0'..=b'9' => Some(c - b'0'),
        b'a'..=b'f' => Some(c - b'a' + 10),
        _ => None,
    }
}

// The byte of two digits, none where one is no digit.
fn byte_of(high: u8, low: u8) -> Option<u8>
    ensures { (rest : Option (List ℕ)) → MatchOption result
        (pair_value (digit_value high) (digit_value low) rest ≡ None)
        (λ b. pair_value (digit_value high) (digit_value low) rest ≡ behind (b ∷ []) rest) }
{
    let high = digit(high)?;
    let low = digit(low)?;
    Some(high * 16 + low)
}

/// The bytes that a text stands for, or none where a digit is missing, in upper case or no digit at all.
pub fn decode(heap: Global, text: &[u8]) -> Result<Option<Vec<u8>>, AllocError>
    ensures { MatchResult result
        (λ o. MatchOption o (decoded text.now ≡ None) (λ v. decoded text.now ≡ Some v.items))
        (λ _. Unit {0}) }
{
    let (pairs, odd) = text.as_chunks::<2>();
    if !odd.is_empty() {
        return Ok(None);
    }
    let mut bytes = Vec::new(heap);
    for [high, low] in pairs {
        // Not `?`, which would answer an error: that a text stands for no bytes is an answer here, and want of memory the error.
        let Some(byte) = byte_of(*high, *low) else {
            return Ok(None);
        };
        bytes.push(byte)?;
    }
    Ok(Some(bytes))
}

/// Bytes to be printed in lower-case hexadecimal.
#[derive(Drop)]
pub struct Hex<'a>(pub &'a [u8]);

impl fmt::Display for Hex<'_> {
    fn fmt<W: fmt::Write>(&self, f: &mut fmt::Formatter<W>) -> fmt::Result {
        for b in self.0 {
            write!(f, "{b:02x}")?;
        }
        Ok(())
    }
}
