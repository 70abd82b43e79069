//! The fields of a line: each has a name, and its value stands behind the name.
ghost use Rattle.std.specs.Prelude.{◌≡◌, ℕ, List, ◌++◌, MatchOption, MatchResult, IfOk, Ok, Err, ◌≤◌, ◌⊎◌, ◌≢◌, alloc_error};
ghost use Rattle.std.specs.Option.{option_copied};
ghost use Rattle.fields.specs.Field.{text_of, number_of, bytes_of, end_of};
ghost use Rattle.fields.specs.declared.field.FieldError.TheVariants.{Memory};

use crate::decimal::decimal;
use crate::hex::decode;
use std::alloc::{AllocError, Global};
use std::error::Error;
use std::fmt;

/// Why a field was not read.
#[derive(Clone, Copy, Debug, PartialEq, Eq)]
pub enum FieldError {
    Missing,
    Name,
    Number { most: u32 },
    Hexadecimal,
    Trailing,
    Memory(AllocError),
}

impl fmt::Display for FieldError {
    fn fmt<W: fmt::Write>(&self, f: &mut fmt::Formatter<W>) -> fmt::Result {
        match self {
            FieldError::Missing => write!(f, "a field is missing"),
            FieldError::Name => write!(f, "a field has another name"),
            FieldError::Number { most } => {
                write!(f, "a number is not a decimal number from 0 to {most}")
            }
            FieldError::Hexadecimal => write!(f, "bytes are not in lower-case hexadecimal"),
            FieldError::Trailing => write!(f, "something follows the last field"),
            FieldError::Memory(e) => write!(f, "{e}"),
        }
    }
}

impl Error for FieldError {}

impl From<AllocError> for FieldError {
    ghost from_gives = { λ e r. r ≡ Memory e };

    fn from(e: AllocError) -> FieldError {
        Self::Memory(e)
    }
}

// `strip_prefix`, with what it answers said of lists. Apart from `behind`, so that a wrong argument there is refused there.
fn stripped<'a>(part: &'a [u8], name: &[u8]) -> Option<&'a [u8]>
    ensures { MatchOption result
        ((rest : List ℕ) → part.now ≢ name.now ++ rest)
        (λ v. part.now ≡ name.now ++ v.now) }
{
    part.strip_prefix(name)
}

/// What stands behind the name in a part of a line, or none where the part does not begin with the name.
pub fn behind<'a>(part: &'a [u8], name: &[u8]) -> Option<&'a [u8]>
    ensures { MatchOption result
        ((rest : List ℕ) → part.now ≢ name.now ++ rest)
        (λ v. part.now ≡ name.now ++ v.now) }
{
    stripped(part, name)
}

/// The text behind the name in the next part of a line.
pub fn text<'a>(part: Option<&'a str>, name: &str) -> Result<&'a [u8], FieldError>
    ensures { MatchResult result
        (λ v. text_of (option_copied part.entry) name.now ≡ Ok v.now)
        (λ e. text_of (option_copied part.entry) name.now ≡ Err e) }
{
    let part = part.ok_or(FieldError::Missing)?;
    behind(part.as_bytes(), name.as_bytes()).ok_or(FieldError::Name)
}

/// The number from 0 to `most` behind the name.
pub fn number(part: Option<&str>, name: &str, most: u32) -> Result<u32, FieldError>
    ensures value { result ≡ number_of most (text_of (option_copied part.entry) name.now) }
    ensures within { IfOk result (λ n. n ≤ most) }
{
    decimal(text(part, name)?, most).ok_or(FieldError::Number { most })
}

/// The number from 0 to 65535 behind the name.
pub fn short(part: Option<&str>, name: &str) -> Result<u16, FieldError>
    ensures { result ≡ number_of 65535 (text_of (option_copied part.entry) name.now) }
{
    Ok(number(part, name, 65_535)? as u16)
}

/// The bytes behind the name.
pub fn bytes(heap: Global, part: Option<&str>, name: &str) -> Result<Vec<u8>, FieldError>
    ensures { MatchResult result
        (λ v. bytes_of (text_of (option_copied part.entry) name.now) ≡ Ok v.items)
        (λ e. (e ≡ Memory alloc_error) ⊎ (bytes_of (text_of (option_copied part.entry) name.now) ≡ Err e)) }
{
    decode(heap, text(part, name)?)?.ok_or(FieldError::Hexadecimal)
}

/// Nothing follows the last field.
pub fn end(part: Option<&str>) -> Result<(), FieldError>
    ensures { result ≡ end_of (option_copied part.entry) }
{
    match part {
        None => Ok(()),
        Some(_) => Err(FieldError::Trailing),
    }
}
