//! The fields of a vector, in their order.
use fields::field::{FieldError, bytes, end, number, text};
use std::alloc::{AllocError, Global};
use std::array::TryFromSliceError;
use std::str::Split;

/// Why a line was not run.
#[derive(Drop)]
pub enum Stop {
    NoVector,
    Memory(AllocError),
}

impl From<AllocError> for Stop {
    fn from(e: AllocError) -> Stop {
        Stop::Memory(e)
    }
}

/// A key, a block or a payload of another length.
impl From<TryFromSliceError> for Stop {
    fn from(_e: TryFromSliceError) -> Stop {
        Stop::NoVector
    }
}

impl From<FieldError> for Stop {
    fn from(e: FieldError) -> Stop {
        match e {
            FieldError::Memory(e) => Stop::Memory(e),
            _ => Stop::NoVector,
        }
    }
}

/// What is left to read of a line.
#[derive(Drop)]
pub struct Fields<'a> {
    pub heap: Global,
    pub parts: Split<'a, char>,
}

impl<'a> Fields<'a> {
    pub fn text(&mut self, name: &str) -> Result<&'a [u8], Stop> {
        Ok(text(self.parts.next(), name)?)
    }

    pub fn bytes(&mut self, name: &str) -> Result<Vec<u8>, Stop> {
        Ok(bytes(self.heap, self.parts.next(), name)?)
    }

    pub fn number(&mut self, name: &str) -> Result<u32, Stop> {
        Ok(number(self.parts.next(), name, u32::MAX)?)
    }

    /// What is given to the function and what it has to answer, the last two fields.
    pub fn in_and_out(mut self) -> Result<(Vec<u8>, Vec<u8>), Stop> {
        let given = self.bytes("in=")?;
        let out = self.out()?;
        Ok((given, out))
    }

    /// What has to come out, the last field.
    pub fn out(mut self) -> Result<Vec<u8>, Stop> {
        let out = self.bytes("out=")?;
        end(self.parts.next())?;
        Ok(out)
    }
}
