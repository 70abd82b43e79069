//! Why no client is made, in words.
use crate::faults::OpenError;
use std::error::Error;
use std::fmt;

impl fmt::Display for OpenError {
    fn fmt<W: fmt::Write>(&self, f: &mut fmt::Formatter<W>) -> fmt::Result {
        let text = match self {
            OpenError::Hops => "a client has 1 to 8 hops, and as many ends backward as forward",
            OpenError::Memory => "out of memory",
        };
        match self.number() {
            Some(number) => write!(f, "{text} ({number})"),
            None => f.write_str(text),
        }
    }
}

impl Error for OpenError {}
