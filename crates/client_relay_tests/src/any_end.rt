//! Either end, by what it answers alone: tests lean on nothing that is proved of it.
use client::Client;
use crypto::cipher::Cipher;
use crypto::digest::Digest;
use messages::{EndFault, Message};
use relay::Relay;
use std::fmt::Debug;
use std::process::Abort;
use std::test::*;

/// Hop, command, stream and mark.
pub type Heading = (u16, u8, u16, u8);

/// The number and the place of a refusal.
pub type Refusal = (u8, u16);

/// What was delivered, or why a call was refused.
pub type Answer = Result<Heading, Refusal>;

/// A message of a command, a stream and data.
pub fn message(command: u8, stream: u16, content: &[u8]) -> Message<'_> {
    Message {
        command,
        stream,
        content,
    }
}

/// What was answered is what is due.
pub fn same<T: PartialEq + Debug + Drop>(rt: &impl Abort, found: T, due: T) -> Result<(), Fail> {
    assert_eq!(rt; found, due);
    Ok(())
}

/// So are the bytes.
pub fn same_bytes(rt: &impl Abort, found: &[u8], due: &[u8]) -> Result<(), Fail> {
    assert!(rt; found == due);
    Ok(())
}

pub trait AnyEnd {
    fn take_in(&mut self, payload: &mut [u8]) -> Result<(Heading, usize), Refusal>;

    /// A client sends to the hop, and the hop's relay replies.
    fn say(&mut self, hop: u16, message: &Message<'_>, payload: &mut [u8]) -> Result<(), Refusal>;

    /// DATA of the hop is acknowledged.
    fn admit(&mut self, hop: u16, payload: &mut [u8]) -> Result<(), Refusal>;

    /// A payload goes by on its way back; no payload goes by a client.
    fn go_by(&mut self, payload: &mut [u8; 509]) -> bool;
}

fn seen<T>(answer: Result<T, EndFault>) -> Result<T, Refusal> {
    answer.map_err(|fault| (fault.number(), fault.at))
}

impl<C: Cipher, D: Digest + Drop> AnyEnd for Client<C, D> {
    fn take_in(&mut self, payload: &mut [u8]) -> Result<(Heading, usize), Refusal> {
        seen(self.receive(payload))
    }

    fn say(&mut self, hop: u16, message: &Message<'_>, payload: &mut [u8]) -> Result<(), Refusal> {
        seen(self.send(hop, message, payload))
    }

    fn admit(&mut self, hop: u16, payload: &mut [u8]) -> Result<(), Refusal> {
        seen(self.acknowledge(hop, payload))
    }

    fn go_by(&mut self, _payload: &mut [u8; 509]) -> bool {
        false
    }
}

impl<C: Cipher, D: Digest + Drop> AnyEnd for Relay<C, D> {
    fn take_in(&mut self, payload: &mut [u8]) -> Result<(Heading, usize), Refusal> {
        seen(self.receive(payload))
    }

    fn say(&mut self, _hop: u16, message: &Message<'_>, payload: &mut [u8]) -> Result<(), Refusal> {
        seen(self.reply(message, payload))
    }

    fn admit(&mut self, _hop: u16, payload: &mut [u8]) -> Result<(), Refusal> {
        seen(self.acknowledge(payload))
    }

    fn go_by(&mut self, payload: &mut [u8; 509]) -> bool {
        self.pass_back(payload).is_ok()
    }
}
