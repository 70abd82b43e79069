//! A client and its relays, with nothing but a payload between them.
use crate::any_end::{Answer, AnyEnd, Refusal, message, same, same_bytes};
use crate::marked::{Marked, end, row};
use cell::PayloadReader;
use client::Client;
use crypto::cipher::Cipher;
use crypto::digest::Digest;
use relay::Relay;
use std::alloc::Global;
use std::process::Abort;
use std::test::*;

/// The data of every message that is sent here.
pub const CONTENT: &[u8] = b"data";

/// What an end does, and the payload then goes to the end that takes or refuses it.
#[derive(Clone, Copy)]
pub enum Step {
    /// The client sends: hop, command and stream.
    Out(u16, u8, u16),
    /// The hop's relay replies: hop, command and stream.
    Back(u16, u8, u16),
    /// The client acknowledges the hop's DATA.
    AdmitOut(u16),
    /// The hop's relay acknowledges.
    AdmitBack(u16),
}

#[derive(Drop)]
pub struct Circuit<C, D> {
    pub client: Client<C, D>,
    pub relays: Vec<Relay<C, D>>,
}

pub fn relay<C: Cipher + Marked + Drop, D: Digest + Marked + Drop>(
    hop: u16,
    last: bool,
    forward: u8,
    backward: u8,
) -> Result<Relay<C, D>, Fail> {
    Ok(Relay::new(hop, last, end(forward), end(backward))?)
}

impl<C: Cipher + Marked + Drop, D: Digest + Marked + Drop> Circuit<C, D> {
    /// A hop for each byte, the nearest first; the bytes of the way forward and those of the way backward.
    pub fn new(heap: Global, forward: &[u8], backward: &[u8]) -> Result<Circuit<C, D>, Fail> {
        let client = Client::new(heap, row(heap, forward)?, row(heap, backward)?)?;
        let mut relays = Vec::new(heap);
        for (hop, (f, b)) in (1..=8u16).zip(forward.iter().zip(backward)) {
            relays.push(relay(hop, hop as usize == forward.len(), *f, *b)?)?;
        }
        Ok(Circuit { client, relays })
    }
}

// A SENDME of an acknowledgement has no data.
fn content_of(step: Step) -> &'static [u8] {
    match step {
        Step::Out(_, _, _) | Step::Back(_, _, _) => CONTENT,
        Step::AdmitOut(_) | Step::AdmitBack(_) => b"",
    }
}

fn has_data(payload: &[u8], len: usize, content: &[u8]) -> bool {
    PayloadReader::new(payload)
        .and_then(|reader| reader.data_part())
        .is_ok_and(|part| part.len == len && part.bytes == content)
}

// What an end makes of a payload. If it is delivered it has the data that was sent, and if it is refused it stays as it was.
fn taken<E: AnyEnd>(
    rt: &impl Abort,
    end: &mut E,
    step: Step,
    payload: &mut [u8; 509],
) -> Result<Answer, Fail> {
    let before = *payload;
    match end.take_in(payload) {
        Ok((heading, len)) => {
            assert!(rt; heading.0 == 0 || has_data(payload, len, content_of(step)));
            Ok(Ok(heading))
        }
        Err(refusal) => {
            same_bytes(rt, payload, &before)?;
            Ok(Err(refusal))
        }
    }
}

// What an end says or admits; a refusal leaves the payload as it was.
fn said<E: AnyEnd>(
    rt: &impl Abort,
    end: &mut E,
    step: Step,
    payload: &mut [u8; 509],
) -> Result<Result<(), Refusal>, Fail> {
    let before = *payload;
    let answer = match step {
        Step::Out(hop, command, stream) | Step::Back(hop, command, stream) => end.say(
            hop,
            &message(command, stream, CONTENT),
            payload,
        ),
        Step::AdmitOut(hop) | Step::AdmitBack(hop) => end.admit(hop, payload),
    };
    if answer.is_err() {
        same_bytes(rt, payload, &before)?;
    }
    Ok(answer)
}

impl<C: Cipher, D: Digest + Drop> Circuit<C, D> {
    /// Each step has its answer.
    pub fn play(&mut self, rt: &impl Abort, steps: &[(Step, Answer)]) -> Result<(), Fail> {
        for (step, answer) in steps {
            same(rt, self.step(rt, *step)?, *answer)?;
        }
        Ok(())
    }

    /// The same many times.
    pub fn repeat(
        &mut self,
        rt: &impl Abort,
        times: u32,
        step: Step,
        answer: Answer,
    ) -> Result<(), Fail> {
        for _ in 0..times {
            same(rt, self.step(rt, step)?, answer)?;
        }
        Ok(())
    }

    fn step(&mut self, rt: &impl Abort, step: Step) -> Result<Answer, Fail> {
        match step {
            Step::Out(_, _, _) | Step::AdmitOut(_) => self.out(rt, step),
            Step::Back(hop, _, _) | Step::AdmitBack(hop) => self.back(rt, hop, step),
        }
    }

    // From the client, and from relay to relay outward, until one delivers or refuses it.
    fn out(&mut self, rt: &impl Abort, step: Step) -> Result<Answer, Fail> {
        let mut payload = [9u8; 509];
        if let Err(refusal) = said(rt, &mut self.client, step, &mut payload)? {
            return Ok(Err(refusal));
        }
        for relay in self.relays.iter_mut() {
            let answer = taken(rt, relay, step, &mut payload)?;
            if answer != Ok((0, 0, 0, 0)) {
                return Ok(answer);
            }
        }
        Err(Fail::new("the last relay passed it on"))
    }

    // From the relay of a hop, and through those nearer to the client.
    fn back(&mut self, rt: &impl Abort, hop: u16, step: Step) -> Result<Answer, Fail> {
        let mut payload = [9u8; 509];
        let place = hop.saturating_sub(1) as usize;
        let relay = self.relays.get_mut(place).ok_or("no such relay")?;
        if let Err(refusal) = said(rt, relay, step, &mut payload)? {
            return Ok(Err(refusal));
        }
        for nearer in self.relays.iter_mut().take(place).rev() {
            assert!(rt; nearer.go_by(&mut payload));
        }
        taken(rt, &mut self.client, step, &mut payload)
    }
}
