//! A relay payload, read where it lies and written into a lent buffer.
ghost use Rattle.std.specs.Prelude.{◌≡◌, ℕ, ◌+◌, ◌-◌, ◌*◌, ◌<◌, ◌≤◌, true, false, ◌∷◌, ◌++◌, length, take, drop, replicate, is_some, is_ok, if◌then◌else◌, Some, None, MatchResult, ◌≢◌};
ghost use Rattle.cell.specs.Commands.{command_byte};
ghost use Rattle.cell.specs.Payload.{number_at, two_bytes, no_tag, written, tagged, zeroed, command_of, recognised_of, stream_of, tag_of, length_of, data_of, message_of, rewritten, WrittenPayload};
ghost use Rattle.cell.specs.Refusals.{write_refusal, data_refusal, size_refusal};

use crate::command::Command;
use crate::error::CellError;
use crate::parts::put_part;
use crate::sizes::{DATA_LIMIT, HEADER_SIZE, PAYLOAD_SIZE, sized};

/// The 509 bytes of a payload, borrowed. (A ghost field and no model: a struct with a lifetime and a model is not `Copy`.)
#[derive(Clone, Copy)]
pub struct PayloadReader<'a> {
    bytes: &'a [u8],
    ghost whole: { length bytes.now ≡ 509 },
}

/// The data as a part of the payload: where it begins, how long it is, and its bytes. (Place and length beside the bytes, for hosts that
/// pass the part on: a form that the project fixed.)
#[derive(Clone, Copy, PartialEq, Eq, Debug)]
pub struct DataPart<'a> {
    pub at: usize,
    pub len: usize,
    pub bytes: &'a [u8],
}

impl<'a> PayloadReader<'a> {
    /// Refuses a payload that is not 509 bytes.
    pub fn new(bytes: &'a [u8]) -> Result<PayloadReader<'a>, CellError>
        ensures { MatchResult result
            (λ p. (size_refusal 509 bytes.now ≡ None) × (p.bytes.now ≡ bytes.now))
            (λ e. size_refusal 509 bytes.now ≡ Some e) }
    {
        sized(bytes, PAYLOAD_SIZE)?;
        Ok(PayloadReader { bytes })
    }

    fn two_bytes(&self, i: usize) -> u16
        requires { i + 1 < 509 }
        ensures { result ≡ number_at i self.now.bytes.now }
    {
        u16::from_be_bytes([self.bytes[i], self.bytes[i + 1]])
    }

    /// The command's byte: a number, since a payload may bear one that is no command, and a reader refuses none.
    #[tactic(auto, unfolding(crate::specs::Payload::command_of))]
    pub fn command(&self) -> u8
        ensures { result ≡ command_of self.now.bytes.now }
    {
        self.bytes[0]
    }

    /// The recognised field, zero in every payload that was sent.
    #[tactic(auto, unfolding(crate::specs::Payload::recognised_of))]
    pub fn recognised(&self) -> u16
        ensures { result ≡ recognised_of self.now.bytes.now }
    {
        self.two_bytes(1)
    }

    #[tactic(auto, unfolding(crate::specs::Payload::stream_of))]
    pub fn stream(&self) -> u16
        ensures { result ≡ stream_of self.now.bytes.now }
    {
        self.two_bytes(3)
    }

    #[tactic(auto, unfolding(crate::specs::Payload::tag_of))]
    pub fn tag(&self) -> [u8; 4]
        ensures { result ≡ tag_of self.now.bytes.now }
    {
        [self.bytes[5], self.bytes[6], self.bytes[7], self.bytes[8]]
    }

    /// The length field, which may say more than a payload holds.
    #[tactic(auto, unfolding(crate::specs::Payload::length_of))]
    pub fn length(&self) -> u16
        ensures { result ≡ length_of self.now.bytes.now }
    {
        self.two_bytes(9)
    }

    /// The data where it lies; refused where the length field says more than 498.
    #[tactic(auto, unfolding(crate::specs::Payload::data_of))]
    pub fn data_part(&self) -> Result<DataPart<'a>, CellError>
        ensures { MatchResult result
            (λ d. (data_refusal self.now.bytes.now ≡ None)
            × (d.at ≡ 11)
            × (d.len ≡ length_of self.now.bytes.now)
            × (d.bytes.now ≡ data_of self.now.bytes.now)
            × (length d.bytes.now ≡ d.len))
            (λ e. data_refusal self.now.bytes.now ≡ Some e) }
    {
        let len = usize::from(self.length());
        if len > DATA_LIMIT {
            return Err(CellError::TooLong);
        }
        let bytes: &'a [u8] = self.bytes;
        Ok(DataPart {
            at: HEADER_SIZE,
            len,
            bytes: &bytes[HEADER_SIZE..HEADER_SIZE + len],
        })
    }
}

/// Whether these bytes are the written form of a message; if so, writing the message anew gives them back.
#[tactic(auto, using(std::proofs::lemmas::Grind::common_steps, crate::proofs::Payloads::rewritten_bytes))]
pub fn is_written(payload: &[u8]) -> bool
    ensures yes { result ≡ true → WrittenPayload payload.now }
    ensures no { result ≡ false → WrittenPayload payload.now → ⊥ }
    ensures same { result ≡ true → rewritten payload.now ≡ payload.now }
{
    let Ok(reader) = PayloadReader::new(payload) else {
        return false;
    };
    if reader.recognised() != 0 {
        return false;
    }
    reader
        .data_part()
        .is_ok_and(|part| all_zero(&payload[part.at + part.len..]))
}

fn all_zero(bytes: &[u8]) -> bool
    ensures zero { result ≡ true → bytes.now ≡ replicate (length bytes.now) 0 }
    ensures not_zero { result ≡ false → bytes.now ≢ replicate (length bytes.now) 0 }
{
    bytes.iter().all(|b| *b == 0)
}

/// Writes a payload whose tag is zero: the header, the data, and zeros after it. A refusal writes nothing.
pub fn write_payload(
    payload: &mut [u8],
    command: Command,
    stream: u16,
    content: &[u8],
) -> Result<(), CellError>
    ensures refuses { MatchResult result
        (λ _. write_refusal payload.old content.now ≡ None)
        (λ e. write_refusal payload.old content.now ≡ Some e) }
    ensures writes { payload.new ≡ (if is_ok result then written (command_byte command) stream no_tag content.now else payload.old) }
    ensures reads { is_ok result ≡ true → message_of payload.new ≡ record { command = command_byte command; stream = stream; content = content.now } }
{
    sized(payload, PAYLOAD_SIZE)?;
    if content.len() > DATA_LIMIT {
        return Err(CellError::TooLong);
    }
    let n = content.len();
    put_part(payload, 0, &header(u8::from(command), stream, n));
    put_part(payload, HEADER_SIZE, content);
    clear_from(payload, HEADER_SIZE + n);
    Ok(())
}

// The bytes before the data, of which there are n.
fn header(command: u8, stream: u16, n: usize) -> [u8; HEADER_SIZE]
    requires { n ≤ 498 }
    ensures { result ≡ command ∷ 0 ∷ 0 ∷ (two_bytes stream ++ (no_tag ++ two_bytes n)) }
{
    let [s0, s1] = stream.to_be_bytes();
    let [n0, n1] = (n as u16).to_be_bytes();
    [command, 0, 0, s0, s1, 0, 0, 0, 0, n0, n1]
}

fn clear_from(bytes: &mut [u8], at: usize)
    requires { at ≤ length bytes.old }
    ensures { bytes.new ≡ take at bytes.old ++ replicate (length bytes.old - at) 0 }
{
    bytes[at..].fill(0);
}

/// Sets the tag and changes no other byte.
#[tactic(auto, unfolding(crate::specs::Payload::tagged))]
pub fn set_tag(payload: &mut [u8], tag: [u8; 4]) -> Result<(), CellError>
    ensures refuses { MatchResult result (λ _. size_refusal 509 payload.old ≡ None) (λ e. size_refusal 509 payload.old ≡ Some e) }
    ensures writes { payload.new ≡ (if is_ok result then tagged tag payload.old else payload.old) }
{
    sized(payload, PAYLOAD_SIZE)?;
    put_part(payload, 5, &tag);
    Ok(())
}

/// Sets the tag to zero, as it was when the tag was computed.
#[tactic(auto, unfolding(crate::specs::Payload::zeroed))]
pub fn clear_tag(payload: &mut [u8]) -> Result<(), CellError>
    ensures refuses { MatchResult result (λ _. size_refusal 509 payload.old ≡ None) (λ e. size_refusal 509 payload.old ≡ Some e) }
    ensures writes { payload.new ≡ (if is_ok result then zeroed payload.old else payload.old) }
{
    set_tag(payload, [0; 4])
}
