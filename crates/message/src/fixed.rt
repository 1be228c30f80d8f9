// The fixed part of a header: its first sixteen bytes. That the lengths in it stay inside the message is said beside it: a
// struct of message and lengths would be made for one caller.
ghost use Rattle.std.specs.Prelude.{◌≡◌, ◌+◌, ◌<◌, ◌≤◌, length, IfSome, IfOk};
ghost use Rattle.message.specs.Fixed.{Inside, Typed, fixed_of, lengths_meet, raised, sound_fixed, word_at};

use crate::fault::HeaderFault;
use signature::codes::Code;
use wire::reading::{ByteOrder, Reader, gap_to};

// The bytes of the fixed part.
pub(crate) const FIXED_LEN: usize = 16;
// An array has at most 2^26 bytes.
const MAX_FIELDS: u32 = 1 << 26;
// A message has at most 2^27 bytes.
const MAX_MESSAGE: usize = 1 << 27;

// What a message is.
#[derive(Clone, Copy, Debug, PartialEq, Eq)]
pub enum MessageType {
    MethodCall,
    MethodReturn,
    Error,
    Signal,
    // A type that the Specification has no name for.
    Unknown(u8),
}

// A byte that is the number of no type of message: 0.
#[derive(Clone, Copy, Debug, PartialEq, Eq)]
pub struct InvalidType(pub u8);

// The type of this number. 0 is none.
impl TryFrom<u8> for MessageType {
    type Error = InvalidType;

    ghost try_from_gives = { Typed };

    fn try_from(byte: u8) -> Result<Self, InvalidType> {
        match byte {
            0 => Err(InvalidType(byte)),
            1 => Ok(MessageType::MethodCall),
            2 => Ok(MessageType::MethodReturn),
            3 => Ok(MessageType::Error),
            4 => Ok(MessageType::Signal),
            other => Ok(MessageType::Unknown(other)),
        }
    }
}

// What the fixed part says.
#[derive(Clone, Copy)]
pub(crate) struct FixedPart {
    pub(crate) order: ByteOrder,
    pub(crate) kind: MessageType,
    pub(crate) flags: u8,
    pub(crate) serial: u32,
    pub(crate) fields_len: u32,
}

// The next multiple of 8.
#[tactic(auto, unfolding(signature::specs::Codes::align_of))]
pub(crate) fn raise(at: usize) -> usize
    requires { at < 4294967296 }
    ensures value { result ≡ raised at }
    ensures near { (at ≤ result) × (result < at + 8) }
{
    at + gap_to(Code::Structure, at)
}

fn word_at(reader: Reader, at: usize) -> Option<u32>
    ensures { result ≡ word_at reader.entry.order reader.entry.message.now at }
{
    reader.read_u32(at).ok().map(|(word, _)| word)
}

// Whether the fields and a body of these lengths fill the message, within the limits.
#[tactic(auto, unfolding(crate::specs::Fixed::lengths_meet))]
fn lengths_meet(message: &[u8], fields_len: u32, body_len: u32) -> bool
    ensures { result ≡ lengths_meet message.now fields_len body_len }
{
    fields_len <= MAX_FIELDS
        && message.len() <= MAX_MESSAGE
        && raise(FIXED_LEN + fields_len as usize) + body_len as usize == message.len()
}

impl FixedPart {
    // The fixed part, if nothing in it is wrong.
    #[tactic(auto, using(crate::proofs::Lengths::fields_inside), unfolding(crate::specs::Fixed::sound_fixed))]
    fn sound(message: &[u8]) -> Option<FixedPart>
        requires { 16 ≤ length message.now }
        ensures value { result ≡ sound_fixed message.now }
        ensures within { IfSome result (Inside message.now) }
    {
        let [order, kind, flags, version, ..] = message else {
            return None;
        };
        let order = ByteOrder::try_from(*order).ok()?;
        let kind = MessageType::try_from(*kind).ok()?;
        if *version != 1 {
            return None;
        }
        let reader = Reader { message, order };
        let body_len = word_at(reader, 4)?;
        let serial = word_at(reader, 8)?;
        if serial == 0 {
            return None;
        }
        let fields_len = word_at(reader, 12)?;
        if !lengths_meet(message, fields_len, body_len) {
            return None;
        }
        Some(FixedPart {
            order,
            kind,
            flags: *flags,
            serial,
            fields_len,
        })
    }

    // The fixed part of a message of any type.
    #[tactic(auto, unfolding(crate::specs::Fixed::fixed_of))]
    pub(crate) fn read(message: &[u8]) -> Result<FixedPart, HeaderFault>
        ensures value { result ≡ fixed_of message.now }
        ensures within { IfOk result (Inside message.now) }
    {
        if message.len() < FIXED_LEN {
            return Err(HeaderFault::ShortMessage);
        }
        FixedPart::sound(message).ok_or(HeaderFault::BadFixedPart)
    }
}
