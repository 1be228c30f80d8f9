// Reading values from a lent message. A place is an offset from the message's first byte.
// Each end comes with its bound beside it: a struct of bytes and place would be made anew at each step, and be no shorter.
ghost use Rattle.std.specs.Prelude.{◌≡◌, ◌+◌, ◌<◌, ◌≤◌, length};
ghost use Rattle.signature.specs.Codes.{align_of};
ghost use Rattle.wire.specs.Reading.{Onward, Ordered, Grown, Past, align_at, bool_at, byte_at, bytes_at, counted_at, ended_at, fault_for, fixed_at, gap, path_at, seen, signature_at, string_at, text_at, u32_at, valid_for, word_of};

use crate::text::{all_zero, is_path, is_text};
use signature::codes::Code;
use signature::is_signature;

#[derive(Clone, Copy, Debug, PartialEq, Eq)]
pub enum ByteOrder {
    Little,
    Big,
}

// A byte that names no order.
#[derive(Clone, Copy, Debug, PartialEq, Eq)]
pub struct UnknownByteOrder(pub u8);

// The types that are marshalled as a length and a text: each has a test and a fault of its own.
// An enum: a test and a fault would be two closures at each call, and the definitions go by the type.
#[derive(Clone, Copy)]
enum StringLike {
    String,
    ObjectPath,
    Signature,
}

// Why a value cannot be read, and where.
#[derive(Clone, Copy, Debug, PartialEq, Eq)]
pub enum Fault {
    // The message ends too soon.
    Short(usize),
    // Padding from here on that is not all zero.
    Padding(usize),
    // Neither 0 nor 1.
    Boolean(usize),
    // No zero byte after a text.
    Unterminated(usize),
    // Not UTF-8, or a zero inside.
    Text(usize),
    // No object path.
    Path(usize),
    // No signature.
    Signature(usize),
    // No well-formed value of the type that is wanted.
    Value(usize),
}

// The order that a message's first byte names.
impl TryFrom<u8> for ByteOrder {
    type Error = UnknownByteOrder;

    ghost try_from_gives = { Ordered };

    fn try_from(byte: u8) -> Result<Self, UnknownByteOrder> {
        match byte {
            b'l' => Ok(ByteOrder::Little),
            b'B' => Ok(ByteOrder::Big),
            _ => Err(UnknownByteOrder(byte)),
        }
    }
}

// How far the next boundary for values of this code is.
#[tactic(auto, unfolding(crate::specs::Reading::gap))]
pub fn gap_to(code: Code, at: usize) -> usize
    ensures value { result ≡ gap (align_of code) at }
    ensures below { result < align_of code }
    ensures small { result < 8 }
{
    let alignment = code.alignment();
    (alignment - at % alignment) % alignment
}

// Past `n` bytes. This and what else needs no byte order takes the bytes and a place alone: nobody has to name an order for it.
fn bytes_end(message: &[u8], at: usize, n: usize) -> Result<usize, Fault>
    ensures value { result ≡ bytes_at n message.now at }
    ensures within { Onward message.now at result }
{
    if at <= message.len() && n <= message.len() - at {
        Ok(at + n)
    } else {
        Err(Fault::Short(at))
    }
}

// Past the padding before a value of this code.
#[tactic(auto, unfolding(crate::specs::Reading::align_at))]
pub fn align(message: &[u8], at: usize, code: Code) -> Result<usize, Fault>
    ensures value { result ≡ align_at (align_of code) message.now at }
    ensures within { Onward message.now at result }
{
    let next = bytes_end(message, at, gap_to(code, at))?;
    if all_zero(&message[at..next]) {
        Ok(next)
    } else {
        Err(Fault::Padding(at))
    }
}

// Past a value of a fixed length, which is its alignment.
#[tactic(auto, unfolding(crate::specs::Reading::fixed_at))]
pub fn fixed_end(message: &[u8], at: usize, code: Code) -> Result<usize, Fault>
    ensures value { result ≡ fixed_at (align_of code) message.now at }
    ensures within { Grown message.now at (align_of code) result }
{
    let start = align(message, at, code)?;
    bytes_end(message, start, code.alignment())
}

// A byte.
pub fn read_byte(message: &[u8], at: usize) -> Result<(u8, usize), Fault>
    ensures value { result ≡ byte_at message.now at }
    ensures within { Past message.now at 1 result }
{
    let byte = message.get(at).ok_or(Fault::Short(at))?;
    Ok((*byte, at + 1))
}

impl StringLike {
    fn accepts(self, text: &[u8]) -> bool
        ensures { result ≡ valid_for self text.now }
    {
        match self {
            StringLike::String => is_text(text),
            StringLike::ObjectPath => is_path(text),
            StringLike::Signature => is_signature(text),
        }
    }

    fn fault(self, at: usize) -> Fault
        ensures { result ≡ fault_for self at }
    {
        match self {
            StringLike::String => Fault::Text(at),
            StringLike::ObjectPath => Fault::Path(at),
            StringLike::Signature => Fault::Signature(at),
        }
    }
}

// The `len` bytes at `at`, which a zero follows.
#[tactic(auto, unfolding(crate::specs::Reading::ended_at))]
fn read_ended(message: &[u8], at: usize, len: usize) -> Result<(&[u8], usize), Fault>
    ensures value { seen result ≡ ended_at len message.now at }
    ensures within { Past message.now at 1 result }
{
    let end = bytes_end(message, at, len)?;
    let (last, next) = read_byte(message, end)?;
    if last != 0 {
        return Err(Fault::Unterminated(end));
    }
    Ok((&message[at..end], next))
}

// The same, with what the type asks of its text.
#[tactic(auto, unfolding(crate::specs::Reading::text_at))]
fn read_text(
    message: &[u8],
    kind: StringLike,
    at: usize,
    len: usize,
) -> Result<(&[u8], usize), Fault>
    ensures value { seen result ≡ text_at kind message.now (len, at) }
    ensures within { Past message.now at 1 result }
{
    let (text, next) = read_ended(message, at, len)?;
    if !kind.accepts(text) {
        return Err(kind.fault(at));
    }
    Ok((text, next))
}

// A signature of the message.
#[tactic(auto, unfolding(crate::specs::Reading::signature_at))]
pub fn read_signature(message: &[u8], at: usize) -> Result<(&[u8], usize), Fault>
    ensures value { seen result ≡ signature_at message.now at }
    ensures within { Past message.now at 2 result }
{
    let (len, start) = read_byte(message, at)?;
    read_text(message, StringLike::Signature, start, len as usize)
}

// A message, and the order of the bytes in its numbers.
#[derive(Clone, Copy)]
pub struct Reader<'m> {
    pub message: &'m [u8],
    pub order: ByteOrder,
}

impl<'m> Reader<'m> {
    // The number that four bytes are.
    fn word(self, at: usize) -> u32
        requires { at + 4 ≤ length self.message.now }
        ensures { result ≡ word_of self.entry.order self.entry.message.now at }
    {
        let bytes: [u8; 4] = self.message[at..at + 4].try_into().unwrap();
        match self.order {
            ByteOrder::Little => u32::from_le_bytes(bytes),
            ByteOrder::Big => u32::from_be_bytes(bytes),
        }
    }

    // A number of 32 bits.
    #[tactic(auto, unfolding(crate::specs::Reading::u32_at, signature::specs::Codes::align_of))]
    pub fn read_u32(self, at: usize) -> Result<(u32, usize), Fault>
        ensures value { result ≡ u32_at self.entry.order self.entry.message.now at }
        ensures within { Past self.entry.message.now at 4 result }
    {
        let next = fixed_end(self.message, at, Code::Uint32)?;
        Ok((self.word(next - 4), next))
    }

    // A boolean, 0 or 1 in 32 bits.
    #[tactic(auto, unfolding(crate::specs::Reading::bool_at))]
    pub fn read_bool(self, at: usize) -> Result<(bool, usize), Fault>
        ensures value { result ≡ bool_at self.entry.order self.entry.message.now at }
        ensures within { Past self.entry.message.now at 4 result }
    {
        let (n, next) = self.read_u32(at)?;
        if n > 1 {
            return Err(Fault::Boolean(next - 4));
        }
        Ok((n == 1, next))
    }

    // A text after its length in 32 bits.
    fn read_counted(self, kind: StringLike, at: usize) -> Result<(&'m [u8], usize), Fault>
        ensures value { seen result ≡ counted_at kind self.entry.order self.entry.message.now at }
        ensures within { Past self.entry.message.now at 5 result }
    {
        let (len, start) = self.read_u32(at)?;
        read_text(self.message, kind, start, len as usize)
    }

    // A string of the message.
    #[tactic(auto, unfolding(crate::specs::Reading::string_at))]
    pub fn read_string(self, at: usize) -> Result<(&'m [u8], usize), Fault>
        ensures value { seen result ≡ string_at self.entry.order self.entry.message.now at }
        ensures within { Past self.entry.message.now at 5 result }
    {
        self.read_counted(StringLike::String, at)
    }

    // An object path of the message.
    #[tactic(auto, unfolding(crate::specs::Reading::path_at))]
    pub fn read_path(self, at: usize) -> Result<(&'m [u8], usize), Fault>
        ensures value { seen result ≡ path_at self.entry.order self.entry.message.now at }
        ensures within { Past self.entry.message.now at 5 result }
    {
        self.read_counted(StringLike::ObjectPath, at)
    }
}
