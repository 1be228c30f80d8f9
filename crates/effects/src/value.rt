ghost use Rattle.std.specs.Prelude.{◌≡◌, ◌≤◌, ◌-◌, [], length, take, drop, replicate};
ghost use Rattle.std.specs.Option.{option_map};
ghost use Rattle.effects.specs.Texts.{printable, plain};
ghost use Rattle.effects.specs.Values.{text_of, as_text, seen, type_of, code_of};

use crate::text::Text;
use std::str::from_utf8;

// The value of a property.
#[derive(Clone, Copy, Debug, PartialEq, Eq)]
pub enum Value {
    Bool(bool),
    I32(i32),
    U32(u32),
    Str(Text),
}

// The type of a value.
#[derive(Clone, Copy, Debug, PartialEq, Eq)]
pub enum Signature {
    Bool,
    I32,
    U32,
    Str,
}

impl Value {
    pub fn value_signature(&self) -> Signature
        ensures { result ≡ type_of (seen self.now) }
    {
        match self {
            Value::Bool(_) => Signature::Bool,
            Value::I32(_) => Signature::I32,
            Value::U32(_) => Signature::U32,
            Value::Str(_) => Signature::Str,
        }
    }
}

impl Signature {
    // The type's code in a signature. A method, since `u8::from(signature)` would not say which number it is.
    pub fn code(self) -> u8
        ensures { result ≡ code_of self }
    {
        match self {
            Signature::Bool => b'b',
            Signature::I32 => b'i',
            Signature::U32 => b'u',
            Signature::Str => b's',
        }
    }
}

fn is_printable(b: u8) -> bool
    ensures { result ≡ printable b }
{
    matches!(b, 32..=126)
}

// Whether each byte is printable.
fn is_plain(bytes: &[u8]) -> bool
    ensures { result ≡ plain bytes.now }
{
    bytes.iter().all(|b| is_printable(*b))
}

// The bytes, and zeros after them.
fn padded(from: &[u8]) -> [u8; 64]
    requires { length from.now ≤ 64 }
    ensures text { take (length from.now) result ≡ from.now }
    ensures rest { drop (length from.now) result ≡ replicate (64 - length from.now) 0 }
{
    let mut bytes = [0; 64];
    bytes[..from.len()].copy_from_slice(from);
    bytes
}

impl Text {
    pub fn empty() -> Text
        ensures { text_of result ≡ [] }
    {
        Text {
            len: 0,
            bytes: [0; 64],
        }
    }

    // None unless there are at most 64 bytes, each 32 to 126. No `TryFrom`: it refuses in one way, which an error would only name.
    pub fn new(from: &[u8]) -> Option<Text>
        ensures { option_map text_of result ≡ as_text from.now }
    {
        let len = from.len();
        if len > 64 || !is_plain(from) {
            return None;
        }
        Some(Text {
            len,
            bytes: padded(from),
        })
    }

    pub fn as_bytes(&self) -> &[u8]
        ensures { result.now ≡ text_of self.now }
    {
        &self.bytes[..self.len]
    }

    pub fn as_str(&self) -> &str
        ensures { result.now ≡ text_of self.now }
    {
        from_utf8(self.as_bytes()).unwrap()
    }
}
