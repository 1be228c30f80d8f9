// Past a value of any type, whatever stands inside it, by the rules that reading has.
// Each end comes with its bound beside it: a struct of bytes and place would be made anew at each step, and be no shorter.
#![tactic(auto)]

ghost use Rattle.std.specs.Prelude.{◌≡◌, ◌<◌, IfSome};
ghost use Rattle.wire.specs.Reading.{Grown};
ghost use Rattle.signature.specs.Signatures.{Inside};
ghost use Rattle.skip.specs.Values.{Ahead, Span, array_end, array_span, basic_end, fields_end, items_end, value_at, value_end, variant_end};

use signature::codes::Code;
use signature::levels::Levels;
use signature::{code_at, is_single, type_end};
use wire::reading::{Fault, Reader, align, fixed_end, read_signature};

// An array has at most 2^26 bytes.
const MAX_ARRAY: u32 = 1 << 26;

// Past a value of a basic type.
#[tactic(auto, unfolding(signature::specs::Codes::align_of))]
fn basic_end(reader: Reader, code: Code, at: usize) -> Option<usize>
    ensures value { result ≡ basic_end reader.entry.order reader.entry.message.now code at }
    ensures inside { Inside reader.entry.message.now at result }
{
    match code {
        Code::Array | Code::Structure | Code::DictEntry | Code::Variant => None,
        Code::Boolean => reader.read_bool(at).ok().map(|(_, end)| end),
        Code::String => reader.read_string(at).ok().map(|(_, end)| end),
        Code::ObjectPath => reader.read_path(at).ok().map(|(_, end)| end),
        Code::Signature => read_signature(reader.message, at).ok().map(|(_, end)| end),
        _ => fixed_end(reader.message, at, code).ok(),
    }
}

// Where the elements of an array begin, and where they must end.
#[tactic(auto, unfolding(crate::specs::Values::array_span))]
fn array_span(reader: Reader, element: Code, at: usize) -> Option<(usize, usize)>
    ensures value { result ≡ array_span reader.entry.order reader.entry.message.now element at }
    ensures within { Span reader.entry.message.now at result }
{
    let (n, start) = reader.read_u32(at).ok()?;
    if n > MAX_ARRAY {
        return None;
    }
    let first = align(reader.message, start, element).ok()?;
    let len = n as usize;
    if len > reader.message.len() - first {
        return None;
    }
    Some((first, first + len))
}

// A walk through values of a message and, beside it, through the signature with their types. The places and the levels
// differ at each call, so they stay parameters.
#[derive(Clone, Copy)]
struct Walker<'m, 's> {
    reader: Reader<'m>,
    signature: &'s [u8],
}

impl<'m, 's> Walker<'m, 's> {
    // Past one value: where its type ends in the signature, and where it ends in the message.
    #[cycle(walk)]
    #[tactic(auto, using(crate::proofs::Walk::value_here))]
    fn value(self, at: usize, pos: usize, levels: Levels) -> Option<(usize, usize)>
        ensures value { result ≡ value_end self.entry.reader.order self.entry.reader.message.now levels self.entry.signature.now at pos }
        ensures ahead { Ahead self.entry.reader.message.now self.entry.signature.now at pos result }
    {
        match code_at(self.signature, at)? {
            Code::Array => self.array(at + 1, pos, levels.in_array()?),
            Code::Structure => self.fields(at + 1, pos, b')', levels.in_structure()?),
            Code::DictEntry => self.fields(at + 1, pos, b'}', levels.in_structure()?),
            Code::Variant => Some((at + 1, self.variant(pos, levels.in_variant()?)?)),
            code => Some((at + 1, basic_end(self.reader, code, pos)?)),
        }
    }

    // Past an array, whose element's type is at `at`.
    #[cycle(walk)]
    fn array(self, at: usize, pos: usize, levels: Levels) -> Option<(usize, usize)>
        ensures value { result ≡ array_end self.entry.reader.order self.entry.reader.message.now (value_end self.entry.reader.order self.entry.reader.message.now levels self.entry.signature.now) self.entry.signature.now at pos }
        ensures ahead { Ahead self.entry.reader.message.now self.entry.signature.now at pos result }
    {
        let after = type_end(self.signature, at, true, Levels::full())?;
        let element = code_at(self.signature, at)?;
        let (first, end) = array_span(self.reader, element, pos)?;
        let last = self.items(at, first, end, levels)?;
        Some((after, last))
    }

    // Past the elements of an array, up to exactly its end.
    #[cycle(walk)]
    fn items(self, at: usize, first: usize, end: usize, levels: Levels) -> Option<usize>
        ensures value { result ≡ items_end (value_end self.entry.reader.order self.entry.reader.message.now levels self.entry.signature.now at) first end }
        ensures exact { IfSome result (λ p. p ≡ end) }
    {
        // A value's length moves the place: no iterator knows it.
        let mut p = first;
        while p < end {
            (_, p) = self.value(at, p, levels)?;
        }
        (p == end).then_some(end)
    }

    // Past the fields of a structure or a dictionary entry, and past its closing bracket in the signature.
    #[cycle(walk)]
    fn fields(self, at: usize, pos: usize, close: u8, levels: Levels) -> Option<(usize, usize)>
        requires { 0 < close }
        ensures value { result ≡ fields_end self.entry.reader.message.now (value_end self.entry.reader.order self.entry.reader.message.now levels self.entry.signature.now) close self.entry.signature.now at pos }
        ensures ahead { Ahead self.entry.reader.message.now self.entry.signature.now at pos result }
    {
        let start = align(self.reader.message, pos, Code::Structure).ok()?;
        // A value's length moves the place: no iterator knows it.
        let (mut i, mut p) = self.value(at, start, levels)?;
        while self.signature.get(i) != Some(&close) {
            (i, p) = self.value(i, p, levels)?;
        }
        Some((i + 1, p))
    }

    // Past a variant: a signature of one type, and a value of it.
    #[cycle(walk)]
    fn variant(self, pos: usize, levels: Levels) -> Option<usize>
        ensures value { result ≡ variant_end self.entry.reader.message.now (value_end self.entry.reader.order self.entry.reader.message.now levels) pos }
        ensures inside { Inside self.entry.reader.message.now pos result }
    {
        let (signature, start) = read_signature(self.reader.message, pos).ok()?;
        if !is_single(signature) {
            return None;
        }
        let inner = Walker {
            reader: self.reader,
            signature,
        };
        let (_, end) = inner.value(0, start, levels)?;
        Some(end)
    }
}

// Past one value of this type, which is one single complete type. The levels are what is left where it stands.
#[tactic(auto, unfolding(crate::specs::Values::value_at))]
pub fn skip(reader: Reader, signature: &[u8], at: usize, levels: Levels) -> Result<usize, Fault>
    ensures value { result ≡ value_at reader.entry.order reader.entry.message.now levels signature.now at }
    ensures within { Grown reader.entry.message.now at 1 result }
{
    if !is_single(signature) {
        return Err(Fault::Signature(at));
    }
    let walk = Walker { reader, signature };
    let (_, end) = walk.value(0, at, levels).ok_or(Fault::Value(at))?;
    Ok(end)
}
