// Signatures: whether bytes are one, and where their first single complete type ends.
// Each end comes with its bound beside it: a struct of bytes and place would be made anew at each step, and be no shorter.
#![tactic(auto)]

ghost use Rattle.std.specs.Prelude.{◌≡◌, ◌<◌, IfSome, false, length, slice_index};
ghost use Rattle.signature.specs.Codes.{code_of};
ghost use Rattle.signature.specs.Signatures.{Inside, first_end, type_end, fields_end, entry_end, valid_signature, single};

pub mod codes;
pub mod levels;

use codes::Code;
use levels::Levels;

const MAX_LEN: usize = 255;

// The type code at `at`; none past the end.
#[tactic(auto, using(crate::proofs::Types::none_past))]
pub fn code_at(signature: &[u8], at: usize) -> Option<Code>
    ensures value { result ≡ code_of (slice_index signature.now at) }
    ensures inside { IfSome result (λ _. at < length signature.now) }
{
    Code::try_from(*signature.get(at)?).ok()
}

// Where the single complete type at `at` ends. A dictionary entry stands only in an array.
// The place and the levels differ at each call: a struct of them and the signature would be made anew each time.
#[cycle(entry_end_fields_end_type_end)]
#[tactic(auto, using(crate::proofs::Types::type_here))]
pub fn type_end(signature: &[u8], at: usize, in_array: bool, levels: Levels) -> Option<usize>
    ensures value { result ≡ type_end signature.now in_array levels at }
    ensures inside { Inside signature.now at result }
{
    match code_at(signature, at)? {
        Code::Array => type_end(signature, at + 1, true, levels.in_array()?),
        Code::Structure => fields_end(signature, at + 1, levels.in_structure()?),
        Code::DictEntry if in_array => entry_end(signature, at + 1, levels.in_structure()?),
        Code::DictEntry => None,
        _ => Some(at + 1),
    }
}

// Past the fields of a structure, one or more, and its closing parenthesis.
#[cycle(entry_end_fields_end_type_end)]
fn fields_end(signature: &[u8], at: usize, levels: Levels) -> Option<usize>
    ensures value { result ≡ fields_end (type_end signature.now false levels) signature.now at }
    ensures inside { Inside signature.now at result }
{
    // A type's length moves the place: no iterator knows it.
    let mut i = type_end(signature, at, false, levels)?;
    while signature.get(i) != Some(&b')') {
        i = type_end(signature, i, false, levels)?;
    }
    Some(i + 1)
}

// Past the key and the value of a dictionary entry and its closing brace.
#[cycle(entry_end_fields_end_type_end)]
fn entry_end(signature: &[u8], at: usize, levels: Levels) -> Option<usize>
    ensures value { result ≡ entry_end (type_end signature.now false levels) signature.now at }
    ensures inside { Inside signature.now at result }
{
    if !code_at(signature, at)?.is_basic() {
        return None;
    }
    let end = type_end(signature, at + 1, false, levels)?;
    (signature.get(end) == Some(&b'}')).then_some(end + 1)
}

// Where the first single complete type ends.
pub fn first_end(signature: &[u8]) -> Option<usize>
    ensures value { result ≡ first_end signature.now }
    ensures inside { Inside signature.now 0 result }
{
    type_end(signature, 0, false, Levels::full())
}

// Whether these bytes are a signature: at most 255 bytes, one single complete type after another.
#[tactic(auto, unfolding(crate::specs::Signatures::valid_signature))]
pub fn is_signature(signature: &[u8]) -> bool
    ensures { result ≡ valid_signature signature.now }
{
    if signature.len() > MAX_LEN {
        return false;
    }
    // A type's length moves the place: no iterator knows it. The answer is a bool, so `?` has nothing to hand on.
    let mut at = 0;
    while at < signature.len() {
        let Some(end) = type_end(signature, at, false, Levels::full()) else {
            return false;
        };
        at = end;
    }
    true
}

// Whether these bytes are exactly one single complete type, of at most 255 bytes.
#[tactic(auto, unfolding(crate::specs::Signatures::single))]
pub fn is_single(signature: &[u8]) -> bool
    ensures { result ≡ single signature.now }
{
    signature.len() <= MAX_LEN && first_end(signature) == Some(signature.len())
}
