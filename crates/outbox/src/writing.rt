// Writing values into lent bytes, little-endian. A place is an offset from the message's first byte, which is the first of the bytes.
// The bytes and a place go in and the end comes out: a write that fails leaves the caller's place as it was. A writer that
// keeps its place would have to put it back on every way out.
ghost use Rattle.std.specs.Prelude.{◌≡◌, ◌<◌, ◌≤◌, true, false, [], ◌∷◌, length, is_ok, Ok};
ghost use Rattle.names.specs.Names.{valid_path};
ghost use Rattle.outbox.specs.Marshal.{◌▹◌, Bytes, Part, array, ended, le32, open_array, pad, put_bool, put_i32, put_path, put_signature, put_string, put_text, put_u32, put_word, raw};
ghost use Rattle.outbox.specs.Pours.{Closed, Patched, Poured};
ghost use Rattle.outbox.specs.ReadBack.{EveryReadsBack, ReadsBack};
ghost use Rattle.signature.specs.Signatures.{valid_signature};
ghost use Rattle.wire.specs.Reading.{bool_at, path_at, signature_at, string_at, u32_at};
ghost use Rattle.wire.specs.Text.{valid_text};
ghost use Rattle.wire.specs.declared.reading.ByteOrder.TheVariants.{Little};
ghost use Rattle.std.specs.Int.{w32};
ghost use Rattle.std.proofs.Common.{of_z};

use signature::codes::Code;
use wire::reading::gap_to;

// There is no room for what was to be written, or no message may have so much.
#[derive(Clone, Copy, Debug, PartialEq, Eq)]
pub struct Full;

// How far a message may go: an array may have so many bytes, and a message twice as many.
pub const MAX_LEN: usize = 1 << 26;

const ZEROS: [u8; 8] = [0; 8];

// Bytes as they are.
pub fn put_raw(bytes: &mut [u8], from: usize, more: &[u8]) -> Result<usize, Full>
    ensures { Poured bytes.old from bytes.new result (raw more.now) }
{
    let room = bytes.len().min(MAX_LEN);
    if from <= room && more.len() <= room - from {
        let end = from + more.len();
        bytes[from..end].copy_from_slice(more);
        Ok(end)
    } else {
        Err(Full)
    }
}

// Zeros up to the boundary of a type.
pub fn put_pad(bytes: &mut [u8], from: usize, code: Code) -> Result<usize, Full>
    ensures { Poured bytes.old from bytes.new result (pad code) }
{
    let n = gap_to(code, from);
    put_raw(bytes, from, &ZEROS[0..n])
}

// 32 bits on the boundary of a type.
fn put_word(bytes: &mut [u8], from: usize, code: Code, n: u32) -> Result<usize, Full>
    ensures { Poured bytes.old from bytes.new result (put_word code n) }
{
    let at = put_pad(bytes, from, code)?;
    put_raw(bytes, at, &n.to_le_bytes())
}

// A number of 32 bits.
pub fn put_u32(bytes: &mut [u8], from: usize, n: u32) -> Result<usize, Full>
    ensures wrote { Poured bytes.old from bytes.new result (put_u32 n) }
    ensures reads { ReadsBack (u32_at Little) bytes.new from result n }
{
    put_word(bytes, from, Code::Uint32, n)
}

// A signed number of 32 bits.
pub fn put_i32(bytes: &mut [u8], from: usize, n: i32) -> Result<usize, Full>
    ensures wrote { Poured bytes.old from bytes.new result (put_i32 n) }
    ensures reads { ReadsBack (u32_at Little) bytes.new from result (of_z w32 n) }
{
    put_word(bytes, from, Code::Int32, n.cast_unsigned())
}

// A boolean, 0 or 1 in 32 bits.
pub fn put_bool(bytes: &mut [u8], from: usize, b: bool) -> Result<usize, Full>
    ensures wrote { Poured bytes.old from bytes.new result (put_bool b) }
    ensures reads { ReadsBack (bool_at Little) bytes.new from result b }
{
    put_word(bytes, from, Code::Boolean, u32::from(b))
}

// A text and the zero that ends it.
fn put_ended(bytes: &mut [u8], from: usize, text: &[u8]) -> Result<usize, Full>
    ensures { Poured bytes.old from bytes.new result (ended text.now) }
{
    let at = put_raw(bytes, from, text)?;
    put_raw(bytes, at, &[0])
}

// A text after its length in 32 bits.
fn put_text(bytes: &mut [u8], from: usize, code: Code, text: &[u8]) -> Result<usize, Full>
    ensures { Poured bytes.old from bytes.new result (put_text code text.now) }
{
    if text.len() > MAX_LEN {
        return Err(Full);
    }
    let at = put_word(bytes, from, code, text.len() as u32)?;
    put_ended(bytes, at, text)
}

// A string.
pub fn put_string(bytes: &mut [u8], from: usize, text: &[u8]) -> Result<usize, Full>
    ensures wrote { Poured bytes.old from bytes.new result (put_string text.now) }
    ensures reads { valid_text text.now ≡ true → ReadsBack (string_at Little) bytes.new from result text.now }
{
    put_text(bytes, from, Code::String, text)
}

// An object path.
pub fn put_path(bytes: &mut [u8], from: usize, path: &[u8]) -> Result<usize, Full>
    ensures wrote { Poured bytes.old from bytes.new result (put_path path.now) }
    ensures reads { valid_path path.now ≡ true → ReadsBack (path_at Little) bytes.new from result path.now }
{
    put_text(bytes, from, Code::ObjectPath, path)
}

// The head of an array, its length still 0, and the padding before its elements.
pub fn open_array(bytes: &mut [u8], from: usize, element: Code) -> Result<usize, Full>
    ensures { Poured bytes.old from bytes.new result (open_array element) }
{
    let at = put_word(bytes, from, Code::Array, 0)?;
    put_pad(bytes, at, element)
}

// Wherever what was written stands in a message, it is read back.
pub fn values_read_back()
    ensures { EveryReadsBack }
{}

// Overwrites the 32 bits at `at`, as a length that is known only later.
pub fn patch_u32(bytes: &mut [u8], at: usize, n: u32) -> Result<(), Full>
    ensures { Patched bytes.old at bytes.new result (le32 n) }
{
    put_raw(bytes, at, &n.to_le_bytes())?;
    Ok(())
}

// A signature. One of more than 255 bytes cannot be written.
pub fn put_signature(bytes: &mut [u8], from: usize, signature: &[u8]) -> Result<usize, Full>
    ensures wrote { length signature.now ≤ 255 → Poured bytes.old from bytes.new result (put_signature signature.now) }
    ensures long { 255 < length signature.now → (is_ok result ≡ false) × (bytes.new ≡ bytes.old) }
    ensures reads { valid_signature signature.now ≡ true → ReadsBack signature_at bytes.new from result signature.now }
{
    let len = u8::try_from(signature.len()).map_err(|_| Full)?;
    let at = put_raw(bytes, from, &[len])?;
    put_ended(bytes, at, signature)
}

// The head of a variant whose type is one letter; the value follows.
pub fn open_variant(bytes: &mut [u8], from: usize, letter: u8) -> Result<usize, Full>
    ensures wrote { Poured bytes.old from bytes.new result (put_signature (letter ∷ [])) }
    ensures reads { valid_signature (letter ∷ []) ≡ true → ReadsBack signature_at bytes.new from result (letter ∷ []) }
{
    put_signature(bytes, from, &[letter])
}

// Fills in the length of the array that was opened at `start` and goes on to `end`.
pub fn close_array(bytes: &mut [u8], start: usize, element: Code, end: usize) -> Result<usize, Full>
    ensures patched { Closed bytes.old start element end bytes.new result }
    ensures closes { (was : Bytes) (w : Part) → Poured {E = Full} was start bytes.old (Ok end) (open_array element ▹ w) → Poured was start bytes.new result (array element w) }
{
    if start > end || end > bytes.len().min(MAX_LEN) {
        return Err(Full);
    }
    let hole = start + gap_to(Code::Array, start);
    let contents = hole + 4 + gap_to(element, hole + 4);
    if contents > end {
        return Err(Full);
    }
    let len = (end - contents) as u32;
    put_raw(bytes, hole, &len.to_le_bytes())?;
    Ok(end)
}

#[cfg(test)]
mod tests {
    use super::*;
    use std::test::Fail;

    // The Specification: strings ‘foo’, ‘+’ and ‘bar’ in sequence.
    #[test]
    fn three_strings(rt: HostRuntime) -> Result<(), Fail> {
        let mut bytes = [9u8; 25];
        let at = put_string(&mut bytes, 0, b"foo")?;
        let at = put_string(&mut bytes, at, b"+")?;
        let at = put_string(&mut bytes, at, b"bar")?;
        assert_eq!(rt; at, 24);
        let expected = [
            3u8, 0, 0, 0, 102, 111, 111, 0, 1, 0, 0, 0, 43, 0, 0, 0, 3, 0, 0, 0, 98, 97, 114, 0, 9,
        ];
        assert!(rt; bytes == expected);
        Ok(())
    }

    // A dictionary of one entry, with its length filled in last; it begins at 4 and the entry at 8.
    #[test]
    fn one_entry(rt: HostRuntime) -> Result<(), Fail> {
        let mut bytes = [9u8; 25];
        let start = put_bool(&mut bytes, 0, true)?;
        let at = open_array(&mut bytes, start, Code::DictEntry)?;
        let at = put_pad(&mut bytes, at, Code::DictEntry)?;
        let at = put_string(&mut bytes, at, b"Gain")?;
        let at = open_variant(&mut bytes, at, b'i')?;
        let at = put_i32(&mut bytes, at, -2)?;
        assert_eq!(rt; close_array(&mut bytes, start, Code::DictEntry, at)?, 24);
        let expected = [
            1u8, 0, 0, 0, 16, 0, 0, 0, 4, 0, 0, 0, 71, 97, 105, 110, 0, 1, 105, 0, 254, 255, 255,
            255, 9,
        ];
        assert!(rt; bytes == expected);
        Ok(())
    }

    // Each writer into bytes that suffice, and into one byte less.
    #[test]
    fn full_and_short(rt: HostRuntime) {
        assert!(rt; put_raw(&mut [9u8; 3], 1, b"ab").is_ok());
        assert!(rt; put_raw(&mut [9u8; 2], 1, b"ab").is_err());
        assert!(rt; put_pad(&mut [9u8; 8], 1, Code::Uint64).is_ok());
        assert!(rt; put_pad(&mut [9u8; 7], 1, Code::Uint64).is_err());
        assert!(rt; put_u32(&mut [9u8; 8], 1, 7).is_ok());
        assert!(rt; put_u32(&mut [9u8; 7], 1, 7).is_err());
        assert!(rt; put_bool(&mut [9u8; 8], 1, true).is_ok());
        assert!(rt; put_bool(&mut [9u8; 7], 1, true).is_err());
        assert!(rt; put_i32(&mut [9u8; 8], 1, -7).is_ok());
        assert!(rt; put_i32(&mut [9u8; 7], 1, -7).is_err());
    }

    #[test]
    fn texts_full_and_short(rt: HostRuntime) {
        assert!(rt; put_string(&mut [9u8; 11], 1, b"ab").is_ok());
        assert!(rt; put_string(&mut [9u8; 10], 1, b"ab").is_err());
        assert!(rt; put_path(&mut [9u8; 11], 1, b"/a").is_ok());
        assert!(rt; put_path(&mut [9u8; 10], 1, b"/a").is_err());
        assert!(rt; put_signature(&mut [9u8; 5], 1, b"as").is_ok());
        assert!(rt; put_signature(&mut [9u8; 4], 1, b"as").is_err());
        assert!(rt; open_variant(&mut [9u8; 4], 1, b's').is_ok());
        assert!(rt; open_variant(&mut [9u8; 3], 1, b's').is_err());
        assert!(rt; open_array(&mut [9u8; 16], 5, Code::Structure).is_ok());
        assert!(rt; open_array(&mut [9u8; 15], 5, Code::Structure).is_err());
        assert!(rt; close_array(&mut [9u8; 8], 0, Code::Structure, 8).is_ok());
        assert!(rt; close_array(&mut [9u8; 7], 0, Code::Structure, 8).is_err());
        assert!(rt; patch_u32(&mut [9u8; 8], 4, 7).is_ok());
        assert!(rt; patch_u32(&mut [9u8; 7], 4, 7).is_err());
    }
}
