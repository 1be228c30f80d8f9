// One header field: a code byte and a variant, on a boundary of 8.
// Each end comes with its bound beside it: a struct of bytes and place would be made anew at each step, and be no shorter.
ghost use Rattle.std.specs.Prelude.{◌≡◌, Bool, Err, IsOkAnd, MatchBool, MatchResult};
ghost use Rattle.names.specs.Names.{valid, valid_bus};
ghost use Rattle.message.specs.declared.field.Flaw.TheVariants.{BadValue};
ghost use Rattle.message.specs.Fields.{After, Further, Known, fault_of, field_seen, known_at, padded, type_of, typed_at, unknown_at, valid_sender, value_in};

use crate::fault::HeaderFault;
use names::grammar::Alphabet;
use signature::codes::Code;
use signature::levels::Levels;
use skip::skip;
use wire::reading::{Fault, Reader, align, read_signature};

// The name of the bus, under which it sends.
const BUS: &[u8] = b"org.freedesktop.DBus";

// A field's value may have 32 arrays and 32 structures inside one another. Of the 64 levels of a message the array of
// fields, the field's structure and its variant are three.
const FIELD_LEVELS: Levels = Levels {
    arrays: 32,
    structures: 32,
    all: 61,
};

// A field of a message. What is text is a part of the message.
#[derive(Clone, Copy)]
pub enum Field<'m> {
    Path(&'m [u8]),
    Interface(&'m [u8]),
    Member(&'m [u8]),
    ErrorName(&'m [u8]),
    ReplySerial(u32),
    Destination(&'m [u8]),
    Sender(&'m [u8]),
    Signature(&'m [u8]),
    UnixFds(u32),
}

// The codes that are known.
#[derive(Clone, Copy)]
pub(crate) enum FieldCode {
    Path,
    Interface,
    Member,
    ErrorName,
    ReplySerial,
    Destination,
    Sender,
    Signature,
    UnixFds,
}

// A code that is not known.
#[derive(Clone, Copy, Debug, PartialEq, Eq)]
pub(crate) struct UnknownField(pub(crate) u8);

// Why a field is bad.
#[derive(Clone, Copy)]
pub(crate) enum Flaw {
    // A known field for the second time.
    Twice,
    // A known field of another type.
    WrongType,
    // A code, a padding or a value that may not be, or one that overruns.
    BadValue,
}

// What cannot be read is a value that may not be.
impl From<Fault> for Flaw {
    ghost from_gives = { λ _ flaw. flaw ≡ BadValue };

    fn from(_fault: Fault) -> Flaw {
        Flaw::BadValue
    }
}

impl Flaw {
    // The refusal for this flaw of the field whose code byte is at `place`.
    pub(crate) fn at(self, place: usize) -> HeaderFault
        ensures { result ≡ fault_of self place }
    {
        match self {
            Flaw::Twice | Flaw::WrongType | Flaw::BadValue => HeaderFault::BadField(place),
        }
    }
}

fn is_name(text: &[u8], alphabet: Alphabet) -> bool
    ensures { result ≡ valid alphabet text.now }
{
    alphabet.check(text).is_ok()
}

fn is_bus_name(text: &[u8]) -> bool
    ensures { result ≡ valid_bus text.now }
{
    is_name(text, Alphabet::Unique) || is_name(text, Alphabet::WellKnown)
}

#[tactic(auto, unfolding(crate::specs::Fields::valid_sender))]
fn is_sender(text: &[u8]) -> bool
    ensures { result ≡ valid_sender text.now }
{
    is_name(text, Alphabet::Unique) || text == BUS
}

// What was read, as a field, if it passes the test.
fn taken<'m, T: Copy, P: FnOnce(T) -> bool, H: FnOnce(T) -> Field<'m>>(
    read: Result<(T, usize), Fault>,
    passes: P,
    hold: H,
) -> Result<(Field<'m>, usize), Flaw>
    requires passes { P.IsAlwaysCallable passes }
    requires hold { H.IsAlwaysCallable hold }
    ensures { MatchResult read (λ x. (b : Bool) × P.post passes x.0 b × MatchBool b (IsOkAnd result (λ y. H.post hold x.0 y.0 × (y.1 ≡ x.1))) (result ≡ Err BadValue)) (λ _. result ≡ Err BadValue) }
{
    let (value, next) = read?;
    if !passes(value) {
        return Err(Flaw::BadValue);
    }
    Ok((hold(value), next))
}

// The code of this byte.
impl TryFrom<u8> for FieldCode {
    type Error = UnknownField;

    ghost try_from_gives = { Known };

    fn try_from(byte: u8) -> Result<Self, UnknownField> {
        match byte {
            1 => Ok(FieldCode::Path),
            2 => Ok(FieldCode::Interface),
            3 => Ok(FieldCode::Member),
            4 => Ok(FieldCode::ErrorName),
            5 => Ok(FieldCode::ReplySerial),
            6 => Ok(FieldCode::Destination),
            7 => Ok(FieldCode::Sender),
            8 => Ok(FieldCode::Signature),
            9 => Ok(FieldCode::UnixFds),
            _ => Err(UnknownField(byte)),
        }
    }
}

impl FieldCode {
    // The letter of its type. A method, since `u8::from(code)` would not say which number it is.
    fn letter(self) -> u8
        ensures { result ≡ type_of self }
    {
        match self {
            FieldCode::Path => b'o',
            FieldCode::Signature => b'g',
            FieldCode::ReplySerial | FieldCode::UnixFds => b'u',
            _ => b's',
        }
    }

    // Past its variant's signature, which has to be its type.
    #[tactic(auto, unfolding(crate::specs::Fields::typed_at))]
    fn typed(self, area: &[u8], at: usize) -> Result<usize, Flaw>
        ensures value { result ≡ typed_at self area.now at }
        ensures within { Further area.now at result }
    {
        let (signature, start) = read_signature(area, at).map_err(|_| Flaw::WrongType)?;
        if signature != [self.letter()].as_slice() {
            return Err(Flaw::WrongType);
        }
        Ok(start)
    }

    // Its value.
    #[tactic(auto, unfolding(crate::specs::Fields::value_in))]
    fn read<'m>(self, reader: Reader<'m>, at: usize) -> Result<(Field<'m>, usize), Flaw>
        ensures value { field_seen result ≡ value_in self reader.entry.order reader.entry.message.now at }
        ensures within { After reader.entry.message.now at result }
    {
        match self {
            FieldCode::Path => taken(reader.read_path(at), |_| true, Field::Path),
            FieldCode::Interface => taken(
                reader.read_string(at),
                |text| is_name(text, Alphabet::Name),
                Field::Interface,
            ),
            FieldCode::Member => taken(
                reader.read_string(at),
                |text| is_name(text, Alphabet::Member),
                Field::Member,
            ),
            FieldCode::ErrorName => taken(
                reader.read_string(at),
                |text| is_name(text, Alphabet::Name),
                Field::ErrorName,
            ),
            FieldCode::ReplySerial => taken(reader.read_u32(at), |n| n != 0, Field::ReplySerial),
            FieldCode::Destination => taken(
                reader.read_string(at),
                is_bus_name,
                Field::Destination,
            ),
            FieldCode::Sender => taken(reader.read_string(at), is_sender, Field::Sender),
            FieldCode::Signature => taken(
                read_signature(reader.message, at),
                |_| true,
                Field::Signature,
            ),
            FieldCode::UnixFds => taken(reader.read_u32(at), |_| true, Field::UnixFds),
        }
    }
}

// Whether the padding before a field is as few bytes as it takes, all zero.
#[tactic(auto, unfolding(crate::specs::Fields::padded, signature::specs::Codes::align_of))]
fn is_padded(area: &[u8], at: usize) -> bool
    ensures { result ≡ padded area.now at }
{
    align(area, at, Code::Structure).is_ok()
}

// A field of a known code: its padding begins at `at`, its variant at `variant`.
#[tactic(auto, unfolding(crate::specs::Fields::known_at))]
pub(crate) fn known_field<'m>(
    reader: Reader<'m>,
    code: FieldCode,
    at: usize,
    variant: usize,
) -> Result<(Field<'m>, usize), Flaw>
    ensures value { field_seen result ≡ known_at code reader.entry.order reader.entry.message.now at variant }
    ensures within { After reader.entry.message.now variant result }
{
    let start = code.typed(reader.message, variant)?;
    if !is_padded(reader.message, at) {
        return Err(Flaw::BadValue);
    }
    code.read(reader, start)
}

// Past a field of an unknown code.
#[tactic(auto, unfolding(crate::specs::Fields::unknown_at))]
pub(crate) fn skip_field(reader: Reader, byte: u8, at: usize, variant: usize) -> Result<usize, Flaw>
    ensures value { result ≡ unknown_at byte reader.entry.order reader.entry.message.now at variant }
    ensures within { Further reader.entry.message.now variant result }
{
    if byte == 0 || !is_padded(reader.message, at) {
        return Err(Flaw::BadValue);
    }
    let (signature, start) = read_signature(reader.message, variant)?;
    Ok(skip(reader, signature, start, FIELD_LEVELS)?)
}
