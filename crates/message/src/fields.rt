// The fields of a header, each at most once. An end comes with its bound beside it, as in the reading of one field.
ghost use Rattle.std.specs.Prelude.{◌≡◌, ℕ, ◌+◌, ◌<◌, ◌≤◌, length, is_some, None};
ghost use Rattle.message.specs.Fields.{After, number_of};
ghost use Rattle.message.specs.Headers.{entered, entered_all, field_at, fields_of, fields_seen, found_seen, look, noted};

use crate::fault::HeaderFault;
use crate::field::{Field, FieldCode, Flaw, known_field, skip_field};
use crate::fixed::{FIXED_LEN, raise};
use wire::reading::{Reader, read_byte};

#[derive(Clone, Copy)]
pub(crate) struct Fields<'m> {
    pub(crate) path: Option<&'m [u8]>,
    pub(crate) interface: Option<&'m [u8]>,
    pub(crate) member: Option<&'m [u8]>,
    pub(crate) error_name: Option<&'m [u8]>,
    pub(crate) reply_serial: Option<u32>,
    pub(crate) destination: Option<&'m [u8]>,
    pub(crate) sender: Option<&'m [u8]>,
    pub(crate) signature: Option<&'m [u8]>,
    pub(crate) unix_fds: Option<u32>,
}

impl<'m> Fields<'m> {
    fn none() -> Fields<'m>
        ensures { (k : ℕ) → look result k ≡ None }
    {
        Fields {
            path: None,
            interface: None,
            member: None,
            error_name: None,
            reply_serial: None,
            destination: None,
            sender: None,
            signature: None,
            unix_fds: None,
        }
    }

    // Whether a field of this code is there.
    fn has(&self, code: FieldCode) -> bool
        ensures { result ≡ is_some (look self.now (number_of code)) }
    {
        match code {
            FieldCode::Path => self.path.is_some(),
            FieldCode::Interface => self.interface.is_some(),
            FieldCode::Member => self.member.is_some(),
            FieldCode::ErrorName => self.error_name.is_some(),
            FieldCode::ReplySerial => self.reply_serial.is_some(),
            FieldCode::Destination => self.destination.is_some(),
            FieldCode::Sender => self.sender.is_some(),
            FieldCode::Signature => self.signature.is_some(),
            FieldCode::UnixFds => self.unix_fds.is_some(),
        }
    }

    // Takes in a field.
    fn put(&mut self, field: Field<'m>)
        ensures { (k : ℕ) → look self.new k ≡ noted (entered field.entry) (look self.old) k }
    {
        match field {
            Field::Path(text) => self.path = Some(text),
            Field::Interface(text) => self.interface = Some(text),
            Field::Member(text) => self.member = Some(text),
            Field::ErrorName(text) => self.error_name = Some(text),
            Field::ReplySerial(n) => self.reply_serial = Some(n),
            Field::Destination(text) => self.destination = Some(text),
            Field::Sender(text) => self.sender = Some(text),
            Field::Signature(text) => self.signature = Some(text),
            Field::UnixFds(n) => self.unix_fds = Some(n),
        }
    }

    // Takes in what was found, if its code was known.
    fn note(&mut self, found: Option<Field<'m>>)
        ensures { (k : ℕ) → look self.new k ≡ noted (entered_all found.entry) (look self.old) k }
    {
        if let Some(field) = found {
            self.put(field);
        }
    }
}

// One field after those that were read; none, if its code is unknown.
#[tactic(auto, unfolding(crate::specs::Headers::field_at))]
fn read_field<'m>(
    reader: Reader<'m>,
    fields: &Fields<'m>,
    at: usize,
) -> Result<(Option<Field<'m>>, usize), Flaw>
    requires { at < 4294967296 }
    ensures value { found_seen result ≡ field_at reader.entry.order reader.entry.message.now (look fields.now) at }
    ensures within { After reader.entry.message.now at result }
{
    let (byte, variant) = read_byte(reader.message, raise(at))?;
    let Ok(code) = FieldCode::try_from(byte) else {
        let end = skip_field(reader, byte, at, variant)?;
        return Ok((None, end));
    };
    if fields.has(code) {
        return Err(Flaw::Twice);
    }
    let (field, end) = known_field(reader, code, at, variant)?;
    Ok((Some(field), end))
}

// The fields of a header, which is this long without the padding at its end.
pub(crate) fn read_fields(reader: Reader) -> Result<Fields, HeaderFault>
    requires { length reader.message.now < 4294967296 }
    ensures { fields_seen result ≡ fields_of reader.entry.order reader.entry.message.now }
{
    let mut fields = Fields::none();
    // A field's length moves the place: no iterator knows it.
    let mut at = FIXED_LEN;
    while at < reader.message.len() {
        let place = raise(at);
        let (found, end) = read_field(reader, &fields, at).map_err(|flaw| flaw.at(place))?;
        fields.note(found);
        at = end;
    }
    Ok(fields)
}
