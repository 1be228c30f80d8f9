// The header of a message. It borrows from the message and from nothing else.
ghost use Rattle.std.specs.Prelude.{◌≡◌, ◌==◌, bit_and};
ghost use Rattle.message.specs.Headers.{call_of, header_of, header_seen, model, numbered, texted};

use crate::fault::HeaderFault;
use crate::fields::{Fields, read_fields};
use crate::fixed::{FIXED_LEN, FixedPart, MessageType};
use signature::codes::Code;
use wire::reading::{ByteOrder, Reader, align};

// The flag by which a caller says that it waits for no answer.
const NO_REPLY_EXPECTED: u8 = 1;

#[derive(Clone, Copy)]
pub struct Header<'m> {
    fixed: FixedPart,
    fields: Fields<'m>,
    body: &'m [u8],
}

impl<'m> Header<'m> {
    // The header of a message of any type.
    #[tactic(auto, unfolding(crate::specs::Headers::header_of, signature::specs::Codes::align_of))]
    pub fn read(message: &'m [u8]) -> Result<Header<'m>, HeaderFault>
        ensures { header_seen result ≡ header_of message.now }
    {
        let fixed = FixedPart::read(message)?;
        let end = FIXED_LEN + fixed.fields_len as usize;
        let fields = read_fields(Reader {
            message: &message[..end],
            order: fixed.order,
        })?;
        let start = align(message, end, Code::Structure).map_err(|_| HeaderFault::BadField(end))?;
        Ok(Header {
            fixed,
            fields,
            body: &message[start..],
        })
    }

    // The header of a call.
    #[tactic(auto, unfolding(crate::specs::Headers::call_of))]
    pub fn call(message: &'m [u8]) -> Result<Header<'m>, HeaderFault>
        ensures { header_seen result ≡ call_of message.now }
    {
        let header = Header::read(message)?;
        match header.fixed.kind {
            MessageType::MethodCall => Ok(header),
            _ => Err(HeaderFault::NotACall),
        }
    }

    pub fn byte_order(&self) -> ByteOrder
        ensures { result ≡ (model self.now).order }
    {
        self.fixed.order
    }

    pub fn message_type(&self) -> MessageType
        ensures { result ≡ (model self.now).kind }
    {
        self.fixed.kind
    }

    // All flags, the unknown ones too.
    pub fn flags(&self) -> u8
        ensures { result ≡ (model self.now).flags }
    {
        self.fixed.flags
    }

    pub fn no_reply_expected(&self) -> bool
        ensures { result ≡ (bit_and (model self.now).flags 1 == 1) }
    {
        self.flags() & NO_REPLY_EXPECTED == NO_REPLY_EXPECTED
    }

    pub fn serial(&self) -> u32
        ensures { result ≡ (model self.now).serial }
    {
        self.fixed.serial
    }

    pub fn path(&self) -> Option<&'m [u8]>
        ensures { texted result ≡ (model self.now).found 1 }
    {
        self.fields.path
    }

    pub fn interface(&self) -> Option<&'m [u8]>
        ensures { texted result ≡ (model self.now).found 2 }
    {
        self.fields.interface
    }

    pub fn member(&self) -> Option<&'m [u8]>
        ensures { texted result ≡ (model self.now).found 3 }
    {
        self.fields.member
    }

    pub fn error_name(&self) -> Option<&'m [u8]>
        ensures { texted result ≡ (model self.now).found 4 }
    {
        self.fields.error_name
    }

    pub fn reply_serial(&self) -> Option<u32>
        ensures { numbered result ≡ (model self.now).found 5 }
    {
        self.fields.reply_serial
    }

    pub fn destination(&self) -> Option<&'m [u8]>
        ensures { texted result ≡ (model self.now).found 6 }
    {
        self.fields.destination
    }

    pub fn sender(&self) -> Option<&'m [u8]>
        ensures { texted result ≡ (model self.now).found 7 }
    {
        self.fields.sender
    }

    pub fn signature(&self) -> Option<&'m [u8]>
        ensures { texted result ≡ (model self.now).found 8 }
    {
        self.fields.signature
    }

    // How many file descriptors come with the message.
    pub fn unix_fds(&self) -> Option<u32>
        ensures { numbered result ≡ (model self.now).found 9 }
    {
        self.fields.unix_fds
    }

    pub fn body(&self) -> &'m [u8]
        ensures { result.now ≡ (model self.now).body }
    {
        self.body
    }
}
