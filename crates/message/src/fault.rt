// Why a message is refused by its header.
ghost use Rattle.std.specs.Prelude.{◌≡◌};
ghost use Rattle.message.specs.Faults.{fault_number};

#[derive(Clone, Copy, Debug, PartialEq, Eq)]
pub enum HeaderFault {
    // Fewer bytes than the fixed part has.
    ShortMessage,
    // Something in the fixed part is wrong, or its lengths do not meet the message's end.
    BadFixedPart,
    // The place of the first bad field's code byte, or of the padding after the last field.
    BadField(usize),
    // A message of another type.
    NotACall,
}

impl HeaderFault {
    // The refusal's number; `u8::from(fault)` would not say which number it is.
    pub fn number(self) -> u8
        ensures { result ≡ fault_number self }
    {
        match self {
            HeaderFault::ShortMessage => 9,
            HeaderFault::BadFixedPart => 10,
            HeaderFault::BadField(_) => 11,
            HeaderFault::NotACall => 12,
        }
    }
}
