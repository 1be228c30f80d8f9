// The seventeen type codes, each with its letter and the alignment of its values: one table for readers and writers.
ghost use Rattle.std.specs.Prelude.{◌≡◌, ◌<◌, ◌≤◌};
ghost use Rattle.signature.specs.Codes.{Coded, align_of, basic, lookup};

#[derive(Clone, Copy, Debug)]
pub enum Code {
    Byte,
    Boolean,
    Int16,
    Uint16,
    Int32,
    Uint32,
    Int64,
    Uint64,
    Double,
    UnixFd,
    String,
    ObjectPath,
    Signature,
    Array,
    Structure,
    DictEntry,
    Variant,
}

// A letter that is no type code.
#[derive(Clone, Copy, Debug, PartialEq, Eq)]
pub struct UnknownCode(pub u8);

// A letter, its code, and the boundary on which the code's values begin.
struct Row {
    letter: u8,
    code: Code,
    alignment: usize,
}

// By the order of the codes, so that a code's number is its row's.
#[rattlefmt::skip]
const CODES: [Row; 17] = [
    Row { letter: b'y', code: Code::Byte, alignment: 1 },
    Row { letter: b'b', code: Code::Boolean, alignment: 4 },
    Row { letter: b'n', code: Code::Int16, alignment: 2 },
    Row { letter: b'q', code: Code::Uint16, alignment: 2 },
    Row { letter: b'i', code: Code::Int32, alignment: 4 },
    Row { letter: b'u', code: Code::Uint32, alignment: 4 },
    Row { letter: b'x', code: Code::Int64, alignment: 8 },
    Row { letter: b't', code: Code::Uint64, alignment: 8 },
    Row { letter: b'd', code: Code::Double, alignment: 8 },
    Row { letter: b'h', code: Code::UnixFd, alignment: 4 },
    Row { letter: b's', code: Code::String, alignment: 4 },
    Row { letter: b'o', code: Code::ObjectPath, alignment: 4 },
    Row { letter: b'g', code: Code::Signature, alignment: 1 },
    Row { letter: b'a', code: Code::Array, alignment: 4 },
    Row { letter: b'(', code: Code::Structure, alignment: 8 },
    Row { letter: b'{', code: Code::DictEntry, alignment: 8 },
    Row { letter: b'v', code: Code::Variant, alignment: 1 },
];

// The table's first code with that letter.
fn find(table: &[Row], letter: u8) -> Option<Code>
    ensures { result ≡ lookup letter table.now }
{
    table
        .iter()
        .find(|row| row.letter == letter)
        .map(|row| row.code)
}

// The code of a letter of a signature.
impl TryFrom<u8> for Code {
    type Error = UnknownCode;

    ghost try_from_gives = { Coded };

    #[tactic(auto, using(crate::proofs::Table::lookup_codes), unfolding(crate::specs::Codes::align_of))]
    fn try_from(letter: u8) -> Result<Self, UnknownCode> {
        find(&CODES, letter).ok_or(UnknownCode(letter))
    }
}

impl Code {
    // The boundary on which a value of this code begins.
    #[tactic(auto, using(crate::proofs::Table::alignments), unfolding(crate::specs::Codes::align_of))]
    pub fn alignment(self) -> usize
        ensures value { result ≡ align_of self }
        ensures small { (0 < result) × (result ≤ 8) }
    {
        CODES[self as usize].alignment
    }

    // Whether the letter alone is the whole type, and the type no container.
    pub fn is_basic(self) -> bool
        ensures { result ≡ basic self }
    {
        !matches!(
            self,
            Code::Array | Code::Structure | Code::DictEntry | Code::Variant
        )
    }
}
