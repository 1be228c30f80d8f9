ghost use Rattle.std.specs.Prelude.{◌≡◌, true, length, is_ok, IfErr, nat_le, Some};
ghost use Rattle.names.specs.Names.{letter, word, pieces, valid};
ghost use Rattle.names.specs.Scan.{step};
ghost use Rattle.names.specs.Printed.{reason_text, invalid_text};
ghost use Rattle.names.specs.Faults.{Checked, lead, separates, opens, goes_on, spells, several, after_lead, good, fits, reason_at, Refusal};

use std::error::Error;
use std::fmt;

// What the elements of a kind of name are made of, and what separates them.
#[derive(Clone, Copy, PartialEq, Eq, Debug)]
pub enum Alphabet {
    Path,
    Name,
    Member,
    WellKnown,
    Unique,
}

// Why bytes are not a name.
#[derive(Clone, Copy, PartialEq, Eq, Debug)]
pub enum Reason {
    // more than 255 bytes
    TooLong,
    // more must follow
    Unfinished,
    // another byte must stand here
    Expected(u8),
    // a separator where an element must begin
    EmptyElement,
    // a digit where an element must begin with another byte
    LeadingDigit,
    // a byte that may not stand here
    Forbidden(u8),
}

// Why bytes are not a name, and the place of the first byte that makes them none.
#[derive(Clone, Copy, PartialEq, Eq, Debug)]
pub struct Invalid {
    pub place: usize,
    pub why: Reason,
}

// No name has more bytes, but a path may.
const MAX_NAME: usize = 255;

fn is_letter(b: u8) -> bool
    ensures { result ≡ letter b }
{
    b.is_ascii_alphabetic() || b == b'_'
}

fn is_word(b: u8) -> bool
    ensures { result ≡ word b }
{
    is_letter(b) || b.is_ascii_digit()
}

impl Alphabet {
    // The byte that must come first.
    fn lead(self) -> Option<u8>
        ensures { result ≡ lead self }
    {
        match self {
            Alphabet::Path => Some(b'/'),
            Alphabet::Unique => Some(b':'),
            Alphabet::Name | Alphabet::Member | Alphabet::WellKnown => None,
        }
    }

    fn separates(self, b: u8) -> bool
        ensures { result ≡ separates self b }
    {
        match self {
            Alphabet::Path => b == b'/',
            Alphabet::Member => false,
            Alphabet::Name | Alphabet::WellKnown | Alphabet::Unique => b == b'.',
        }
    }

    // Whether an element may begin with this byte.
    fn opens(self, b: u8) -> bool
        ensures { result ≡ opens self b }
    {
        match self {
            Alphabet::Path => is_word(b),
            Alphabet::Name | Alphabet::Member => is_letter(b),
            Alphabet::WellKnown => is_letter(b) || b == b'-',
            Alphabet::Unique => is_word(b) || b == b'-',
        }
    }

    // Whether this byte may stand further on in an element.
    fn goes_on(self, b: u8) -> bool
        ensures { result ≡ goes_on self b }
    {
        match self {
            Alphabet::Path | Alphabet::Name | Alphabet::Member => is_word(b),
            Alphabet::WellKnown | Alphabet::Unique => is_word(b) || b == b'-',
        }
    }

    // Whether an element begins after this byte, if it may stand there; `fresh` says whether one begins before it.
    fn step(self, fresh: bool, b: u8) -> Option<bool>
        ensures { result ≡ step self fresh b }
    {
        if self.separates(b) {
            return (!fresh).then_some(true);
        }
        let allowed = if fresh {
            self.opens(b)
        } else {
            self.goes_on(b)
        };
        allowed.then_some(false)
    }

    // Refuses what is more than elements, with the place of the first byte that makes it so.
    fn check_elements(self, s: &[u8]) -> Result<(), usize>
        ensures { Checked (spells self) s.now result }
    {
        let mut fresh = true;
        for (i, b) in s.iter().enumerate() {
            fresh = self.step(fresh, *b).ok_or(i)?;
        }
        if fresh { Err(s.len()) } else { Ok(()) }
    }

    // Whether there are several elements.
    fn parts(self, s: &[u8]) -> bool
        ensures { result ≡ nat_le 2 (length (pieces (separates self) s.now)) }
    {
        s.iter().any(|b| self.separates(*b))
    }

    // As `check_elements`, where dots separate and one element is too few.
    fn check_several(self, s: &[u8]) -> Result<(), usize>
        requires { separates self 46 ≡ true }
        ensures { Checked (several self) s.now result }
    {
        self.check_elements(s)?;
        if self.parts(s) { Ok(()) } else { Err(s.len()) }
    }

    // As `check_form`, after the byte that must come first.
    fn check_after_lead(self, s: &[u8]) -> Result<(), usize>
        ensures { Checked (after_lead self) s.now result }
    {
        match self {
            Alphabet::Path if s.is_empty() => Ok(()),
            // Not joined with the next arm: of the two in one the check says "no proof of `0 < length c.args.s.now` was found".
            Alphabet::Path => self.check_elements(s),
            Alphabet::Member => self.check_elements(s),
            Alphabet::Name | Alphabet::WellKnown | Alphabet::Unique => self.check_several(s),
        }
    }

    // Refuses what is no name of its kind, whatever its length, with the place of the first byte that makes it none.
    fn check_form(self, s: &[u8]) -> Result<(), usize>
        ensures { Checked (good self) s.now result }
    {
        let Some(first) = self.lead() else {
            return self.check_after_lead(s);
        };
        let rest = s.strip_prefix(&[first]).ok_or(0usize)?;
        self.check_after_lead(rest).map_err(|at| at + 1)
    }

    // What a fault at this place is called.
    fn reason(self, s: &[u8], place: usize) -> Reason
        ensures { result ≡ reason_at self s.now place }
    {
        if let (0, Some(first)) = (place, self.lead()) {
            return Reason::Expected(first);
        }
        match s.get(place) {
            None => Reason::Unfinished,
            Some(b) if self.separates(*b) => Reason::EmptyElement,
            Some(b) if b.is_ascii_digit() => Reason::LeadingDigit,
            Some(b) => Reason::Forbidden(*b),
        }
    }

    // Whether there are not too many bytes.
    fn fits(self, s: &[u8]) -> bool
        ensures { result ≡ fits self s.now }
    {
        match self {
            Alphabet::Path => true,
            _ => s.len() <= MAX_NAME,
        }
    }

    // Refuses what is no name of its kind, with the place and the reason.
    pub fn check(self, s: &[u8]) -> Result<(), Invalid>
        ensures answer { is_ok result ≡ valid self s.now }
        ensures fault { IfErr result (λ e. Refusal self s.now e) }
    {
        if !self.fits(s) {
            return Err(Invalid {
                place: MAX_NAME,
                why: Reason::TooLong,
            });
        }
        self.check_form(s).map_err(|place| Invalid {
            place,
            why: self.reason(s, place),
        })
    }
}

impl fmt::Display for Reason {
    ghost output = { λ r. Some (reason_text r) };

    fn fmt<W: fmt::Write>(&self, f: &mut fmt::Formatter<W>) -> fmt::Result {
        match self {
            Reason::TooLong => write!(f, "a name has at most {MAX_NAME} bytes"),
            Reason::Unfinished => write!(f, "it ends where more must follow"),
            Reason::Expected(b) => write!(f, "it must begin with '{}'", *b as char),
            Reason::EmptyElement => write!(f, "an element is empty"),
            Reason::LeadingDigit => write!(f, "an element may not begin with a digit"),
            Reason::Forbidden(b) => write!(f, "byte 0x{b:02x} may not stand here"),
        }
    }
}

impl fmt::Display for Invalid {
    ghost output = { λ i. Some (invalid_text i) };

    fn fmt<W: fmt::Write>(&self, f: &mut fmt::Formatter<W>) -> fmt::Result {
        write!(f, "byte {}: {}", self.place, self.why)
    }
}

impl Error for Invalid {}
