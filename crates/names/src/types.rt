ghost use Rattle.std.specs.Prelude.{◌≡◌, is_ok, IfOk, IfErr};
ghost use Rattle.names.specs.Names.{valid_bus};
ghost use Rattle.names.specs.Faults.{Refusal};
ghost use Rattle.names.specs.Kinds.{Judged};
ghost use Rattle.names.specs.Buses.{bus_bytes, is_unique, colon_first, bus_alphabet};

use super::grammar::Invalid;
use super::name::{Error, Interface, Member, Name, Unique, WellKnown};

// The name of an interface.
pub type InterfaceName<'a> = Name<'a, Interface>;

// The name of an error.
pub type ErrorName<'a> = Name<'a, Error>;

// The name of a method, a signal or a property.
pub type MemberName<'a> = Name<'a, Member>;

// A bus name that a connection is given, as `:1.5`.
pub type UniqueName<'a> = Name<'a, Unique>;

// A bus name that a connection asks for, as `com.example.Pedal`.
pub type WellKnownName<'a> = Name<'a, WellKnown>;

fn colon_first(bytes: &[u8]) -> bool
    ensures { result ≡ colon_first bytes.now }
{
    matches!(bytes, [b':', ..])
}

// The name of a connection: unique where it begins with a colon.
#[derive(Clone, Copy, PartialEq, Eq, Debug)]
pub enum BusName<'a> {
    Unique(UniqueName<'a>),
    WellKnown(WellKnownName<'a>),
}

impl<'a> TryFrom<&'a [u8]> for BusName<'a> {
    type Error = Invalid;

    ghost try_from_gives = { λ s r. Judged valid_bus bus_bytes (bus_alphabet s.now) s.now r × IfOk r (λ n. is_unique n ≡ colon_first s.now) };

    fn try_from(bytes: &'a [u8]) -> Result<Self, Invalid> {
        if colon_first(bytes) {
            Ok(BusName::Unique(UniqueName::try_from(bytes)?))
        } else {
            Ok(BusName::WellKnown(WellKnownName::try_from(bytes)?))
        }
    }
}

impl<'a> BusName<'a> {
    // What `TryFrom` does, and takes an array or a `Vec` too, which is lent as a slice: of the trait it would want an impl of its own.
    pub fn try_from(bytes: &'a [u8]) -> Result<Self, Invalid>
        ensures answer { is_ok result ≡ valid_bus bytes.now }
        ensures value { IfOk result (λ n. bus_bytes n ≡ bytes.now) }
        ensures kind { IfOk result (λ n. is_unique n ≡ colon_first bytes.now) }
        ensures fault { IfErr result (λ e. Refusal (bus_alphabet bytes.now) bytes.now e) }
    {
        <Self as TryFrom<&'a [u8]>>::try_from(bytes)
    }

    pub fn as_bytes(&self) -> &'a [u8]
        ensures { result.now ≡ bus_bytes self.now }
    {
        match self {
            BusName::Unique(name) => name.as_bytes(),
            BusName::WellKnown(name) => name.as_bytes(),
        }
    }
}
