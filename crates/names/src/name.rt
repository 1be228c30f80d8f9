ghost use Rattle.std.specs.Prelude.{◌≡◌, Bool, true, ⊤, refl, is_ok, IfOk, IfErr};
ghost use Rattle.names.specs.declared.grammar.Alphabet.{Alphabet};
ghost use Rattle.names.specs.declared.grammar.Alphabet.TheVariants.{Path as of_path, Name as of_name, Member as of_member, WellKnown as of_well_known, Unique as of_unique};
ghost use Rattle.names.specs.Names.{Bytes, valid, valid_path, valid_interface, valid_error, valid_member, valid_unique, valid_well_known};
ghost use Rattle.names.specs.Faults.{Refusal};
ghost use Rattle.names.specs.Kinds.{Judged};

use super::grammar::{Alphabet, Invalid};
use std::alloc::AllocError;
use std::marker::PhantomData;

// A kind of name.
pub trait Kind {
    ghost ALPHABET: { Alphabet };

    const ALPHABET: Alphabet;

    // Which bytes are such a name: those that its alphabet allows.
    ghost is_valid: { Bytes → Bool };

    ghost by_alphabet: { (s : Bytes) → is_valid s ≡ valid ALPHABET s };
}

// A text that is a name of its kind.
#[derive(PartialEq, Eq, PartialOrd, Ord, Debug)]
pub struct Name<'a, K: Kind> {
    bytes: &'a [u8],
    kind: PhantomData<K>,
    pub ghost valid: { K.is_valid bytes.now ≡ true },
}

// Both by hand: of a generic struct the check says "`Clone` cannot be derived for a struct with a ghost field".
impl<'a, K: Kind> Copy for Name<'a, K> {}

impl<'a, K: Kind> Clone for Name<'a, K> {
    ghost is_clone = { λ n m. m ≡ n };

    ghost is_infallible = { λ _. ⊤ };

    fn clone(&self) -> Result<Self, AllocError> {
        Ok(*self)
    }
}

impl<'a, K: Kind> TryFrom<&'a [u8]> for Name<'a, K> {
    type Error = Invalid;

    ghost try_from_gives = { λ s r. Judged K.is_valid (λ n. n.bytes.now) K.ALPHABET s.now r };

    fn try_from(bytes: &'a [u8]) -> Result<Self, Invalid> {
        K::ALPHABET.check(bytes)?;
        Ok(Name {
            bytes,
            kind: PhantomData,
        })
    }
}

impl<'a, K: Kind> Name<'a, K> {
    // What `TryFrom` does, and takes an array or a `Vec` too, which is lent as a slice: of the trait it would want an impl of its own.
    pub fn try_from(bytes: &'a [u8]) -> Result<Self, Invalid>
        ensures answer { is_ok result ≡ K.is_valid bytes.now }
        ensures value { IfOk result (λ n. n.bytes.now ≡ bytes.now) }
        ensures fault { IfErr result (λ e. Refusal K.ALPHABET bytes.now e) }
    {
        <Self as TryFrom<&'a [u8]>>::try_from(bytes)
    }

    pub fn as_bytes(&self) -> &'a [u8]
        ensures bytes { result.now ≡ self.now.bytes.now }
        ensures valid { K.is_valid result.now ≡ true }
    {
        self.bytes
    }
}

// A block for each kind: the gate refuses an impl that a macro of the repository writes.

// The kind of `ObjectPath`.
#[derive(Clone, Copy, PartialEq, Eq, PartialOrd, Ord, Debug)]
pub struct Path;

impl Kind for Path {
    ghost ALPHABET = { of_path };

    const ALPHABET: Alphabet = Alphabet::Path;

    ghost is_valid = { valid_path };

    ghost by_alphabet = { λ s. refl };
}

// The kind of `InterfaceName`.
#[derive(Clone, Copy, PartialEq, Eq, PartialOrd, Ord, Debug)]
pub struct Interface;

impl Kind for Interface {
    ghost ALPHABET = { of_name };

    const ALPHABET: Alphabet = Alphabet::Name;

    ghost is_valid = { valid_interface };

    ghost by_alphabet = { λ s. refl };
}

// The kind of `ErrorName`.
#[derive(Clone, Copy, PartialEq, Eq, PartialOrd, Ord, Debug)]
pub struct Error;

impl Kind for Error {
    ghost ALPHABET = { of_name };

    const ALPHABET: Alphabet = Alphabet::Name;

    ghost is_valid = { valid_error };

    ghost by_alphabet = { λ s. refl };
}

// The kind of `MemberName`.
#[derive(Clone, Copy, PartialEq, Eq, PartialOrd, Ord, Debug)]
pub struct Member;

impl Kind for Member {
    ghost ALPHABET = { of_member };

    const ALPHABET: Alphabet = Alphabet::Member;

    ghost is_valid = { valid_member };

    ghost by_alphabet = { λ s. refl };
}

// The kind of `UniqueName`.
#[derive(Clone, Copy, PartialEq, Eq, PartialOrd, Ord, Debug)]
pub struct Unique;

impl Kind for Unique {
    ghost ALPHABET = { of_unique };

    const ALPHABET: Alphabet = Alphabet::Unique;

    ghost is_valid = { valid_unique };

    ghost by_alphabet = { λ s. refl };
}

// The kind of `WellKnownName`.
#[derive(Clone, Copy, PartialEq, Eq, PartialOrd, Ord, Debug)]
pub struct WellKnown;

impl Kind for WellKnown {
    ghost ALPHABET = { of_well_known };

    const ALPHABET: Alphabet = Alphabet::WellKnown;

    ghost is_valid = { valid_well_known };

    ghost by_alphabet = { λ s. refl };
}
