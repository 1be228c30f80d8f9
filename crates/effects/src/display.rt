// How values, their types and accesses are printed.
ghost use Rattle.std.specs.Prelude.{[], ◌∷◌, Some};
ghost use Rattle.effects.specs.Values.{seen, code_of};
ghost use Rattle.effects.specs.Printed.{access_text, value_text};

use crate::interface::Access;
use crate::value::{Signature, Value};
use std::fmt;

impl fmt::Display for Access {
    ghost output = { λ a. Some (access_text a) };

    fn fmt<W: fmt::Write>(&self, f: &mut fmt::Formatter<W>) -> fmt::Result {
        f.write_str(match self {
            Access::Read => "read",
            Access::ReadWrite => "readwrite",
        })
    }
}

// The type's code.
impl fmt::Display for Signature {
    ghost output = { λ s. Some (code_of s ∷ []) };

    fn fmt<W: fmt::Write>(&self, f: &mut fmt::Formatter<W>) -> fmt::Result {
        f.write_str(match self {
            Signature::Bool => "b",
            Signature::I32 => "i",
            Signature::U32 => "u",
            Signature::Str => "s",
        })
    }
}

// A text between double quotes.
impl fmt::Display for Value {
    ghost output = { λ v. Some (value_text (seen v)) };

    fn fmt<W: fmt::Write>(&self, f: &mut fmt::Formatter<W>) -> fmt::Result {
        match self {
            Value::Bool(b) => write!(f, "{b}"),
            Value::I32(n) => write!(f, "{n}"),
            Value::U32(n) => write!(f, "{n}"),
            Value::Str(t) => {
                let text = t.as_str();
                write!(f, "\"{text}\"")
            }
        }
    }
}
