// A plan of a chain of effects: which of its lines can be placed by their names, and if not, why and where.
#![tactic(auto)]

ghost use Rattle.std.specs.Prelude.{◌≡◌, ◌<◌, true, false, length, is_ok, IfOk, IfErr, MatchOption, Some};
ghost use Rattle.names.specs.Paths.{makeable};
ghost use Rattle.plan.specs.Printed.{limit_text, fault_text, what_text};
ghost use Rattle.plan.specs.Plans.{what_of, is_make, placeable, Unmakeable, limit_at, Told};

use names::grammar::Invalid;
use names::object_path::ObjectPath;
use names::paths::is_makeable;
use names::standard::Standard;
use names::types::InterfaceName;
use std::error::Error;
use std::fmt;

// What is to be placed.
#[derive(Clone, Copy, PartialEq, Eq, Debug)]
pub enum What {
    Delay,
    Tuner,
    Standard(Standard),
    Own,
}

// The limits of a path that the server makes.
#[derive(Clone, Copy, PartialEq, Eq, Debug)]
pub enum Limit {
    // 255 bytes
    Bytes,
    // 16 elements
    Elements,
    // 63 bytes in an element
    Element,
}

// Why a line cannot be placed, with the place of the first byte that is wrong.
#[derive(Clone, Copy, PartialEq, Eq, Debug)]
pub enum Fault {
    Path(Invalid),
    Limit(usize, Limit),
    Interface(Invalid),
}

// The place at which a path breaks a limit, if it does.
fn limit_place(path: &[u8]) -> Option<usize>
    ensures { MatchOption result (makeable path.now ≡ true) (λ at. (makeable path.now ≡ false) × Unmakeable path.now at) }
{
    if is_makeable(path) {
        return None;
    }
    (0..path.len()).find(|i| !is_makeable(&path[..*i + 1]))
}

// Which limit it breaks there.
fn broken_limit(path: &[u8], at: usize) -> Limit
    requires { at < length path.now }
    ensures { result ≡ limit_at path.now at }
{
    if at >= 255 {
        Limit::Bytes
    } else if path[at] == b'/' {
        Limit::Elements
    } else {
        Limit::Element
    }
}

// What a word stands for.
fn meaning(word: &[u8]) -> What
    ensures { result ≡ what_of word.now }
{
    match word {
        b"delay" => What::Delay,
        b"tuner" => What::Tuner,
        _ => Standard::try_from(word).map_or(What::Own, What::Standard),
    }
}

// Whether a word is that of a make, and no interface's name.
fn is_make(word: &[u8]) -> bool
    ensures { result ≡ is_make word.now }
{
    matches!(word, b"delay" | b"tuner")
}

// What a line would place, or why it cannot be placed by its names.
pub fn judge(path: &[u8], word: &[u8]) -> Result<What, Fault>
    ensures answer { is_ok result ≡ placeable path.now word.now }
    ensures value { IfOk result (λ w. w ≡ what_of word.now) }
    ensures fault { IfErr result (λ e. Told path.now word.now e) }
{
    ObjectPath::try_from(path).map_err(Fault::Path)?;
    if let Some(at) = limit_place(path) {
        return Err(Fault::Limit(at, broken_limit(path, at)));
    }
    if !is_make(word) {
        InterfaceName::try_from(word).map_err(Fault::Interface)?;
    }
    Ok(meaning(word))
}

impl fmt::Display for Limit {
    ghost output = { λ x. Some (limit_text x) };

    fn fmt<W: fmt::Write>(&self, f: &mut fmt::Formatter<W>) -> fmt::Result {
        match self {
            Limit::Bytes => write!(f, "a node's path has at most 255 bytes"),
            Limit::Elements => write!(f, "a node's path has at most 16 elements"),
            Limit::Element => write!(f, "an element of a node's path has at most 63 bytes"),
        }
    }
}

impl fmt::Display for Fault {
    ghost output = { λ x. Some (fault_text x) };

    fn fmt<W: fmt::Write>(&self, f: &mut fmt::Formatter<W>) -> fmt::Result {
        match self {
            Fault::Path(invalid) => write!(f, "path, {invalid}"),
            Fault::Limit(place, limit) => write!(f, "path, byte {place}: {limit}"),
            Fault::Interface(invalid) => write!(f, "interface, {invalid}"),
        }
    }
}

impl Error for Fault {}

impl fmt::Display for What {
    ghost output = { λ x. Some (what_text x) };

    fn fmt<W: fmt::Write>(&self, f: &mut fmt::Formatter<W>) -> fmt::Result {
        match self {
            What::Delay => write!(f, "a Delay"),
            What::Tuner => write!(f, "a Tuner"),
            What::Standard(_) => write!(f, "a standard interface"),
            What::Own => write!(f, "an own interface"),
        }
    }
}
