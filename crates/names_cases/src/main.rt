// Runs a table of names from standard input. A line is a kind of name, the verdict that is expected ("ok" or the place
// of the fault), and the text, in which \xNN stands for a byte. Prints the lines whose verdict is another, and how
// many there were.
#![tactic(auto)]

ghost use Rattle.std.specs.Prelude.{◌<◌, length, IfSome};

use names::grammar::Invalid;
use names::object_path::ObjectPath;
use names::types::{BusName, ErrorName, InterfaceName, MemberName, UniqueName, WellKnownName};
use std::alloc::{AllocError, Global};

// The value of a hexadecimal digit.
fn digit(b: u8) -> Option<u8> {
    match b {
        b'0'..=b'9' => Some(b - b'0'),
        b'a'..=b'f' => Some(b - b'a' + 10),
        _ => None,
    }
}

// The byte that \xNN stands for at the front of a text, and what follows it.
fn split_escape(text: &[u8]) -> Option<(u8, &[u8])>
    ensures { IfSome result (λ p. length p.1.now < length text.now) }
{
    let [b'\\', b'x', high, low, rest @ ..] = text else {
        return None;
    };
    Some((
        digit(*high)?.wrapping_mul(16).wrapping_add(digit(*low)?),
        rest,
    ))
}

// The first byte that a text stands for, and what follows it.
fn split_byte(text: &[u8]) -> Option<(u8, &[u8])>
    ensures { IfSome result (λ p. length p.1.now < length text.now) }
{
    split_escape(text).or_else(|| text.split_first().map(|(b, rest)| (*b, rest)))
}

// The bytes that a text stands for.
fn unescaped(heap: Global, text: &[u8]) -> Result<Vec<u8>, AllocError> {
    let mut bytes = Vec::new(heap);
    // An escape's length moves the place: no iterator knows it.
    let mut left = text;
    while let Some((value, rest)) = split_byte(left) {
        bytes.push(value)?;
        left = rest;
    }
    Ok(bytes)
}

// Whether bytes are a name of some type.
fn check<'a, N: TryFrom<&'a [u8], Error = Invalid> + Drop>(bytes: &'a [u8]) -> Result<(), Invalid> {
    N::try_from(bytes)?;
    Ok(())
}

// The verdict on bytes as a name of some kind; none where the kind is unknown.
fn verdict(kind: &str, bytes: &[u8]) -> Option<Result<(), Invalid>> {
    match kind {
        "path" => Some(check::<ObjectPath>(bytes)),
        "interface" => Some(check::<InterfaceName>(bytes)),
        "error" => Some(check::<ErrorName>(bytes)),
        "member" => Some(check::<MemberName>(bytes)),
        "unique" => Some(check::<UniqueName>(bytes)),
        "well-known" => Some(check::<WellKnownName>(bytes)),
        "bus" => Some(check::<BusName>(bytes)),
        _ => None,
    }
}

// Whether a line's verdict is the one that is expected.
fn agrees(heap: Global, line: &str) -> Result<bool, AllocError> {
    let Some((kind, rest)) = line.split_once(' ') else {
        return Ok(false);
    };
    let Some((expected, text)) = rest.split_once(' ') else {
        return Ok(false);
    };
    let bytes = unescaped(heap, text.as_bytes())?;
    Ok(match verdict(kind, bytes.as_slice()) {
        None => false,
        Some(Ok(())) => expected == "ok",
        Some(Err(invalid)) => expected.parse::<usize>() == Ok(invalid.place),
    })
}

fn run(rt: &HostRuntime) -> anyhow::Result<()> {
    let mut count: u32 = 0;
    let mut wrong: u32 = 0;
    for line in rt.lines(rt.alloc()) {
        let line = line?;
        count = count.saturating_add(1);
        if !agrees(rt.alloc(), line.as_str())? {
            wrong = wrong.saturating_add(1);
            println!(rt; "wrong: {line}")?;
        }
    }
    println!(rt; "{count} names, {wrong} wrong verdicts")?;
    Ok(())
}

fn main(rt: HostRuntime) -> anyhow::Result<()> {
    run(&rt)
}
