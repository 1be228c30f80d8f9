// Runs a table of whole messages from standard input. A line is the verdict that is expected and the message in
// hexadecimal: "ok" for a call, else the refusal's number, with the place after a colon where it has one. Prints the
// lines whose verdict is another, and how many there were. A line that begins "trace" shows a call's header.
//
// Who wrote the messages: lines 1 to 7 libdbus 1.14.10 (little-endian), lines 8 to 27 GLib 2.74 (both byte orders in turn).
// The others are made by hand, in both byte orders: each field well and badly, unknown fields of many types, paddings,
// and damaged copies of one call, cut at each length, with each length off by one and with each byte changed. All verdicts
// are those of a reader of its own, written from the rules and not from this code.
#![tactic(auto)]

ghost use Rattle.std.specs.Prelude.{◌<◌};

use message::fault::HeaderFault;
use message::header::Header;
use std::alloc::{AllocError, Global};
use std::str::from_utf8;

// The value of a hexadecimal digit; what is no digit counts as 0.
fn digit(b: u8) -> u8
    ensures { result < 16 }
{
    match b {
        b'0'..=b'9' => b - b'0',
        b'a'..=b'f' => b - b'a' + 10,
        _ => 0,
    }
}

// The bytes that pairs of digits stand for.
fn bytes_of(heap: Global, text: &[u8]) -> Result<Vec<u8>, AllocError> {
    let (pairs, _) = text.as_chunks::<2>();
    pairs
        .iter()
        .map(|[high, low]| digit(*high) * 16 + digit(*low))
        .collect(heap)
}

// The place that a refusal tells.
fn place(fault: HeaderFault) -> Option<usize> {
    match fault {
        HeaderFault::BadField(place) => Some(place),
        _ => None,
    }
}

// Whether a refusal is the one that is expected.
fn refused(expected: &str, fault: HeaderFault) -> bool {
    match expected.split_once(':') {
        None => place(fault).is_none() && expected.parse::<u8>() == Ok(fault.number()),
        Some((number, at)) => {
            number.parse::<u8>() == Ok(fault.number()) && at.parse::<usize>().ok() == place(fault)
        }
    }
}

// Whether the verdict on a message is the one that is expected, as a call and as a message of any type.
fn agrees(expected: &str, message: &[u8]) -> bool {
    match Header::call(message) {
        Ok(_) => expected == "ok" && Header::read(message).is_ok(),
        Err(fault) => {
            // As a message of any type it is refused for the same reason, unless its only fault is that it is no call.
            let any_type = Header::read(message).err().unwrap_or(HeaderFault::NotACall);
            any_type == fault && refused(expected, fault)
        }
    }
}

// A part of a message as text; a dash where it is absent.
fn shown(part: Option<&[u8]>) -> &str {
    part.map_or("-", |bytes| from_utf8(bytes).unwrap_or("?"))
}

// A call as the trace window shows it.
fn trace(rt: &HostRuntime, message: &[u8]) -> anyhow::Result<()> {
    match Header::call(message) {
        Ok(header) => {
            let path = shown(header.path());
            let interface = shown(header.interface());
            let member = shown(header.member());
            println!(rt; "path {path}, interface {interface}, member {member}")?;
        }
        Err(fault) => {
            let number = fault.number();
            println!(rt; "refused {number}")?;
        }
    }
    Ok(())
}

fn run(rt: &HostRuntime) -> anyhow::Result<()> {
    let mut count: u32 = 0;
    let mut wrong: u32 = 0;
    for line in rt.lines(rt.alloc()) {
        let line = line?;
        let Some((expected, text)) = line.as_str().split_once(' ') else {
            continue;
        };
        let message = bytes_of(rt.alloc(), text.as_bytes())?;
        if expected == "trace" {
            trace(rt, message.as_slice())?;
            continue;
        }
        count = count.saturating_add(1);
        if !agrees(expected, message.as_slice()) {
            wrong = wrong.saturating_add(1);
            println!(rt; "wrong: {line}")?;
        }
    }
    println!(rt; "{count} messages, {wrong} wrong verdicts")?;
    Ok(())
}

fn main(rt: HostRuntime) -> anyhow::Result<()> {
    run(&rt)
}
