// Reads, and the places of their faults.
use signature::codes::Code;
use std::process::Abort;
use wire::reading::{ByteOrder, Fault, Reader, align, read_byte, read_signature};

fn little(message: &[u8]) -> Reader {
    Reader {
        message,
        order: ByteOrder::Little,
    }
}

fn big(message: &[u8]) -> Reader {
    Reader {
        message,
        order: ByteOrder::Big,
    }
}

fn is_text(rt: &impl Abort, read: Result<(&[u8], usize), Fault>, text: &[u8], next: usize) {
    assert!(rt; read == Ok((text, next)));
}

fn refused(rt: &impl Abort, read: Result<(&[u8], usize), Fault>, fault: Fault) {
    assert!(rt; read == Err(fault));
}

#[test]
fn numbers(rt: HostRuntime) {
    let message = b"\x01\0\0\0\x02\0\0\x03";
    assert_eq!(rt; read_byte(message, 7), Ok((3, 8)));
    assert_eq!(rt; read_byte(message, 8), Err(Fault::Short(8)));
    assert_eq!(rt; little(message).read_u32(0), Ok((1, 4)));
    assert_eq!(rt; big(message).read_u32(0), Ok((16777216, 4)));
    assert_eq!(rt; little(message).read_u32(1), Ok((50331650, 8)));
    assert_eq!(rt; big(message).read_u32(4), Ok((33554435, 8)));
    assert_eq!(rt; big(message).read_u32(5), Err(Fault::Padding(5)));
    assert_eq!(rt; big(message).read_u32(8), Err(Fault::Short(8)));
    assert_eq!(rt; big(message).read_u32(9), Err(Fault::Short(9)));
}

#[test]
fn booleans(rt: HostRuntime) {
    let message = b"\0\0\0\0\x01\0\0\0\0\0\0\x01\0\0\0\x02";
    assert_eq!(rt; little(message).read_bool(0), Ok((false, 4)));
    assert_eq!(rt; little(message).read_bool(4), Ok((true, 8)));
    assert_eq!(rt; big(message).read_bool(4), Err(Fault::Boolean(4)));
    assert_eq!(rt; big(message).read_bool(8), Ok((true, 12)));
    assert_eq!(rt; big(message).read_bool(12), Err(Fault::Boolean(12)));
}

#[test]
fn padding(rt: HostRuntime) {
    let message = b"\x01\0\0\0\0\0\0\0\0\x01\0";
    assert_eq!(rt; align(message, 1, Code::Structure), Ok(8));
    assert_eq!(rt; align(message, 0, Code::Structure), Ok(0));
    assert_eq!(rt; align(message, 9, Code::Uint16), Err(Fault::Padding(9)));
    assert_eq!(rt; align(message, 9, Code::Byte), Ok(9));
    assert_eq!(rt; align(message, 11, Code::Variant), Ok(11));
    assert_eq!(rt; align(message, 11, Code::Array), Err(Fault::Short(11)));
}

// The worked example of the Specification's section "Marshalling basic types".
#[test]
fn strings_in_sequence(rt: HostRuntime) {
    let message = b"\x03\0\0\0foo\0\x01\0\0\0+\0\0\0\x03\0\0\0bar\0";
    is_text(&rt, little(message).read_string(0), b"foo", 8);
    is_text(&rt, little(message).read_string(8), b"+", 14);
    is_text(&rt, little(message).read_string(14), b"bar", 24);
}

#[test]
fn strings(rt: HostRuntime) {
    is_text(&rt, big(b"\0\0\0\0\0").read_string(0), b"", 5);
    // U+FFFF, a noncharacter, and U+10FFFF
    is_text(
        &rt,
        big(b"\0\0\0\x03\xef\xbf\xbf\0").read_string(0),
        b"\xef\xbf\xbf",
        8,
    );
    is_text(
        &rt,
        big(b"\0\0\0\x04\xf4\x8f\xbf\xbf\0").read_string(0),
        b"\xf4\x8f\xbf\xbf",
        9,
    );
    // too long for U+0000, a surrogate, past U+10FFFF, a zero inside
    refused(
        &rt,
        big(b"\0\0\0\x02\xc0\x80\0").read_string(0),
        Fault::Text(4),
    );
    refused(
        &rt,
        big(b"\0\0\0\x03\xed\xa0\x80\0").read_string(0),
        Fault::Text(4),
    );
    refused(
        &rt,
        big(b"\0\0\0\x04\xf4\x90\x80\x80\0").read_string(0),
        Fault::Text(4),
    );
    refused(&rt, big(b"\0\0\0\x03a\0b\0").read_string(0), Fault::Text(4));
    // no zero after it, another byte after it, a length past the message
    refused(&rt, big(b"\0\0\0\x01a").read_string(0), Fault::Short(5));
    refused(
        &rt,
        big(b"\0\0\0\x01ab").read_string(0),
        Fault::Unterminated(5),
    );
    refused(&rt, big(b"\0\0\0\x09a\0").read_string(0), Fault::Short(4));
    refused(
        &rt,
        little(b"\0\0\0\x01a\0").read_string(0),
        Fault::Short(4),
    );
}

#[test]
fn paths_and_signatures(rt: HostRuntime) {
    is_text(&rt, little(b"\x01\0\0\0/\0").read_path(0), b"/", 6);
    is_text(&rt, little(b"\x05\0\0\0/a/b2\0").read_path(0), b"/a/b2", 10);
    refused(&rt, little(b"\0\0\0\0\0").read_path(0), Fault::Path(4));
    refused(&rt, little(b"\x02\0\0\0//\0").read_path(0), Fault::Path(4));
    refused(&rt, little(b"\x03\0\0\0/a/\0").read_path(0), Fault::Path(4));
    is_text(&rt, read_signature(b"\0\0", 0), b"", 2);
    is_text(&rt, read_signature(b"x\x05a{sv}\0", 1), b"a{sv}", 8);
    refused(&rt, read_signature(b"\x01a\0", 0), Fault::Signature(1));
    refused(&rt, read_signature(b"\x01yy", 0), Fault::Unterminated(2));
    refused(&rt, read_signature(b"\x02y\0", 0), Fault::Short(3));
    refused(&rt, read_signature(b"", 0), Fault::Short(0));
}
