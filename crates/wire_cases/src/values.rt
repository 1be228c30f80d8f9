// Values of every type, skipped.
use signature::levels::Levels;
use skip::skip;
use std::process::Abort;
use wire::reading::{ByteOrder, Fault, Reader};

fn ends(rt: &impl Abort, signature: &[u8], message: &[u8], order: ByteOrder) {
    assert_eq!(rt;
        skip(Reader { message, order }, signature, 0, Levels::full()),
        Ok(message.len())
    );
}

// The same value in both byte orders ends with the message; and one byte less is not such a value.
fn good(rt: &impl Abort, signature: &[u8], little: &[u8], big: &[u8]) {
    ends(rt, signature, little, ByteOrder::Little);
    ends(rt, signature, big, ByteOrder::Big);
    assert!(rt; big.len() > 0);
    bad(rt, signature, &big[0..big.len() - 1], ByteOrder::Big);
}

fn bad(rt: &impl Abort, signature: &[u8], message: &[u8], order: ByteOrder) {
    assert_eq!(rt;
        skip(Reader { message, order }, signature, 0, Levels::full()),
        Err(Fault::Value(0))
    );
}

#[test]
fn basic_types(rt: HostRuntime) {
    good(&rt, b"y", b"\x01", b"\x01");
    good(&rt, b"b", b"\x01\0\0\0", b"\0\0\0\x01");
    good(&rt, b"n", b"\xfe\xff", b"\xff\xfe");
    good(&rt, b"q", b"\x03\0", b"\0\x03");
    good(&rt, b"i", b"\xfc\xff\xff\xff", b"\xff\xff\xff\xfc");
    good(&rt, b"u", b"\x05\0\0\0", b"\0\0\0\x05");
    good(
        &rt,
        b"x",
        b"\xfa\xff\xff\xff\xff\xff\xff\xff",
        b"\xff\xff\xff\xff\xff\xff\xff\xfa",
    );
    good(&rt, b"t", b"\x07\0\0\0\0\0\0\0", b"\0\0\0\0\0\0\0\x07");
    good(&rt, b"d", b"\0\0\0\0\0\0\xf8\x3f", b"\x3f\xf8\0\0\0\0\0\0");
    good(&rt, b"h", b"\0\0\0\0", b"\0\0\0\0");
    good(&rt, b"s", b"\0\0\0\0\0", b"\0\0\0\0\0");
    good(&rt, b"s", b"\x02\0\0\0hi\0", b"\0\0\0\x02hi\0");
    good(&rt, b"o", b"\x04\0\0\0/a/b\0", b"\0\0\0\x04/a/b\0");
    good(&rt, b"g", b"\x05a{sv}\0", b"\x05a{sv}\0");
    good(
        &rt,
        b"v",
        b"\x01t\0\0\0\0\0\0\x05\0\0\0\0\0\0\0",
        b"\x01t\0\0\0\0\0\0\0\0\0\0\0\0\0\x05",
    );
}

#[test]
fn containers(rt: HostRuntime) {
    good(
        &rt,
        b"(ybnqiuxtd)",
        b"\x01\0\0\0\x01\0\0\0\xfe\xff\x03\0\xfc\xff\xff\xff\x05\0\0\0\0\0\0\0\xfa\xff\xff\xff\xff\xff\xff\xff\x07\0\0\0\0\0\0\0\0\0\0\0\0\0\xf8\x3f",
        b"\x01\0\0\0\0\0\0\x01\xff\xfe\0\x03\xff\xff\xff\xfc\0\0\0\x05\0\0\0\0\xff\xff\xff\xff\xff\xff\xff\xfa\0\0\0\0\0\0\0\x07\x3f\xf8\0\0\0\0\0\0",
    );
    good(
        &rt,
        b"a{sv}",
        b"\x2c\0\0\0\0\0\0\0\x05\0\0\0Cents\0\x01i\0\0\0\0\xf9\xff\xff\xff\0\0\0\0\x06\0\0\0Locked\0\x01b\0\0\0\x01\0\0\0",
        b"\0\0\0\x2c\0\0\0\0\0\0\0\x05Cents\0\x01i\0\0\0\0\xff\xff\xff\xf9\0\0\0\0\0\0\0\x06Locked\0\x01b\0\0\0\0\0\0\x01",
    );
    good(
        &rt,
        b"(sog)",
        b"\x02\0\0\0hi\0\0\x02\0\0\0/a\0\x05a{sv}\0",
        b"\0\0\0\x02hi\0\0\0\0\0\x02/a\0\x05a{sv}\0",
    );
    good(
        &rt,
        b"ax",
        b"\x08\0\0\0\0\0\0\0\x05\0\0\0\0\0\0\0",
        b"\0\0\0\x08\0\0\0\0\0\0\0\0\0\0\0\x05",
    );
    good(&rt, b"at", b"\0\0\0\0\0\0\0\0", b"\0\0\0\0\0\0\0\0");
    good(
        &rt,
        b"aay",
        b"\x11\0\0\0\x02\0\0\0\x01\x02\0\0\0\0\0\0\x01\0\0\0\x03",
        b"\0\0\0\x11\0\0\0\x02\x01\x02\0\0\0\0\0\0\0\0\0\x01\x03",
    );
    good(
        &rt,
        b"a(y)",
        b"\x09\0\0\0\0\0\0\0\x01\0\0\0\0\0\0\0\x02",
        b"\0\0\0\x09\0\0\0\0\x01\0\0\0\0\0\0\0\x02",
    );
    good(
        &rt,
        b"a{y(sv)}",
        b" \0\0\0\0\0\0\0\x01\0\0\0\0\0\0\0\x01\0\0\0x\0\x02ai\0\0\0\x08\0\0\0\x01\0\0\0\x02\0\0\0",
        b"\0\0\0 \0\0\0\0\x01\0\0\0\0\0\0\0\0\0\0\x01x\0\x02ai\0\0\0\0\0\0\x08\0\0\0\x01\0\0\0\x02",
    );
    good(
        &rt,
        b"as",
        b"\x0f\0\0\0\x01\0\0\0a\0\0\0\x02\0\0\0bc\0",
        b"\0\0\0\x0f\0\0\0\x01a\0\0\0\0\0\0\x02bc\0",
    );
}

// The worked examples of the Specification's section "Marshalling containers".
#[test]
fn worked_examples(rt: HostRuntime) {
    ends(
        &rt,
        b"ax",
        b"\0\0\0\x08\0\0\0\0\0\0\0\0\0\0\0\x05",
        ByteOrder::Big,
    );
    ends(
        &rt,
        b"v",
        b"\x01t\0\0\0\0\0\0\0\0\0\0\0\0\0\x05",
        ByteOrder::Big,
    );
}

#[test]
fn ill_formed(rt: HostRuntime) {
    // a boolean of 2; padding that is not zero, before a number, a structure and the first element, though there is none
    bad(&rt, b"b", b"\x02\0\0\0", ByteOrder::Little);
    bad(&rt, b"(yu)", b"\x01\0\x01\0\x05\0\0\0", ByteOrder::Little);
    bad(
        &rt,
        b"a(y)",
        b"\x09\0\0\0\0\0\0\0\x01\0\0\0\0\0\x01\0\x02",
        ByteOrder::Little,
    );
    bad(&rt, b"at", b"\0\0\0\0\0\0\0\x01", ByteOrder::Little);
    // no zero after a text; one inside; not UTF-8; no path; no signature
    bad(&rt, b"s", b"\x01\0\0\0aa", ByteOrder::Little);
    bad(&rt, b"s", b"\x02\0\0\0a\0\0", ByteOrder::Little);
    bad(&rt, b"s", b"\x01\0\0\0\x80\0", ByteOrder::Little);
    bad(&rt, b"o", b"\x02\0\0\0a/\0", ByteOrder::Little);
    bad(&rt, b"g", b"\x01a\0", ByteOrder::Little);
    // a big-endian length read as a little-endian one
    bad(&rt, b"s", b"\0\0\0\x01a\0", ByteOrder::Little);
}

#[test]
fn ill_formed_containers(rt: HostRuntime) {
    // elements that end before or past the array's length, and padding after the last
    bad(
        &rt,
        b"au",
        b"\x06\0\0\0\x01\0\0\0\x02\0\0\0",
        ByteOrder::Little,
    );
    bad(&rt, b"as", b"\x05\0\0\0\x01\0\0\0a\0", ByteOrder::Little);
    bad(
        &rt,
        b"a(y)",
        b"\x08\0\0\0\0\0\0\0\x01\0\0\0\0\0\0\0",
        ByteOrder::Little,
    );
    // a length past the message, and one past 2^26
    bad(&rt, b"ay", b"\x02\0\0\0\x01", ByteOrder::Little);
    bad(&rt, b"ay", b"\x01\0\0\x04\x01", ByteOrder::Little);
    // a variant of two types, of none, and of an ill-formed value
    bad(&rt, b"v", b"\x02yy\0\x01\x01", ByteOrder::Little);
    bad(&rt, b"v", b"\0\0\x01", ByteOrder::Little);
    bad(&rt, b"v", b"\x01b\0\0\x02\0\0\0", ByteOrder::Little);
}

// A type that is not one single complete type has no value.
#[test]
fn no_type(rt: HostRuntime) {
    let order = ByteOrder::Little;
    assert_eq!(rt;
        skip(
            Reader {
                message: b"\x01\x01",
                order
            },
            b"yy",
            0,
            Levels::full()
        ),
        Err(Fault::Signature(0))
    );
    assert_eq!(rt;
        skip(
            Reader {
                message: b"\x01",
                order
            },
            b"",
            0,
            Levels::full()
        ),
        Err(Fault::Signature(0))
    );
    // A value begins anywhere, and what follows it is not looked at; past the message there is none.
    assert_eq!(rt;
        skip(
            Reader {
                message: b"ab\x05cd",
                order
            },
            b"y",
            2,
            Levels::full()
        ),
        Ok(3)
    );
    assert_eq!(rt;
        skip(
            Reader {
                message: b"\x01",
                order
            },
            b"y",
            9,
            Levels::full()
        ),
        Err(Fault::Value(9))
    );
}

// A variant in a variant: 65 of them at 0, 64 at 3.
#[test]
fn variants(rt: HostRuntime) {
    let message =
        b"\x01v\0\x01v\0\x01v\0\x01v\0\x01v\0\x01v\0\x01v\0\x01v\0\x01v\0\x01v\0\x01v\0\x01v\0\x01v\0\x01v\0\x01v\0\x01v\0\x01v\0\x01v\0\x01v\0\x01v\0\x01v\0\x01v\0\x01v\0\x01v\0\x01v\0\x01v\0\x01v\0\x01v\0\x01v\0\x01v\0\x01v\0\x01v\0\x01v\0\x01v\0\x01v\0\x01v\0\x01v\0\x01v\0\x01v\0\x01v\0\x01v\0\x01v\0\x01v\0\x01v\0\x01v\0\x01v\0\x01v\0\x01v\0\x01v\0\x01v\0\x01v\0\x01v\0\x01v\0\x01v\0\x01v\0\x01v\0\x01v\0\x01v\0\x01v\0\x01v\0\x01v\0\x01v\0\x01v\0\x01v\0\x01y\0\x09";
    let order = ByteOrder::Little;
    assert_eq!(rt;
        skip(Reader { message, order }, b"v", 0, Levels::full()),
        Err(Fault::Value(0))
    );
    assert_eq!(rt;
        skip(Reader { message, order }, b"v", 3, Levels::full()),
        Ok(196)
    );
}

// Two arrays and a variant in each other: 34 arrays at 0, 32 at 16.
#[test]
fn arrays_through_variants(rt: HostRuntime) {
    let message =
        b"\x08\x01\0\0\x04\x01\0\0\x03aav\0\0\0\0\xf8\0\0\0\xf4\0\0\0\x03aav\0\0\0\0\xe8\0\0\0\xe4\0\0\0\x03aav\0\0\0\0\xd8\0\0\0\xd4\0\0\0\x03aav\0\0\0\0\xc8\0\0\0\xc4\0\0\0\x03aav\0\0\0\0\xb8\0\0\0\xb4\0\0\0\x03aav\0\0\0\0\xa8\0\0\0\xa4\0\0\0\x03aav\0\0\0\0\x98\0\0\0\x94\0\0\0\x03aav\0\0\0\0\x88\0\0\0\x84\0\0\0\x03aav\0\0\0\0x\0\0\0t\0\0\0\x03aav\0\0\0\0h\0\0\0d\0\0\0\x03aav\0\0\0\0X\0\0\0T\0\0\0\x03aav\0\0\0\0H\0\0\0D\0\0\0\x03aav\0\0\0\08\0\0\04\0\0\0\x03aav\0\0\0\0(\0\0\0\x24\0\0\0\x03aav\0\0\0\0\x18\0\0\0\x14\0\0\0\x03aav\0\0\0\0\x08\0\0\0\x04\0\0\0\x01y\0\x09";
    let order = ByteOrder::Little;
    assert_eq!(rt;
        skip(Reader { message, order }, b"aav", 0, Levels::full()),
        Err(Fault::Value(0))
    );
    assert_eq!(rt;
        skip(Reader { message, order }, b"aav", 16, Levels::full()),
        Ok(268)
    );
}

// 32 arrays and in them 32 structures: 64 levels, and not one less.
#[test]
fn levels(rt: HostRuntime) {
    let message =
        b"}\0\0\0y\0\0\0u\0\0\0q\0\0\0m\0\0\0i\0\0\0e\0\0\0a\0\0\0\x5d\0\0\0Y\0\0\0U\0\0\0Q\0\0\0M\0\0\0I\0\0\0E\0\0\0A\0\0\0\x3d\0\0\09\0\0\05\0\0\01\0\0\0\x2d\0\0\0)\0\0\0\x25\0\0\0\x21\0\0\0\x1d\0\0\0\x19\0\0\0\x15\0\0\0\x11\0\0\0\x0d\0\0\0\x09\0\0\0\x05\0\0\0\x01\0\0\0\x07";
    let deep =
        b"aaaaaaaaaaaaaaaaaaaaaaaaaaaaaaaa((((((((((((((((((((((((((((((((y))))))))))))))))))))))))))))))))";
    let reader = Reader {
        message,
        order: ByteOrder::Little,
    };
    let full = Levels {
        arrays: 32,
        structures: 32,
        all: 64,
    };
    assert_eq!(rt; skip(reader, deep, 0, full), Ok(129));
    let refused = Err(Fault::Value(0));
    assert_eq!(rt;
        skip(reader, deep, 0, Levels { arrays: 31, ..full }),
        refused
    );
    assert_eq!(rt;
        skip(
            reader,
            deep,
            0,
            Levels {
                structures: 31,
                ..full
            }
        ),
        refused
    );
    assert_eq!(rt; skip(reader, deep, 0, Levels { all: 63, ..full }), refused);
}
