// Signatures.
use signature::{first_end, is_signature, is_single};
use std::process::Abort;

fn good(rt: &impl Abort, bytes: &[u8]) {
    assert!(rt; is_signature(bytes));
}

fn bad(rt: &impl Abort, bytes: &[u8]) {
    assert!(rt; !is_signature(bytes) && !is_single(bytes));
}

#[test]
fn lists_of_complete_types(rt: HostRuntime) {
    good(&rt, b"");
    good(&rt, b"ybnqiuxtdhsogv");
    good(&rt, b"(i(ii))");
    good(&rt, b"aai");
    good(&rt, b"a(ii)");
    good(&rt, b"a{sv}");
    good(&rt, b"aa{ya{o(gav)}}ii");
}

#[test]
fn no_complete_types(rt: HostRuntime) {
    bad(&rt, b"aa");
    bad(&rt, b"(ii");
    bad(&rt, b"ii)");
    bad(&rt, b"()");
    bad(&rt, b"{sv}");
    bad(&rt, b"({sv})");
    bad(&rt, b"a{vs}");
    bad(&rt, b"a{s}");
    bad(&rt, b"a{sss}");
    bad(&rt, b"a{(i)s}");
    bad(&rt, b"a{sv)");
    bad(&rt, b"(i}");
}

#[test]
fn reserved_codes(rt: HostRuntime) {
    bad(&rt, b"r");
    bad(&rt, b"e");
    bad(&rt, b"m");
    bad(&rt, b"*");
    bad(&rt, b"?");
    bad(&rt, b"\0");
}

#[test]
fn one_complete_type(rt: HostRuntime) {
    assert!(rt; is_single(b"a{sv}"));
    assert!(rt; !is_single(b""));
    assert!(rt; !is_single(b"ii"));
    assert!(rt; !is_single(b"(ii)(ii)"));
    assert_eq!(rt; first_end(b"aiai"), Some(2));
    assert_eq!(rt; first_end(b"(ii)(ii)"), Some(4));
    assert_eq!(rt; first_end(b"a{sv}i"), Some(5));
    assert_eq!(rt; first_end(b"(ii"), None);
}

#[test]
fn depth(rt: HostRuntime) {
    good(&rt, b"aaaaaaaaaaaaaaaaaaaaaaaaaaaaaaaay");
    bad(&rt, b"aaaaaaaaaaaaaaaaaaaaaaaaaaaaaaaaay");
    good(
        &rt,
        b"((((((((((((((((((((((((((((((((y))))))))))))))))))))))))))))))))",
    );
    bad(
        &rt,
        b"(((((((((((((((((((((((((((((((((y)))))))))))))))))))))))))))))))))",
    );
    good(
        &rt,
        b"aaaaaaaaaaaaaaaaaaaaaaaaaaaaaaaa((((((((((((((((((((((((((((((((y))))))))))))))))))))))))))))))))",
    );
    // A dictionary entry counts as a structure.
    good(
        &rt,
        b"(((((((((((((((((((((((((((((((a{yv})))))))))))))))))))))))))))))))",
    );
    bad(
        &rt,
        b"((((((((((((((((((((((((((((((((a{yv}))))))))))))))))))))))))))))))))",
    );
}

#[test]
fn length(rt: HostRuntime) {
    let letters = [b'y'; 256];
    good(&rt, &letters[0..255]);
    bad(&rt, &letters);
}
