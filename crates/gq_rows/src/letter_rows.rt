// Bytes of texts and names, at the ends of their ranges.
use gq_model::letters::{is_digit, is_name, is_name_byte, is_said, is_said_byte};
use gq_model::program::{Name, Text};
use std::test::Fail;

#[test]
fn knows_bytes(rt: HostRuntime) {
    for (byte, digit, in_name, said) in [
        (b'0', true, true, true),
        (b'9', true, true, true),
        (b'/', false, false, true),
        (b':', false, false, true),
        (b'A', false, true, true),
        (b'z', false, true, true),
        (b'-', false, true, true),
        (b'_', false, true, true),
        (b' ', false, false, true),
        (b'~', false, false, true),
        (b'"', false, false, false),
        (0x1f, false, false, false),
        (0x7f, false, false, false),
    ] {
        assert_eq!(rt;
            (is_digit(byte), is_name_byte(byte), is_said_byte(byte)),
            (digit, in_name, said),
            "at {byte}"
        );
    }
}

#[test]
fn knows_names(rt: HostRuntime) {
    for (bytes, name) in [
        (b"a".as_slice(), true),
        (b"16-bytes_in-name".as_slice(), true),
        (b"17-bytes_in-names".as_slice(), false),
        (b"".as_slice(), false),
        (b"a b".as_slice(), false),
    ] {
        assert_eq!(rt; (is_name(bytes), Name::new(bytes).is_some()), (name, name));
    }
}

#[test]
fn knows_texts(rt: HostRuntime) -> Result<(), Fail> {
    for (bytes, said) in [
        (b"".as_slice(), true),
        (b"hello, world".as_slice(), true),
        (b"a \"word\"".as_slice(), false),
        ([b'x'; 64].as_slice(), true),
        ([b'x'; 65].as_slice(), false),
    ] {
        let text = Text::new(rt.alloc(), bytes)?;
        assert_eq!(rt; (is_said(bytes), text.is_some()), (said, said));
    }
    Ok(())
}

#[test]
fn keeps_bytes(rt: HostRuntime) -> Result<(), Fail> {
    let echo = Name::new(b"echo").ok_or("a name")?;
    let hello = Text::new(rt.alloc(), b"hello")?.ok_or("a text")?;
    assert!(rt; echo.as_bytes() == b"echo".as_slice() && hello.as_bytes() == b"hello".as_slice());
    Ok(())
}
