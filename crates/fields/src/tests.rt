//! Each field read once, and the texts that the programs print.
use crate::field::{FieldError, bytes, end, number, short, text};
use std::test::Fail;

#[test]
fn fields(rt: HostRuntime) -> Result<(), Fail> {
    let mut parts = "name=ab n=65535 in=00ff".split(' ');
    assert_eq!(rt; text(parts.next(), "name="), Ok(b"ab".as_slice()));
    assert_eq!(rt; number(parts.next(), "n=", 65_535), Ok(65_535));
    let found = bytes(rt.alloc(), parts.next(), "in=")?;
    assert_eq!(rt; found.as_slice(), [0, 255].as_slice());
    assert_eq!(rt; end(parts.next()), Ok(()));
    assert_eq!(rt; end(Some("more")), Err(FieldError::Trailing));
    Ok(())
}

#[test]
fn refusals(rt: HostRuntime) -> Result<(), Fail> {
    assert_eq!(rt; text(None, "name="), Err(FieldError::Missing));
    assert_eq!(rt; text(Some("nam"), "name="), Err(FieldError::Name));
    assert_eq!(rt;
        number(Some("n=65536"), "n=", 65_535),
        Err(FieldError::Number { most: 65_535 })
    );
    assert_eq!(rt; short(Some("n=65535"), "n="), Ok(65_535));
    assert_eq!(rt;
        short(Some("n=65536"), "n="),
        Err(FieldError::Number { most: 65_535 })
    );
    let odd = bytes(rt.alloc(), Some("in=0"), "in=").err();
    assert_eq!(rt; odd, Some(FieldError::Hexadecimal));
    Ok(())
}

#[test]
fn printed(rt: HostRuntime) -> Result<(), Fail> {
    for (e, want) in [
        (FieldError::Missing, "a field is missing"),
        (FieldError::Name, "a field has another name"),
        (
            FieldError::Number { most: 65_535 },
            "a number is not a decimal number from 0 to 65535",
        ),
        (
            FieldError::Hexadecimal,
            "bytes are not in lower-case hexadecimal",
        ),
        (FieldError::Trailing, "something follows the last field"),
    ] {
        let found = format!(in rt.alloc(); "{e}")?;
        assert_eq!(rt; found.as_str(), want);
    }
    Ok(())
}
