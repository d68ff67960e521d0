// What the README at the top shows, and that of the crate, run.
use lexical_parse_integer::{Error, FromLexical, FromLexicalWithOptions, format, options};

#[test]
fn shown(rt: HostRuntime) {
    let whole = u64::from_lexical(b"1234"); // Ok(1234)
    let fault = u64::from_lexical(b"18446744073709551616"); // Err(Error::Overflow(19))
    let front = u64::from_lexical_partial(b"1234 }, {\"Key\""); // Ok((1234, 4))
    let json = i32::from_lexical_with_options(b"012", &format::JSON, &options::STANDARD);
    // Err(Error::InvalidLeadingZeros(0))

    assert_eq!(rt;
        (whole, fault, front, json),
        (
            Ok(1234),
            Err(Error::Overflow(19)),
            Ok((1234, 4)),
            Err(Error::InvalidLeadingZeros(0))
        )
    );
}

#[test]
fn crate_shown(rt: HostRuntime) {
    let whole = u64::from_lexical(b"1234"); // Ok(1234)
    let front = u64::from_lexical_partial(b"1234 }, {\"Key\""); // Ok((1234, 4))
    let fault = i8::from_lexical(b"-129"); // Err(Error::Underflow(3))

    assert_eq!(rt;
        (whole, front, fault),
        (Ok(1234), Ok((1234, 4)), Err(Error::Underflow(3)))
    );
}
