// Each reader of `uses` on good and on broken input. proofs/Readers.antt has more texts.

ghost use Rattle.std.specs.Prelude.{◌≡◌, ◌<◌, Some, length};
ghost use Rattle.uses.specs.Json.{settled_at};

use crate::tests::answers;
use lexical_parse_integer::Error;
use uses::config::{ValueError, value};
use uses::fixed_width::{RowError, values};
use uses::json::{NumberError, Part, integer_part};
use uses::ledger::{Entry, LedgerError, LineError, total};
use uses::price::Price;
use uses::source::{c, python};
use uses::toml::{integer, setting};

#[test]
fn values_and_literals(rt: HostRuntime) {
    let broken = Err(ValueError::Hexadecimal(Error::InvalidDigit(3)));
    answers(
        &rt,
        [value(b"64_000"), value(b"0x1G")],
        [Ok(64_000), broken],
    );
    let literals = [c(b"1'000"), c(b"08"), python(b"0o_177"), python(b"0777")];
    let octal = Err(Error::InvalidDigit(1));
    let zeros = Err(Error::InvalidLeadingZeros(0));
    answers(&rt, literals, [Ok(1000), octal, Ok(127), zeros]);
    let signed = Err(Error::InvalidDigit(2));
    answers(&rt, [integer(b"0xF"), integer(b"+0xF")], [Ok(15), signed]);
    let lines = [
        setting(b"retries", b"retries = 1_000"),
        setting(b"retries", b"retry = 1"),
    ];
    answers(&rt, lines, [Some(Ok(1000)), None]);
}

#[test]
fn fields_of_texts(rt: HostRuntime) {
    let (cents, rest) = (-5, b" EUR".as_slice());
    let prices = [Price::of(b"-0,05 EUR"), Price::of(b"12,505")];
    let many = Err(Error::InvalidDigit(5));
    answers(&rt, prices, [Ok(Price { cents, rest }), many]);
    let rows = [values(b"007-32", &[3, 3]), values(b"00732", &[3, 3])];
    let (expected, found) = (6, 5);
    let short = Err(RowError::Length { expected, found });
    answers(&rt, rows, [Ok([7, -32]), short]);
    let (name, cents) = (b"rent".as_slice(), -85000);
    let entries = [Entry::of(b"rent -85000"), Entry::of(b"rent")];
    let bare = LineError::NoAmount;
    answers(&rt, entries, [Ok(Entry { name, cents }), Err(bare)]);
    let totals = [total("rent\t-85000\n\nrefund +1999\r\n"), total("a 1\nb\n")];
    let (line, error) = (1, bare);
    answers(
        &rt,
        totals,
        [Ok(-83001), Err(LedgerError::Line { line, error })],
    );
}

// A reader of a stream that cuts its buffer behind the place of a final answer, and asks again.
fn before_and_after_cut(
    read: &[u8],
    place: usize,
) -> (Result<Part, NumberError>, Result<Part, NumberError>)
    requires { place < length read.now }
    ensures { settled_at result.0 ≡ Some place → result.1 ≡ result.0 }
{
    (integer_part(read), integer_part(&read[..place + 1]))
}

#[test]
fn a_cut_behind_the_place_changes_nothing(rt: HostRuntime) {
    let (value, end) = (-1204, 5);
    let whole = Ok(Part::Whole { value, end });
    answers(&rt, before_and_after_cut(b"-1204.50,", 5), (whole, whole));
    let others = [integer_part(b"-1204"), integer_part(b"null")];
    let none = Err(NumberError::NoDigit(0));
    answers(&rt, others, [Ok(Part::Unfinished), none]);
}
