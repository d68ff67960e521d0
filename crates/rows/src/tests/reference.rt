// A reference implementation of the grammar (docs/GRAMMAR.md), for tests alone. It is written from the definitions in
// specs/, one by one, and shares nothing with the parsers but the fields of formats: it looks at a whole text at once,
// judges each separator by all of its run, takes the greatest end, and adds the digits up by their positions.
use lexical_parse_integer::{Error, NumberFormat, Result};

// The longest text that is read.
pub(super) const LONGEST: usize = 48;

// A whole number: whether it is below 0, and its magnitude.
pub(super) type Number = (bool, u128);

// What precedes the digits of a text, and the effective radix behind it.
#[derive(Drop)]
struct Head {
    is_negative: bool,
    is_prefixed: bool,
    is_octal: bool,
    start: usize,
    radix: u32,
}

// The bytes from `start` on, which are the region of the numeral.
#[derive(Drop)]
struct Region<'a> {
    text: &'a [u8],
    format: NumberFormat,
    is_prefixed: bool,
    start: usize,
    radix: u32,
}

// The digits of a numeral with their places, and where the numeral ends.
#[derive(Drop)]
struct Numeral {
    digits: [u32; LONGEST],
    places: [usize; LONGEST],
    count: usize,
    end: usize,
}

// What both parsers find, if none of the faults that both have comes first.
#[derive(Drop)]
pub(super) struct Reading {
    number: Number,
    has_digit: bool,
    stop: usize,
}

// The value of a byte as a digit of the radix.
pub(super) fn digit_of(byte: u8, radix: u32) -> Option<u32> {
    let value = match byte {
        b'0'..=b'9' => byte - b'0',
        b'a'..=b'z' => byte - b'a' + 10,
        b'A'..=b'Z' => byte - b'A' + 10,
        _ => return None,
    };
    let value = u32::from(value);
    if value < radix { Some(value) } else { None }
}

// Whether a byte of the text is this punctuation of the format.
fn is_punctuation(byte: u8, punctuation: u8, in_its_case: bool) -> bool {
    byte == punctuation || (!in_its_case && byte.eq_ignore_ascii_case(&punctuation))
}

// Whether there is a minus, and how many bytes the sign has.
fn sign(text: &[u8], format: &NumberFormat, is_signed: bool) -> Result<(bool, usize)> {
    match text.first().copied() {
        Some(b'+') if format.no_positive_mantissa_sign() => Err(Error::InvalidPositiveSign(0)),
        Some(b'+') => Ok((false, 1)),
        Some(b'-') if is_signed => Ok((true, 1)),
        _ if format.required_mantissa_sign() => Err(Error::MissingSign(0)),
        _ => Ok((false, 0)),
    }
}

// The radix behind the prefix at this place, and `None` where there is no prefix.
fn prefixed(text: &[u8], format: &NumberFormat, place: usize) -> Option<u32> {
    let zero = text.get(place).copied()?;
    let letter = text.get(place.saturating_add(1)).copied()?;
    if zero != b'0' {
        return None;
    }
    let in_its_case = format.case_sensitive_base_prefix();
    if let Some(punctuation) = format.base_prefix() {
        if is_punctuation(letter, punctuation, in_its_case) {
            return Some(format.radix());
        }
    }
    for (punctuation, radix) in [(b'x', 16), (b'o', 8), (b'b', 2)] {
        if format.literal_prefixes() && is_punctuation(letter, punctuation, in_its_case) {
            return Some(radix);
        }
    }
    None
}

// Whether the zero at this place makes the numeral octal.
fn is_octal_zero(text: &[u8], format: &NumberFormat, place: usize) -> bool {
    format.literal_octal_zero() && text.get(place).copied() == Some(b'0')
}

fn head_of(text: &[u8], format: &NumberFormat, is_signed: bool) -> Result<Head> {
    let (is_negative, place) = sign(text, format, is_signed)?;
    let is_octal = is_octal_zero(text, format, place);
    let head = match prefixed(text, format, place) {
        Some(radix) => Head {
            is_negative,
            is_prefixed: true,
            is_octal: false,
            start: place.saturating_add(2),
            radix,
        },
        None => Head {
            is_negative,
            is_prefixed: false,
            is_octal,
            start: place,
            radix: if is_octal { 8 } else { format.radix() },
        },
    };
    Ok(head)
}

impl Region<'_> {
    // The digit at a place of the region.
    fn digit_at(&self, place: usize) -> Option<u32> {
        if place < self.start {
            return None;
        }
        digit_of(self.text.get(place).copied()?, self.radix)
    }

    fn is_separator(&self, place: usize) -> bool {
        match (self.text.get(place).copied(), self.format.digit_separator()) {
            (Some(byte), Some(separator)) => byte == separator,
            _ => false,
        }
    }

    // Whether every place of a stretch, from its first to its last, holds a separator.
    fn are_separators(&self, first: usize, last: usize) -> bool {
        (first..=last).all(|place| self.is_separator(place))
    }

    // The longest stretch of separators that holds this place: its first place and its last.
    fn run(&self, place: usize) -> (usize, usize) {
        let first = (self.start..=place).find(|first| self.are_separators(*first, place));
        let last = (place..self.text.len())
            .rev()
            .find(|last| self.are_separators(place, *last));
        (first.unwrap_or(place), last.unwrap_or(place))
    }

    // Whether the run of the separator at this place passes.
    fn passes(&self, place: usize) -> bool {
        let format = &self.format;
        let (first, last) = self.run(place);
        let is_before = first > 0 && self.digit_at(first - 1).is_some();
        let is_behind = self.digit_at(last.saturating_add(1)).is_some();
        let is_leading = format.integer_leading_digit_separator()
            || (self.is_prefixed && format.integer_prefix_digit_separator());
        let is_placed = match (is_before, is_behind) {
            (true, true) => format.integer_internal_digit_separator(),
            (false, true) => is_leading,
            (true, false) => format.integer_trailing_digit_separator(),
            (false, false) => is_leading || format.integer_trailing_digit_separator(),
        };
        is_placed && (first == last || format.integer_consecutive_digit_separator())
    }

    // Whether this place holds a digit, or a separator that passes.
    fn belongs(&self, place: usize) -> bool {
        self.digit_at(place).is_some() || (self.is_separator(place) && self.passes(place))
    }

    // The greatest end before which each place belongs to the numeral.
    fn end(&self) -> usize {
        (self.start..=self.text.len())
            .rev()
            .find(|end| (self.start..*end).all(|place| self.belongs(place)))
            .unwrap_or(self.start)
    }

    fn numeral(&self) -> Numeral {
        let end = self.end();
        let mut numeral = Numeral {
            digits: [0; LONGEST],
            places: [0; LONGEST],
            count: 0,
            end,
        };
        for place in self.start..end {
            if let Some(digit) = self.digit_at(place) {
                numeral.push(digit, place);
            }
        }
        numeral
    }

    // Where reading stops: behind a suffix, if a digit stands before it.
    fn stop(&self, numeral: &Numeral) -> usize {
        let in_its_case = self.format.case_sensitive_base_suffix();
        let end = numeral.end;
        match (self.text.get(end).copied(), self.format.base_suffix()) {
            (Some(byte), Some(suffix)) if numeral.count > 0 => {
                end.saturating_add(usize::from(is_punctuation(byte, suffix, in_its_case)))
            }
            _ => end,
        }
    }
}

impl Numeral {
    fn push(&mut self, digit: u32, place: usize) {
        if self.count < LONGEST {
            self.digits[self.count] = digit;
            self.places[self.count] = place;
            self.count += 1;
        }
    }

    // The number of the first digits: each digit times the radix to the power of the number of digits behind it.
    // `None` is a number beyond 128 bits.
    fn front(&self, count: usize, radix: u32) -> Option<u128> {
        let mut sum = 0_u128;
        for (digit, behind) in self.digits.iter().zip((0..count).rev()) {
            if *digit > 0 {
                let weight = power(radix, behind)?;
                sum = sum.checked_add(weight.checked_mul(u128::from(*digit))?)?;
            }
        }
        Some(sum)
    }

    // The place of the first digit with which the number exceeds the greatest one.
    fn beyond(&self, radix: u32, greatest: u128) -> Option<usize> {
        let count = (1..=self.count).find(|count| match self.front(*count, radix) {
            Some(sum) => sum > greatest,
            None => true,
        });
        self.places.get(count?.saturating_sub(1)).copied()
    }
}

// The radix to the power of `times`. `None` is a number beyond 128 bits.
fn power(radix: u32, times: usize) -> Option<u128> {
    let mut product = 1_u128;
    for _ in 0..times {
        product = product.checked_mul(u128::from(radix))?;
    }
    Some(product)
}

// The magnitude of the number of a type that is the furthest from 0, above it or below it.
fn greatest(width: u32, is_signed: bool, is_negative: bool) -> u128 {
    let bits = width.saturating_sub(u32::from(is_signed));
    let all = u128::MAX
        .checked_shr(128_u32.saturating_sub(bits))
        .unwrap_or(0);
    all.saturating_add(u128::from(is_negative))
}

// What both parsers find, or the first of the faults that both have.
pub(super) fn read(
    text: &[u8],
    format: &NumberFormat,
    width: u32,
    is_signed: bool,
) -> Result<Reading> {
    let head = head_of(text, format, is_signed)?;
    if head.is_prefixed && head.start == text.len() {
        return Err(Error::Empty(text.len()));
    }
    let region = Region {
        text,
        format: *format,
        is_prefixed: head.is_prefixed,
        start: head.start,
        radix: head.radix,
    };
    let numeral = region.numeral();
    if format.no_integer_leading_zeros() && !head.is_prefixed && !head.is_octal {
        if numeral.count >= 2 && numeral.digits[0] == 0 {
            return Err(Error::InvalidLeadingZeros(numeral.places[0]));
        }
    }
    let greatest = greatest(width, is_signed, head.is_negative);
    if let Some(place) = numeral.beyond(head.radix, greatest) {
        let fault = if head.is_negative {
            Error::Underflow(place)
        } else {
            Error::Overflow(place)
        };
        return Err(fault);
    }
    let magnitude = numeral.front(numeral.count, head.radix).unwrap_or(0);
    Ok(Reading {
        // There is no number -0.
        number: (head.is_negative && magnitude > 0, magnitude),
        has_digit: numeral.count > 0,
        stop: region.stop(&numeral),
    })
}

// Whether a digit is asked for, and there is none.
fn lacks_digit(reading: &Reading, format: &NumberFormat) -> bool {
    let is_asked = format.required_integer_digits() || format.required_mantissa_digits();
    is_asked && !reading.has_digit
}

// What the complete parser answers.
pub(super) fn complete(
    text: &[u8],
    format: &NumberFormat,
    reading: &Result<Reading>,
) -> Result<Number> {
    match reading {
        Err(fault) => Err(*fault),
        Ok(reading) if reading.stop < text.len() => Err(Error::InvalidDigit(reading.stop)),
        Ok(reading) if lacks_digit(reading, format) => Err(Error::Empty(text.len())),
        Ok(reading) => Ok(reading.number),
    }
}

// What the partial parser answers.
pub(super) fn partial(
    text: &[u8],
    format: &NumberFormat,
    reading: &Result<Reading>,
) -> Result<(Number, usize)> {
    match reading {
        Err(fault) => Err(*fault),
        Ok(reading) => {
            let is_refused = format.digit_separator().is_some() || reading.stop == text.len();
            if lacks_digit(reading, format) && is_refused {
                return Err(Error::Empty(reading.stop));
            }
            Ok((reading.number, reading.stop))
        }
    }
}
