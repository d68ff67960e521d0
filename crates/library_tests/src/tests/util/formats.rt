// The fields of formats, and which formats are valid.
// Its lists of fields are written from tools/fields.txt, by `make docs`.

use crate::tests::answers;
use lexical_util::error::Error;
use lexical_util::format::{JSON, NumberFormat, NumberFormatBuilder, STANDARD};
use std::process::Abort;

// How many flags a format has.
const FLAGS: usize = 14;

// The flags of a format, in the order of the setters below.
fn flags_of(format: &NumberFormat) -> [bool; FLAGS] {
    [
        format.case_sensitive_base_prefix(),
        format.case_sensitive_base_suffix(),
        format.required_integer_digits(),
        format.required_mantissa_digits(),
        format.no_positive_mantissa_sign(),
        format.required_mantissa_sign(),
        format.no_integer_leading_zeros(),
        format.integer_leading_digit_separator(),
        format.integer_internal_digit_separator(),
        format.integer_trailing_digit_separator(),
        format.integer_consecutive_digit_separator(),
        format.integer_prefix_digit_separator(),
        format.literal_prefixes(),
        format.literal_octal_zero(),
    ]
}

// Of the flags, only the one with this number is set.
fn has_one_flag(rt: &impl Abort, builder: NumberFormatBuilder, number: usize) {
    let mut want = [false; FLAGS];
    if let Some(flag) = want.get_mut(number) {
        *flag = true;
    }
    let format = builder.build_unchecked();
    answers(
        rt,
        (flags_of(&format), format.required_digits()),
        (want, number == 2 || number == 3),
    );
}

#[test]
fn each_flag_alone(rt: HostRuntime) {
    let bare = NumberFormatBuilder::new().required_digits(false);
    answers(&rt, flags_of(&bare.build_strict()), [false; FLAGS]);
    answers(&rt, bare.build_strict().required_digits(), false);
    let each = [
        bare.case_sensitive_base_prefix(true),
        bare.case_sensitive_base_suffix(true),
        bare.required_integer_digits(true),
        bare.required_mantissa_digits(true),
        bare.no_positive_mantissa_sign(true),
        bare.required_mantissa_sign(true),
        bare.no_integer_leading_zeros(true),
        bare.integer_leading_digit_separator(true),
        bare.integer_internal_digit_separator(true),
        bare.integer_trailing_digit_separator(true),
        bare.integer_consecutive_digit_separator(true),
        bare.integer_prefix_digit_separator(true),
        bare.literal_prefixes(true),
        bare.literal_octal_zero(true),
    ];
    for (number, builder) in each.into_iter().enumerate() {
        has_one_flag(&rt, builder, number);
    }
}

#[test]
fn other_setters(rt: HostRuntime) {
    let format = NumberFormatBuilder::new()
        .mantissa_radix(16)
        .digit_separator(Some(b'_'))
        .base_prefix(Some(b'x'))
        .base_suffix(Some(b'h'))
        .build_strict();
    answers(&rt, format.mantissa_radix(), 16);
    answers(&rt, format.radix(), 16);
    answers(&rt, format.digit_separator(), Some(b'_'));
    answers(&rt, format.base_prefix(), Some(b'x'));
    answers(&rt, format.has_base_prefix(), true);
    answers(&rt, format.base_suffix(), Some(b'h'));

    let builder = NumberFormatBuilder::new();
    answers(
        &rt,
        builder.leading_digit_separator(true),
        builder.integer_leading_digit_separator(true),
    );
    answers(
        &rt,
        builder.internal_digit_separator(true),
        builder.integer_internal_digit_separator(true),
    );
    answers(
        &rt,
        builder.trailing_digit_separator(true),
        builder.integer_trailing_digit_separator(true),
    );
    answers(
        &rt,
        builder.consecutive_digit_separator(true),
        builder.integer_consecutive_digit_separator(true),
    );
    answers(
        &rt,
        builder.required_digits(true),
        builder.required_integer_digits(true),
    );
}

// The format has this radix, asks for a digit, and has nothing else set.
fn is_plain(rt: &impl Abort, format: NumberFormat, radix: u32) {
    let mut want = [false; FLAGS];
    want[3] = true;
    answers(rt, (format.radix(), flags_of(&format)), (radix, want));
    let punctuation = (
        format.digit_separator(),
        format.base_prefix(),
        format.has_base_prefix(),
        format.base_suffix(),
    );
    answers(rt, punctuation, (None, None, false, None));
}

#[test]
fn ready_made_formats(rt: HostRuntime) {
    is_plain(&rt, STANDARD, 10);
    is_plain(&rt, NumberFormatBuilder::new().build_strict(), 10);
    is_plain(&rt, NumberFormatBuilder::from_radix(36), 36);
    is_plain(&rt, NumberFormatBuilder::binary(), 2);
    let json = NumberFormatBuilder::new()
        .required_integer_digits(true)
        .no_positive_mantissa_sign(true)
        .no_integer_leading_zeros(true);
    answers(&rt, JSON, json.build_strict());
}

// The first rule that the builder's format breaks.
fn breaks(rt: &impl Abort, builder: NumberFormatBuilder, want: Option<Error>) {
    let format = builder.build_unchecked();
    let valid = want.is_none();
    answers(
        rt,
        (
            builder,
            format.error(),
            format.is_valid(),
            builder.is_valid(),
        ),
        (builder, want, valid, valid),
    );
}

// A format for each rule: tools/rows.txt has more.
#[test]
fn the_first_broken_rule_is_told(rt: HostRuntime) {
    let new = NumberFormatBuilder::new();
    let radix = Some(Error::InvalidMantissaRadix);
    breaks(&rt, new, None);
    breaks(&rt, new.mantissa_radix(37).base_prefix(Some(b'+')), radix);
    let separator = Some(Error::InvalidDigitSeparator);
    breaks(&rt, new.digit_separator(Some(b'+')), separator);
    let prefix = Some(Error::InvalidBasePrefix);
    breaks(&rt, new.base_prefix(Some(b'0')), prefix);
    let suffix = Some(Error::InvalidBaseSuffix);
    breaks(&rt, new.base_suffix(Some(b'9')), suffix);
    let punctuation = Some(Error::InvalidPunctuation);
    let alike = new.base_prefix(Some(b'x')).base_suffix(Some(b'X'));
    breaks(&rt, alike, punctuation);
    let literals = Some(Error::InvalidLiteralPrefixes);
    let prefixed = new.literal_prefixes(true).base_prefix(Some(b'd'));
    breaks(&rt, prefixed, literals);
}
