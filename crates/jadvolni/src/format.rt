//! Formats as C writes them, and what is wrong with one.
//!
//! Its lists of fields are written from tools/fields.txt, by `make docs`.

ghost use Rattle.std.specs.Prelude.{◌≡◌, ◌↔◌, ◌&&◌, ◌==◌, IsTrue, None, Some, false, true};
ghost use Rattle.lexical_util.specs.Format.{standard};
ghost use Rattle.lexical_util.specs.Kind.{is_punctuated, kind_of};
ghost use Rattle.lexical_util.specs.Validity.{are_alike, fault, is_unfit_beside_literals, is_unfit_byte};
ghost use Rattle.lexical_util.specs.declared.format.kind.FormatKind.TheVariants.{Decimal, Other};
ghost use Rattle.jadvolni.specs.Effect.{format_status};
ghost use Rattle.jadvolni.specs.FormatFields.{are_known, flag, format_of, has_bit, punctuation};

use crate::format_words::{
    asks_for_digits, asks_for_no_literals, asks_for_no_signs, asks_for_nothing_first,
    asks_for_ten_alone, asks_for_x,
};
use crate::outcome::{UNKNOWN_FIELD, status_of};
use lexical_parse_integer::{NumberFormat, NumberFormatBuilder};
use lexical_util::format::FormatKind;

/// A format, byte by byte: `jadvolni_format` in C, where each field is described.
///
/// The names are those of `NumberFormatBuilder`. A flag is set by every byte but 0. A separator,
/// prefix or suffix of 0 is none, or the byte 0 itself where its bit of `nul_is_punctuation` is set:
/// 1, 2 and 4 in that order. Any bytes may be here: the calls refuse what breaks a rule.
#[repr(C)]
#[derive(Copy, Clone)]
pub struct FormatFields {
    pub mantissa_radix: u8,
    pub digit_separator: u8,
    pub base_prefix: u8,
    pub base_suffix: u8,
    pub case_sensitive_base_prefix: u8,
    pub case_sensitive_base_suffix: u8,
    pub required_integer_digits: u8,
    pub required_mantissa_digits: u8,
    pub no_positive_mantissa_sign: u8,
    pub required_mantissa_sign: u8,
    pub no_integer_leading_zeros: u8,
    pub integer_leading_digit_separator: u8,
    pub integer_internal_digit_separator: u8,
    pub integer_trailing_digit_separator: u8,
    pub integer_consecutive_digit_separator: u8,
    pub integer_prefix_digit_separator: u8,
    pub literal_prefixes: u8,
    pub literal_octal_zero: u8,
    pub nul_is_punctuation: u8,
    pub reserved: [u8; 13],
}

// A flag, which every byte but 0 sets.
#[inline(always)]
fn flag(byte: u8) -> bool
    ensures { result ≡ flag byte }
{
    byte != 0
}

// Whether the bit of this value is set.
#[inline(always)]
fn has_bit(byte: u8, bit: u8) -> bool
    ensures { result ≡ has_bit bit byte }
{
    byte & bit != 0
}

// A byte of punctuation, or none.
#[inline(always)]
fn punctuation(byte: u8, is_nul: bool) -> Option<u8>
    ensures { result ≡ punctuation byte is_nul }
{
    if byte == 0 && !is_nul {
        None
    } else {
        Some(byte)
    }
}

// Whether a byte is a suffix that languages have: none of these is a digit of radix 16, or a letter of a literal prefix.
#[inline(always)]
fn is_common_suffix(byte: u8) -> bool
    ensures set { IsTrue result → (byte == 0) ≡ false }
    ensures decimal { IsTrue result → is_unfit_byte 10 byte ≡ false }
    ensures hexadecimal { IsTrue result → is_unfit_byte 16 byte ≡ false }
    ensures literals { IsTrue result → is_unfit_beside_literals (Some byte) ≡ false }
    ensures separator { IsTrue result → are_alike (Some 95) (Some byte) ≡ false }
{
    match byte {
        b'h' | b'H' | b'l' | b'L' | b'n' => true,
        _ => false,
    }
}

impl FormatFields {
    /// Whether the bits and bytes that are kept for later versions are 0.
    #[inline(always)]
    pub fn are_known(&self) -> bool
        ensures { result ≡ are_known self.now }
    {
        let [a, b, c, d, e, f, g, h, i, j, k, l, m] = self.reserved;
        let low = u16::from_le_bytes([self.nul_is_punctuation, a]);
        let middle = u32::from_le_bytes([b, c, d, e]);
        let high = u64::from_le_bytes([f, g, h, i, j, k, l, m]);
        (low < 8) & (middle == 0) & (high == 0)
    }

    /// Whether the format is known, decimal, and without punctuation: then its kind is `Decimal`.
    #[inline(always)]
    pub(crate) fn is_plain_decimal(&self) -> bool
        ensures known { IsTrue result → IsTrue (are_known self.now) }
        ensures kind { IsTrue result → kind_of (format_of self.now) ≡ Decimal }
    {
        let first = u32::from_le_bytes([
            self.mantissa_radix,
            self.digit_separator,
            self.base_prefix,
            self.base_suffix,
        ]);
        first == 10 && asks_for_no_literals(self) && self.required_mantissa_sign == 0
    }

    /// Whether the format is known and without punctuation, and its radix is 0: with radix 10 its kind is `Decimal`.
    #[inline(always)]
    pub(crate) fn is_plain_but_radix(&self) -> bool
        ensures radix { IsTrue result → self.now.mantissa_radix ≡ 0 }
        ensures known { IsTrue result → IsTrue (are_known self.now) }
        ensures kind { IsTrue result → kind_of (record (format_of self.now) {
          mantissa_radix = 10;
          required_mantissa_digits = true;
        }) ≡ Decimal }
    {
        let first = u32::from_le_bytes([
            self.mantissa_radix,
            self.digit_separator,
            self.base_prefix,
            self.base_suffix,
        ]);
        first == 0 && asks_for_no_literals(self) && self.required_mantissa_sign == 0
    }

    /// Whether neither a separator, a prefix nor a suffix is asked for, nor the prefixes of literals.
    #[inline(always)]
    pub(crate) fn has_radix_alone(&self) -> bool {
        let first = u32::from_le_bytes([
            self.mantissa_radix,
            self.digit_separator,
            self.base_prefix,
            self.base_suffix,
        ]);
        first <= 0xFF && self.literal_prefixes == 0
    }

    /// Whether all fields but the radix are those of the standard format.
    ///
    /// The fields are tested in their order, as two words of eight bytes and one of sixteen.
    #[inline(always)]
    #[tactic(auto, using(crate::proofs::ZeroBytes::no_bits))]
    pub fn is_standard_but_radix(&self) -> bool
        ensures { IsTrue result ↔ (IsTrue (are_known self.now)
            × (format_of self.now ≡ record standard { mantissa_radix = self.now.mantissa_radix })) }
    {
        asks_for_digits(self) && asks_for_no_signs(self) && asks_for_no_literals(self)
    }

    /// Whether the fields are those of the standard format, as C writes it: its one flag is 1.
    #[inline(always)]
    #[tactic(auto, using(crate::proofs::ZeroBytes::no_bits))]
    pub(crate) fn is_standard(&self) -> bool
        ensures format { IsTrue result → format_of self.now ≡ standard }
        ensures known { IsTrue result → IsTrue (are_known self.now) }
    {
        asks_for_ten_alone(*self) && asks_for_no_signs(self) && asks_for_no_literals(self)
    }

    /// Whether all fields are 0.
    #[inline(always)]
    #[tactic(auto, using(crate::proofs::ZeroBytes::no_bits))]
    pub(crate) fn is_zero(&self) -> bool
        ensures radix { IsTrue result → self.now.mantissa_radix ≡ 0 }
        ensures format { IsTrue result → format_of self.now
            ≡ record standard { mantissa_radix = 0; required_mantissa_digits = false } }
        ensures known { IsTrue result → IsTrue (are_known self.now) }
    {
        asks_for_nothing_first(self) && asks_for_no_signs(self) && asks_for_no_literals(self)
    }

    // A builder with these fields.
    #[inline(always)]
    fn builder(&self) -> NumberFormatBuilder
        ensures { result ≡ format_of self.now }
    {
        let nul = self.nul_is_punctuation;
        // The format's first nine bytes are set last to first: first to last, the compiler joins them by 25 shifts.
        NumberFormatBuilder::new()
            .integer_internal_digit_separator(flag(self.integer_internal_digit_separator))
            .integer_trailing_digit_separator(flag(self.integer_trailing_digit_separator))
            .integer_consecutive_digit_separator(flag(self.integer_consecutive_digit_separator))
            .integer_prefix_digit_separator(flag(self.integer_prefix_digit_separator))
            .literal_prefixes(flag(self.literal_prefixes))
            .literal_octal_zero(flag(self.literal_octal_zero))
            .integer_leading_digit_separator(flag(self.integer_leading_digit_separator))
            .no_integer_leading_zeros(flag(self.no_integer_leading_zeros))
            .required_mantissa_sign(flag(self.required_mantissa_sign))
            .no_positive_mantissa_sign(flag(self.no_positive_mantissa_sign))
            .required_mantissa_digits(flag(self.required_mantissa_digits))
            .required_integer_digits(flag(self.required_integer_digits))
            .case_sensitive_base_suffix(flag(self.case_sensitive_base_suffix))
            .case_sensitive_base_prefix(flag(self.case_sensitive_base_prefix))
            .mantissa_radix(self.mantissa_radix)
            .digit_separator(punctuation(self.digit_separator, has_bit(nul, 1)))
            .base_prefix(punctuation(self.base_prefix, has_bit(nul, 2)))
            .base_suffix(punctuation(self.base_suffix, has_bit(nul, 4)))
    }

    /// Whether the format is surely a valid one with punctuation, as those of most languages are: decimal with the separator
    /// `_`, a comma, a point, an apostrophe or a blank, or with literals or a required sign alone; or hexadecimal with `0x`.
    /// The first four bytes are tested as a word.
    #[inline(always)]
    #[tactic(auto, using(lexical_util::proofs::FormatKinds::other_kind))]
    pub(crate) fn is_surely_other(&self) -> bool
        ensures { IsTrue result → kind_of (format_of self.now) ≡ Other }
    {
        if self.nul_is_punctuation != 0 {
            return false;
        }
        let first = u32::from_le_bytes([
            self.mantissa_radix,
            self.digit_separator,
            self.base_prefix,
            self.base_suffix,
        ]);
        if first == 0x5F0A
            || first == 0x2C0A
            || first == 0x2E0A
            || first == 0x270A
            || first == 0x200A
        {
            return true;
        }
        if first == 10 {
            return self.literal_prefixes != 0
                || self.literal_octal_zero != 0
                || self.required_mantissa_sign != 0;
        }
        asks_for_x(*self) && self.literal_prefixes == 0 && self.literal_octal_zero == 0
    }

    // Whether the format is surely a valid one with a suffix, as those of C, Java, JavaScript and assembly are: decimal, with
    // or without the separator `_`, or hexadecimal.
    #[inline(always)]
    #[tactic(auto, using(lexical_util::proofs::FormatKinds::other_kind))]
    fn is_surely_suffixed(&self) -> bool
        ensures { IsTrue result → kind_of (format_of self.now) ≡ Other }
    {
        if !is_common_suffix(self.base_suffix) {
            return false;
        }
        let head = u32::from_le_bytes([
            self.mantissa_radix,
            self.digit_separator,
            self.base_prefix,
            self.nul_is_punctuation,
        ]);
        if head == 10 || head == 0x5F0A {
            return true;
        }
        head == 16 && self.literal_prefixes == 0 && self.literal_octal_zero == 0
    }

    // The kind by the rules, which need a stack: so it is out of line.
    #[inline(never)]
    fn kind_by_rules(&self) -> FormatKind
        ensures { result ≡ kind_of (format_of self.now) }
    {
        self.builder().build_unchecked().kind()
    }

    // The kind of a format that is rare. This and the next are out of line, so that a format is made with all registers free.
    #[inline(never)]
    fn rare_kind(&self) -> FormatKind
        ensures { result ≡ kind_of (format_of self.now) }
    {
        if self.is_surely_suffixed() {
            return FormatKind::Other;
        }
        self.kind_by_rules()
    }

    // The kind of the format.
    #[inline(never)]
    fn kind(&self) -> FormatKind
        ensures { result ≡ kind_of (format_of self.now) }
    {
        if self.is_surely_other() {
            return FormatKind::Other;
        }
        if self.is_plain_decimal() {
            return FormatKind::Decimal;
        }
        self.rare_kind()
    }

    /// The format that the fields stand for, which may be invalid, where no quicker test knew its kind.
    #[inline(always)]
    pub(crate) fn rare_format(&self) -> NumberFormat
        ensures { result ≡ format_of self.now }
    {
        let kind = self.rare_kind();
        self.builder().build_of_kind(kind)
    }

    /// The format that the fields stand for, which may be invalid.
    #[inline(always)]
    pub fn format(&self) -> NumberFormat
        ensures { result ≡ format_of self.now }
    {
        let kind = self.kind();
        self.builder().build_of_kind(kind)
    }

    // Whether punctuation is set, but for a byte 0, or a sign is required.
    #[inline(always)]
    fn is_punctuated(&self) -> bool
        ensures set { IsTrue result → is_punctuated (format_of self.now) ≡ true }
        ensures none { result ≡ false → self.now.nul_is_punctuation ≡ 0
            → is_punctuated (format_of self.now) ≡ false }
    {
        self.digit_separator != 0
            || self.base_prefix != 0
            || self.base_suffix != 0
            || self.literal_prefixes != 0
            || self.literal_octal_zero != 0
            || self.required_mantissa_sign != 0
    }

    // The kind of a valid format: where punctuation is set, nothing else decides it.
    #[inline(always)]
    #[tactic(auto, using(lexical_util::proofs::FormatKinds::other_kind, lexical_util::proofs::FormatKinds::decimal_kind, crate::proofs::ColumnNumbers::plain_kind))]
    fn valid_kind(&self) -> FormatKind
        requires { fault (format_of self.now) ≡ None }
        ensures { result ≡ kind_of (format_of self.now) }
    {
        if self.is_punctuated() {
            return FormatKind::Other;
        }
        if self.nul_is_punctuation != 0 {
            return self.kind();
        }
        if self.mantissa_radix == 10 {
            FormatKind::Decimal
        } else {
            FormatKind::Plain
        }
    }

    /// The format of fields for which it is valid: its kind is found by fewer tests, as for each cell of a column.
    #[inline(always)]
    pub(crate) fn valid_format(&self) -> NumberFormat
        requires { fault (format_of self.now) ≡ None }
        ensures { result ≡ format_of self.now }
    {
        self.builder().build_of_kind(self.valid_kind())
    }

    /// The format of fields that [`FormatFields::is_plain_decimal`] takes.
    #[inline(always)]
    pub(crate) fn decimal_format(&self) -> NumberFormat
        requires { kind_of (format_of self.now) ≡ Decimal }
        ensures { result ≡ format_of self.now }
    {
        self.builder().build_of_kind(FormatKind::Decimal)
    }

    /// The format of fields that [`FormatFields::is_surely_other`] takes.
    #[inline(always)]
    pub(crate) fn other_format(&self) -> NumberFormat
        requires { kind_of (format_of self.now) ≡ Other }
        ensures { result ≡ format_of self.now }
    {
        self.builder().build_of_kind(FormatKind::Other)
    }

    /// What is wrong with the format. Out of line, since its rules need a stack, and its two callers don't.
    #[inline(never)]
    pub fn status(&self) -> u32
        ensures { result ≡ format_status self.now }
    {
        if self.is_plain_decimal() {
            return 0;
        }
        if !self.are_known() {
            return UNKNOWN_FIELD;
        }
        match self.format().error() {
            None => 0,
            Some(error) => status_of(&error),
        }
    }
}

/// 64 if a reserved byte or bit isn't 0; otherwise the status of the first rule that the format breaks, or 0.
#[unsafe(no_mangle)]
pub extern "C" fn jadvolni_format_error(format: &FormatFields) -> u32
    ensures { result ≡ format_status format.now }
{
    format.status()
}
