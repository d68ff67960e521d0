// Prefix, octal zero and suffix at a place of a text.
ghost use Rattle.std.specs.Prelude.{◌≡◌};
ghost use Rattle.lexical_parse_integer.specs.Affixes.{is_affix, literal_radix, named_radix, matches, octal_zero_at, prefix_radix, suffix_at};

use lexical_util::format::NumberFormat;

// Whether a byte matches a prefix or suffix, with or without regard to ASCII case.
#[inline(always)]
#[tactic(auto, unfolding(crate::specs::Affixes::matches))]
fn matches(is_case_sensitive: bool, affix: u8, byte: u8) -> bool
    ensures { result ≡ matches is_case_sensitive affix byte }
{
    if byte == affix {
        return true;
    }
    !is_case_sensitive && byte.eq_ignore_ascii_case(&affix)
}

#[inline(always)]
#[tactic(auto, unfolding(crate::specs::Affixes::is_affix))]
fn is_affix(is_case_sensitive: bool, affix: Option<u8>, byte: Option<u8>) -> bool
    ensures { result ≡ is_affix is_case_sensitive affix byte }
{
    match (affix, byte) {
        (Some(affix), Some(byte)) => matches(is_case_sensitive, affix, byte),
        _ => false,
    }
}

// Whether the suffix stands at a place.
#[inline(always)]
#[tactic(auto, unfolding(crate::specs::Affixes::suffix_at))]
pub(crate) fn suffix_at(bytes: &[u8], format: &NumberFormat, place: usize) -> bool
    ensures { result ≡ suffix_at format.now bytes.now place }
{
    is_affix(
        format.case_sensitive_base_suffix(),
        format.base_suffix(),
        bytes.get(place).copied(),
    )
}

// Whether a zero stands at a place, and the format says that one in front makes a numeral octal.
#[inline(always)]
#[tactic(auto, unfolding(crate::specs::Affixes::octal_zero_at, crate::specs::Runs::are_same))]
pub(crate) fn octal_zero_at(bytes: &[u8], format: &NumberFormat, place: usize) -> bool
    ensures { result ≡ octal_zero_at format.now bytes.now place }
{
    format.literal_octal_zero() && place < bytes.len() && bytes[place] == b'0'
}

// The effective radix behind the letter of a literal prefix.
#[inline(always)]
#[tactic(auto, unfolding(crate::specs::Affixes::literal_radix, crate::specs::Affixes::is_affix, crate::specs::Affixes::matches))]
fn literal_radix(is_case_sensitive: bool, byte: Option<u8>) -> Option<u32>
    ensures { result ≡ literal_radix is_case_sensitive byte }
{
    let byte = byte?;
    match byte {
        b'x' => Some(16),
        b'o' => Some(8),
        b'b' => Some(2),
        b'X' if !is_case_sensitive => Some(16),
        b'O' if !is_case_sensitive => Some(8),
        b'B' if !is_case_sensitive => Some(2),
        _ => None,
    }
}

// The effective radix behind a zero and a byte, where the two are a prefix.
#[inline(always)]
#[tactic(auto, unfolding(crate::specs::Affixes::named_radix))]
fn named_radix(format: &NumberFormat, byte: Option<u8>) -> Option<u32>
    ensures { result ≡ named_radix format.now byte }
{
    if is_affix(
        format.case_sensitive_base_prefix(),
        format.base_prefix(),
        byte,
    ) {
        Some(format.mantissa_radix())
    } else if format.literal_prefixes() {
        literal_radix(format.case_sensitive_base_prefix(), byte)
    } else {
        None
    }
}

// The effective radix behind the prefix at a place, where one stands there.
#[inline(always)]
#[tactic(auto, unfolding(crate::specs::Affixes::prefix_radix, crate::specs::Runs::are_same))]
pub(crate) fn prefix_radix(bytes: &[u8], format: &NumberFormat, place: usize) -> Option<u32>
    ensures { result ≡ prefix_radix format.now bytes.now place }
{
    if place < bytes.len() && bytes[place] == b'0' {
        named_radix(format, bytes.get(place + 1).copied())
    } else {
        None
    }
}
