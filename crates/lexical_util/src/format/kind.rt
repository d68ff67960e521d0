// The kinds of formats.

ghost use Rattle.std.specs.Prelude.{◌≡◌, None, Some, false, true};
ghost use Rattle.lexical_util.specs.Kind.{is_punctuated, kind_of};

use super::content::Fields;

/// What kind of texts a format admits, as far as a parser has to know before it reads.
#[derive(Debug, Copy, Clone, PartialEq, Eq)]
pub enum FormatKind {
    /// A valid format of radix 10, without punctuation: digits behind an optional sign.
    Decimal,
    /// A valid format of another radix, without punctuation.
    Plain,
    /// Every other valid format: it has a separator, a prefix or a suffix, literal prefixes or octal zeros, or requires a
    /// sign.
    Other,
    /// A format that breaks a rule.
    Invalid,
}

impl Fields {
    // The kind of a format with these fields: by a few tests, and by all rules where these tests don't decide it.
    #[inline(always)]
    pub(super) fn kind(&self) -> FormatKind
        ensures { result ≡ kind_of self.now }
    {
        match self.digit_separator {
            Some(separator) => self.separated_kind(separator),
            None => self.unseparated_kind(),
        }
    }

    // The kind of a format with a separator.
    #[inline(always)]
    #[tactic(auto, using(crate::proofs::FormatKinds::other_kind))]
    fn separated_kind(&self, separator: u8) -> FormatKind
        requires { self.now.digit_separator ≡ Some separator }
        ensures { result ≡ kind_of self.now }
    {
        if self.is_valid_with_separator(separator) {
            return FormatKind::Other;
        }
        self.judged_kind()
    }

    // The kind of any other format: without a suffix and a prefix it can break few rules.
    #[inline(always)]
    #[tactic(auto, using(crate::proofs::FormatKinds::other_kind))]
    fn unseparated_kind(&self) -> FormatKind
        requires { self.now.digit_separator ≡ None }
        ensures { result ≡ kind_of self.now }
    {
        if !self.is_punctuated() {
            return self.bare_kind();
        }
        if self.is_valid_without_separator() {
            return FormatKind::Other;
        }
        self.judged_kind()
    }

    // The kind of a format with punctuation, or with a required sign, by all rules, one after the other.
    #[inline(always)]
    #[tactic(auto, using(crate::proofs::FormatKinds::kind_with))]
    fn judged_kind(&self) -> FormatKind
        requires { is_punctuated self.now ≡ true }
        ensures { result ≡ kind_of self.now }
    {
        match self.fault() {
            Some(_) => FormatKind::Invalid,
            None => FormatKind::Other,
        }
    }

    // The kind of a format with neither punctuation nor a required sign: it can only break the rule on its radix.
    #[inline(always)]
    #[tactic(auto, using(crate::proofs::FormatKinds::decimal_kind, crate::proofs::FormatKinds::plain_kind, crate::proofs::FormatKinds::outside_kind))]
    fn bare_kind(&self) -> FormatKind
        requires { is_punctuated self.now ≡ false }
        ensures { result ≡ kind_of self.now }
    {
        let radix = self.mantissa_radix;
        if radix == 10 {
            FormatKind::Decimal
        } else if radix < 2 || radix > 36 {
            FormatKind::Invalid
        } else {
            FormatKind::Plain
        }
    }
}
