//! Options of the parser, which are hints about its input.
ghost use Rattle.std.specs.Prelude.{◌≡◌, true, false, Ok, IsTrue};

use lexical_util::options::ParseOptions;
use lexical_util::result::Result;
use std::marker::Model;

/// Options of the parser. They affect speed alone: no answer depends on them.
#[derive(Debug, Clone, PartialEq, Eq, PartialOrd, Ord, Drop)]
pub struct Options {
    no_multi_digit: bool,
}

impl Model for Options {
    ghost use Rattle.lexical_parse_integer.specs.OptionsView.{OptionsView};

    ghost Value = { OptionsView };

    ghost view = { λ options. record { no_multi_digit = options.no_multi_digit } };

    ghost inverse = { λ options. record { no_multi_digit = options.no_multi_digit } };
}

/// The options of a new builder: `no_multi_digit` is true.
pub const STANDARD: Options = Options {
    no_multi_digit: true,
};

/// For numbers of few digits: `no_multi_digit` is true.
pub const SMALL_NUMBERS: Options = Options {
    no_multi_digit: true,
};

/// For numbers of many digits: `no_multi_digit` is false.
pub const LARGE_NUMBERS: Options = Options {
    no_multi_digit: false,
};

// The fields of the constants: a clause can't name a constant of this type, so it stands here.
fn constants() -> (Options, Options, Options)
    ensures { result ≡ (
      record { no_multi_digit = true },
      record { no_multi_digit = true },
      record { no_multi_digit = false },
    ) }
{
    (STANDARD, SMALL_NUMBERS, LARGE_NUMBERS)
}

impl Options {
    /// Options with `no_multi_digit` true.
    pub fn new() -> Self
        ensures { result ≡ record { no_multi_digit = true } }
    {
        Options {
            no_multi_digit: true,
        }
    }

    /// The options of `new`, whatever the radix is.
    pub fn from_radix(_radix: u8) -> Self
        ensures { result ≡ record { no_multi_digit = true } }
    {
        Options::new()
    }

    /// Whether the options are valid: they always are.
    pub fn is_valid(&self) -> bool
        ensures { IsTrue result }
    {
        true
    }

    /// Whether digits are taken one at a time.
    #[inline(always)]
    pub fn get_no_multi_digit(&self) -> bool
        ensures { result ≡ self.now.no_multi_digit }
    {
        self.no_multi_digit
    }

    /// Sets whether digits are taken one at a time.
    ///
    /// Deprecated: make options by `OptionsBuilder` instead.
    pub fn no_multi_digit(&mut self, no_multi_digit: bool)
        ensures { self.new ≡ record { no_multi_digit = no_multi_digit } }
    {
        self.no_multi_digit = no_multi_digit;
    }

    /// Sets whether digits are taken one at a time.
    ///
    /// Deprecated: make options by `OptionsBuilder` instead.
    pub fn set_no_multi_digit(&mut self, no_multi_digit: bool)
        ensures { self.new ≡ record { no_multi_digit = no_multi_digit } }
    {
        self.no_multi_digit = no_multi_digit;
    }

    /// A new builder.
    pub fn builder() -> OptionsBuilder
        ensures { result ≡ record { no_multi_digit = true } }
    {
        OptionsBuilder::new()
    }

    /// A builder with these options' field.
    pub fn rebuild(&self) -> OptionsBuilder
        ensures { result ≡ self.now }
    {
        OptionsBuilder {
            no_multi_digit: self.no_multi_digit,
        }
    }
}

impl Default for Options {
    ghost is_default = { λ options. options.no_multi_digit ≡ true };

    fn default() -> Self {
        Options::new()
    }
}

impl ParseOptions for Options {
    ghost valid = { λ options. true };

    fn is_valid(&self) -> bool {
        true
    }
}

/// Options that are being made.
#[derive(Debug, Clone, PartialEq, Eq, PartialOrd, Ord, Drop)]
pub struct OptionsBuilder {
    no_multi_digit: bool,
}

impl Model for OptionsBuilder {
    ghost use Rattle.lexical_parse_integer.specs.OptionsView.{OptionsView};

    ghost Value = { OptionsView };

    ghost view = { λ builder. record { no_multi_digit = builder.no_multi_digit } };

    ghost inverse = { λ builder. record { no_multi_digit = builder.no_multi_digit } };
}

impl OptionsBuilder {
    /// A builder with `no_multi_digit` true.
    pub fn new() -> Self
        ensures { result ≡ record { no_multi_digit = true } }
    {
        OptionsBuilder {
            no_multi_digit: true,
        }
    }

    /// Whether digits are to be taken one at a time.
    pub fn get_no_multi_digit(&self) -> bool
        ensures { result ≡ self.now.no_multi_digit }
    {
        self.no_multi_digit
    }

    /// The builder with this field.
    pub fn no_multi_digit(mut self, no_multi_digit: bool) -> Self
        ensures { result ≡ record { no_multi_digit = no_multi_digit } }
    {
        self.no_multi_digit = no_multi_digit;
        self
    }

    /// Whether the options are valid: they always are.
    pub fn is_valid(&self) -> bool
        ensures { IsTrue result }
    {
        true
    }

    /// The options.
    pub fn build_unchecked(&self) -> Options
        ensures { result ≡ self.now }
    {
        Options {
            no_multi_digit: self.no_multi_digit,
        }
    }

    /// The options. They are always valid, so this never refuses.
    pub fn build_strict(&self) -> Options
        ensures { result ≡ self.now }
    {
        self.build_unchecked()
    }

    /// The options. They are always valid, so this is always `Ok`.
    pub fn build(&self) -> Result<Options>
        ensures { result ≡ Ok self.now }
    {
        Ok(self.build_unchecked())
    }
}

impl Default for OptionsBuilder {
    ghost is_default = { λ builder. builder.no_multi_digit ≡ true };

    fn default() -> Self {
        OptionsBuilder::new()
    }
}
