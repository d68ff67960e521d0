//! Formats that were checked once for validity.

ghost use Rattle.std.specs.Prelude.{◌≡◌, None};
ghost use Rattle.lexical_util.specs.Validity.{fault};

use lexical_parse_integer::NumberFormat;
use std::marker::Model;

/// A valid format, made before the calls that are counted: a caller that parses many texts under one format checks it
/// once.
#[derive(Drop)]
pub struct ValidFormat {
    format: NumberFormat,
}

impl Model for ValidFormat {
    ghost use Rattle.std.specs.Prelude.{◌≡◌, None};
    ghost use Rattle.lexical_util.specs.Format.{Format};
    ghost use Rattle.lexical_util.specs.Validity.{fault};

    ghost Value = { Format };

    ghost view = { λ v. v.format };

    ghost invariant = { λ v. fault v.format ≡ None };
}

impl ValidFormat {
    /// The format, where it is valid.
    pub fn new(format: NumberFormat) -> Option<ValidFormat> {
        if format.is_valid() {
            Some(ValidFormat { format })
        } else {
            None
        }
    }

    /// The format.
    #[inline(always)]
    pub fn get(&self) -> &NumberFormat
        ensures { fault result.now ≡ None }
    {
        &self.format
    }
}
