//! What a call hands back: a status and a place.

ghost use Rattle.std.specs.Prelude.{◌≡◌};
ghost use Rattle.lexical_util.specs.Faults.{place_of};
ghost use Rattle.jadvolni.specs.Effect.{fault_place, fault_status};

use lexical_parse_integer::Error;

/// The status of a call that a format with an unknown field was handed to.
pub const UNKNOWN_FIELD: u32 = 64;

/// A status and a place: `jadvolni_result` in C.
#[repr(C)]
#[derive(Copy, Clone)]
pub struct Outcome {
    pub status: u32,
    pub place: usize,
}

/// The status of a fault: `JADVOLNI_OVERFLOW` and so on in C.
#[inline(always)]
pub fn status_of(error: &Error) -> u32
    ensures { result ≡ fault_status error.now }
{
    match *error {
        Error::Overflow(_) => 1,
        Error::Underflow(_) => 2,
        Error::InvalidDigit(_) => 3,
        Error::Empty(_) => 4,
        Error::MissingSign(_) => 5,
        Error::InvalidPositiveSign(_) => 6,
        Error::InvalidLeadingZeros(_) => 7,
        Error::InvalidMantissaRadix => 8,
        Error::InvalidDigitSeparator => 9,
        Error::InvalidBasePrefix => 10,
        Error::InvalidBaseSuffix => 11,
        Error::InvalidPunctuation => 12,
        Error::InvalidLiteralPrefixes => 13,
    }
}

impl Outcome {
    /// What a fault is to C: its status, and its place, which is 0 for a fault of a format.
    #[inline(always)]
    pub fn of_fault(error: Error) -> Outcome
        ensures status { result.status ≡ fault_status error }
        ensures place { result.place ≡ fault_place (place_of error) }
    {
        Outcome {
            status: status_of(&error),
            place: error.index().unwrap_or(0),
        }
    }
}
