//! Numbers of 128 bits, which C gets as two halves.

ghost use Rattle.std.specs.Prelude.{◌≡◌, pos};
ghost use Rattle.jadvolni.specs.Halves.{signed_number, unsigned_number};

/// A `u128`, which is `high * 2^64 + low`: `jadvolni_uint128` in C.
#[repr(C)]
#[derive(Copy, Clone)]
pub struct Unsigned128 {
    pub low: u64,
    pub high: u64,
}

/// An `i128`, which is `high * 2^64 + low`: `jadvolni_int128` in C.
#[repr(C)]
#[derive(Copy, Clone)]
pub struct Signed128 {
    pub low: u64,
    pub high: i64,
}

impl Unsigned128 {
    /// The halves of a number: those of 2^64 are low 0 and high 1.
    #[inline(always)]
    pub fn of(number: u128) -> Unsigned128
        ensures { unsigned_number result ≡ pos number }
    {
        Unsigned128 {
            low: (number % 0x1_0000_0000_0000_0000) as u64,
            high: (number / 0x1_0000_0000_0000_0000) as u64,
        }
    }
}

impl Signed128 {
    /// The halves of a number: those of -1 are low 2^64 - 1 and high -1.
    #[inline(always)]
    pub fn of(number: i128) -> Signed128
        ensures { signed_number result ≡ number }
    {
        Signed128 {
            low: number.rem_euclid(0x1_0000_0000_0000_0000) as u64,
            high: number.div_euclid(0x1_0000_0000_0000_0000) as i64,
        }
    }
}
