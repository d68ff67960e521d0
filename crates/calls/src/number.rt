//! The integer types, whose numbers are added up.

/// An integer type.
pub trait Number {
    /// The low 64 bits of a number.
    fn low(&self) -> u64;
}

impl Number for u8 {
    #[inline(always)]
    fn low(&self) -> u64 {
        u64::from(*self)
    }
}

impl Number for u16 {
    #[inline(always)]
    fn low(&self) -> u64 {
        u64::from(*self)
    }
}

impl Number for u32 {
    #[inline(always)]
    fn low(&self) -> u64 {
        u64::from(*self)
    }
}

impl Number for u64 {
    #[inline(always)]
    fn low(&self) -> u64 {
        *self
    }
}

impl Number for u128 {
    #[inline(always)]
    fn low(&self) -> u64 {
        (*self & 0xffff_ffff_ffff_ffff) as u64
    }
}

impl Number for usize {
    #[inline(always)]
    fn low(&self) -> u64 {
        *self as u64
    }
}

impl Number for i8 {
    #[inline(always)]
    fn low(&self) -> u64 {
        i64::from(*self).cast_unsigned()
    }
}

impl Number for i16 {
    #[inline(always)]
    fn low(&self) -> u64 {
        i64::from(*self).cast_unsigned()
    }
}

impl Number for i32 {
    #[inline(always)]
    fn low(&self) -> u64 {
        i64::from(*self).cast_unsigned()
    }
}

impl Number for i64 {
    #[inline(always)]
    fn low(&self) -> u64 {
        self.cast_unsigned()
    }
}

impl Number for i128 {
    #[inline(always)]
    fn low(&self) -> u64 {
        self.cast_unsigned().low()
    }
}

impl Number for isize {
    #[inline(always)]
    fn low(&self) -> u64 {
        self.cast_unsigned().low()
    }
}
