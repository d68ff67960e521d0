// The signed types as whole numbers. `mul_add!` and `checked_mul_add!` are macros of `num.rt`.

ghost use Rattle.std.specs.Prelude.{pos, true};
ghost use Rattle.std.proofs.Common.{refl};
ghost use Rattle.lexical_util.specs.Number.{integer_type};
ghost use Rattle.lexical_util.specs.Number.IsWidth.{w128, w16, w32, w64, w8};
ghost use Rattle.lexical_util.specs.Compare.{signed-eq};

use crate::num::Integer;

impl Integer for i8 {
    ghost number = { λ x. x };

    ghost ZERO = { pos 0 };

    ghost TYPE = { integer_type 8 true };

    ghost BITS = { 8 };

    ghost IS_SIGNED = { true };

    const ZERO: i8 = 0;

    const BITS: u32 = 8;

    const IS_SIGNED: bool = true;

    #[inline(always)]
    fn from_u32(v: u32) -> i8 {
        v as i8
    }

    #[inline(always)]
    fn mul_add(self, scale: i8, add: i8, negative: bool) -> i8 {
        mul_add!(self, scale, add, negative)
    }

    #[inline(always)]
    fn checked_mul_add(self, scale: i8, add: i8, negative: bool) -> Option<i8> {
        checked_mul_add!(self, scale, add, negative)
    }

    ghost eq_law = { signed-eq };

    ghost order_law = { λ a b. refl };

    ghost cmp_law = { λ a b. refl };

    ghost injective_law = { λ a b e. e };

    ghost zero_law = { refl };

    ghost bits_law = { refl };

    ghost sign_law = { refl };

    ghost width_law = { w8 };
}

impl Integer for i16 {
    ghost number = { λ x. x };

    ghost ZERO = { pos 0 };

    ghost TYPE = { integer_type 16 true };

    ghost BITS = { 16 };

    ghost IS_SIGNED = { true };

    const ZERO: i16 = 0;

    const BITS: u32 = 16;

    const IS_SIGNED: bool = true;

    #[inline(always)]
    fn from_u32(v: u32) -> i16 {
        v as i16
    }

    #[inline(always)]
    fn mul_add(self, scale: i16, add: i16, negative: bool) -> i16 {
        mul_add!(self, scale, add, negative)
    }

    #[inline(always)]
    fn checked_mul_add(self, scale: i16, add: i16, negative: bool) -> Option<i16> {
        checked_mul_add!(self, scale, add, negative)
    }

    ghost eq_law = { signed-eq };

    ghost order_law = { λ a b. refl };

    ghost cmp_law = { λ a b. refl };

    ghost injective_law = { λ a b e. e };

    ghost zero_law = { refl };

    ghost bits_law = { refl };

    ghost sign_law = { refl };

    ghost width_law = { w16 };
}

impl Integer for i32 {
    ghost number = { λ x. x };

    ghost ZERO = { pos 0 };

    ghost TYPE = { integer_type 32 true };

    ghost BITS = { 32 };

    ghost IS_SIGNED = { true };

    const ZERO: i32 = 0;

    const BITS: u32 = 32;

    const IS_SIGNED: bool = true;

    #[inline(always)]
    fn from_u32(v: u32) -> i32 {
        v as i32
    }

    #[inline(always)]
    fn mul_add(self, scale: i32, add: i32, negative: bool) -> i32 {
        mul_add!(self, scale, add, negative)
    }

    #[inline(always)]
    fn checked_mul_add(self, scale: i32, add: i32, negative: bool) -> Option<i32> {
        checked_mul_add!(self, scale, add, negative)
    }

    ghost eq_law = { signed-eq };

    ghost order_law = { λ a b. refl };

    ghost cmp_law = { λ a b. refl };

    ghost injective_law = { λ a b e. e };

    ghost zero_law = { refl };

    ghost bits_law = { refl };

    ghost sign_law = { refl };

    ghost width_law = { w32 };
}

impl Integer for i64 {
    ghost number = { λ x. x };

    ghost ZERO = { pos 0 };

    ghost TYPE = { integer_type 64 true };

    ghost BITS = { 64 };

    ghost IS_SIGNED = { true };

    const ZERO: i64 = 0;

    const BITS: u32 = 64;

    const IS_SIGNED: bool = true;

    #[inline(always)]
    fn from_u32(v: u32) -> i64 {
        v as i64
    }

    #[inline(always)]
    fn mul_add(self, scale: i64, add: i64, negative: bool) -> i64 {
        mul_add!(self, scale, add, negative)
    }

    #[inline(always)]
    fn checked_mul_add(self, scale: i64, add: i64, negative: bool) -> Option<i64> {
        checked_mul_add!(self, scale, add, negative)
    }

    ghost eq_law = { signed-eq };

    ghost order_law = { λ a b. refl };

    ghost cmp_law = { λ a b. refl };

    ghost injective_law = { λ a b e. e };

    ghost zero_law = { refl };

    ghost bits_law = { refl };

    ghost sign_law = { refl };

    ghost width_law = { w64 };
}

impl Integer for i128 {
    ghost number = { λ x. x };

    ghost ZERO = { pos 0 };

    ghost TYPE = { integer_type 128 true };

    ghost BITS = { 128 };

    ghost IS_SIGNED = { true };

    const ZERO: i128 = 0;

    const BITS: u32 = 128;

    const IS_SIGNED: bool = true;

    #[inline(always)]
    fn from_u32(v: u32) -> i128 {
        v as i128
    }

    #[inline(always)]
    fn mul_add(self, scale: i128, add: i128, negative: bool) -> i128 {
        mul_add!(self, scale, add, negative)
    }

    #[inline(always)]
    fn checked_mul_add(self, scale: i128, add: i128, negative: bool) -> Option<i128> {
        checked_mul_add!(self, scale, add, negative)
    }

    ghost eq_law = { signed-eq };

    ghost order_law = { λ a b. refl };

    ghost cmp_law = { λ a b. refl };

    ghost injective_law = { λ a b e. e };

    ghost zero_law = { refl };

    ghost bits_law = { refl };

    ghost sign_law = { refl };

    ghost width_law = { w128 };
}

impl Integer for isize {
    ghost number = { λ x. x };

    ghost ZERO = { pos 0 };

    ghost TYPE = { integer_type 64 true };

    ghost BITS = { 64 };

    ghost IS_SIGNED = { true };

    const ZERO: isize = 0;

    const BITS: u32 = 64;

    const IS_SIGNED: bool = true;

    #[inline(always)]
    fn from_u32(v: u32) -> isize {
        v as isize
    }

    #[inline(always)]
    fn mul_add(self, scale: isize, add: isize, negative: bool) -> isize {
        mul_add!(self, scale, add, negative)
    }

    #[inline(always)]
    fn checked_mul_add(self, scale: isize, add: isize, negative: bool) -> Option<isize> {
        checked_mul_add!(self, scale, add, negative)
    }

    ghost eq_law = { signed-eq };

    ghost order_law = { λ a b. refl };

    ghost cmp_law = { λ a b. refl };

    ghost injective_law = { λ a b e. e };

    ghost zero_law = { refl };

    ghost bits_law = { refl };

    ghost sign_law = { refl };

    ghost width_law = { w64 };
}
