// The unsigned types as whole numbers. `mul_add!` and `checked_mul_add!` are macros of `num.rt`.

ghost use Rattle.std.specs.Prelude.{pos, false};
ghost use Rattle.std.proofs.Common.{refl};
ghost use Rattle.lexical_util.specs.Number.{integer_type};
ghost use Rattle.lexical_util.specs.Number.IsWidth.{w128, w16, w32, w64, w8};
ghost use Rattle.lexical_util.specs.Compare.{pos-injective, unsigned-cmp, unsigned-eq, unsigned-order};

use crate::num::Integer;

impl Integer for u8 {
    ghost number = { λ x. pos x };

    ghost ZERO = { 0 };

    ghost TYPE = { integer_type 8 false };

    ghost BITS = { 8 };

    ghost IS_SIGNED = { false };

    const ZERO: u8 = 0;

    const BITS: u32 = 8;

    const IS_SIGNED: bool = false;

    #[inline(always)]
    fn from_u32(v: u32) -> u8 {
        v as u8
    }

    #[inline(always)]
    fn mul_add(self, scale: u8, add: u8, negative: bool) -> u8 {
        mul_add!(self, scale, add, negative)
    }

    #[inline(always)]
    fn checked_mul_add(self, scale: u8, add: u8, negative: bool) -> Option<u8> {
        checked_mul_add!(self, scale, add, negative)
    }

    ghost eq_law = { unsigned-eq };

    ghost order_law = { unsigned-order };

    ghost cmp_law = { unsigned-cmp };

    ghost injective_law = { pos-injective };

    ghost zero_law = { refl };

    ghost bits_law = { refl };

    ghost sign_law = { refl };

    ghost width_law = { w8 };
}

impl Integer for u16 {
    ghost number = { λ x. pos x };

    ghost ZERO = { 0 };

    ghost TYPE = { integer_type 16 false };

    ghost BITS = { 16 };

    ghost IS_SIGNED = { false };

    const ZERO: u16 = 0;

    const BITS: u32 = 16;

    const IS_SIGNED: bool = false;

    #[inline(always)]
    fn from_u32(v: u32) -> u16 {
        v as u16
    }

    #[inline(always)]
    fn mul_add(self, scale: u16, add: u16, negative: bool) -> u16 {
        mul_add!(self, scale, add, negative)
    }

    #[inline(always)]
    fn checked_mul_add(self, scale: u16, add: u16, negative: bool) -> Option<u16> {
        checked_mul_add!(self, scale, add, negative)
    }

    ghost eq_law = { unsigned-eq };

    ghost order_law = { unsigned-order };

    ghost cmp_law = { unsigned-cmp };

    ghost injective_law = { pos-injective };

    ghost zero_law = { refl };

    ghost bits_law = { refl };

    ghost sign_law = { refl };

    ghost width_law = { w16 };
}

impl Integer for u32 {
    ghost number = { λ x. pos x };

    ghost ZERO = { 0 };

    ghost TYPE = { integer_type 32 false };

    ghost BITS = { 32 };

    ghost IS_SIGNED = { false };

    const ZERO: u32 = 0;

    const BITS: u32 = 32;

    const IS_SIGNED: bool = false;

    #[inline(always)]
    fn from_u32(v: u32) -> u32 {
        v
    }

    #[inline(always)]
    fn mul_add(self, scale: u32, add: u32, negative: bool) -> u32 {
        mul_add!(self, scale, add, negative)
    }

    #[inline(always)]
    fn checked_mul_add(self, scale: u32, add: u32, negative: bool) -> Option<u32> {
        checked_mul_add!(self, scale, add, negative)
    }

    ghost eq_law = { unsigned-eq };

    ghost order_law = { unsigned-order };

    ghost cmp_law = { unsigned-cmp };

    ghost injective_law = { pos-injective };

    ghost zero_law = { refl };

    ghost bits_law = { refl };

    ghost sign_law = { refl };

    ghost width_law = { w32 };
}

impl Integer for u64 {
    ghost number = { λ x. pos x };

    ghost ZERO = { 0 };

    ghost TYPE = { integer_type 64 false };

    ghost BITS = { 64 };

    ghost IS_SIGNED = { false };

    const ZERO: u64 = 0;

    const BITS: u32 = 64;

    const IS_SIGNED: bool = false;

    #[inline(always)]
    fn from_u32(v: u32) -> u64 {
        v as u64
    }

    #[inline(always)]
    fn mul_add(self, scale: u64, add: u64, negative: bool) -> u64 {
        mul_add!(self, scale, add, negative)
    }

    #[inline(always)]
    fn checked_mul_add(self, scale: u64, add: u64, negative: bool) -> Option<u64> {
        checked_mul_add!(self, scale, add, negative)
    }

    ghost eq_law = { unsigned-eq };

    ghost order_law = { unsigned-order };

    ghost cmp_law = { unsigned-cmp };

    ghost injective_law = { pos-injective };

    ghost zero_law = { refl };

    ghost bits_law = { refl };

    ghost sign_law = { refl };

    ghost width_law = { w64 };
}

impl Integer for u128 {
    ghost number = { λ x. pos x };

    ghost ZERO = { 0 };

    ghost TYPE = { integer_type 128 false };

    ghost BITS = { 128 };

    ghost IS_SIGNED = { false };

    const ZERO: u128 = 0;

    const BITS: u32 = 128;

    const IS_SIGNED: bool = false;

    #[inline(always)]
    fn from_u32(v: u32) -> u128 {
        v as u128
    }

    #[inline(always)]
    fn mul_add(self, scale: u128, add: u128, negative: bool) -> u128 {
        mul_add!(self, scale, add, negative)
    }

    #[inline(always)]
    fn checked_mul_add(self, scale: u128, add: u128, negative: bool) -> Option<u128> {
        checked_mul_add!(self, scale, add, negative)
    }

    ghost eq_law = { unsigned-eq };

    ghost order_law = { unsigned-order };

    ghost cmp_law = { unsigned-cmp };

    ghost injective_law = { pos-injective };

    ghost zero_law = { refl };

    ghost bits_law = { refl };

    ghost sign_law = { refl };

    ghost width_law = { w128 };
}

impl Integer for usize {
    ghost number = { λ x. pos x };

    ghost ZERO = { 0 };

    ghost TYPE = { integer_type 64 false };

    ghost BITS = { 64 };

    ghost IS_SIGNED = { false };

    const ZERO: usize = 0;

    const BITS: u32 = 64;

    const IS_SIGNED: bool = false;

    #[inline(always)]
    fn from_u32(v: u32) -> usize {
        v as usize
    }

    #[inline(always)]
    fn mul_add(self, scale: usize, add: usize, negative: bool) -> usize {
        mul_add!(self, scale, add, negative)
    }

    #[inline(always)]
    fn checked_mul_add(self, scale: usize, add: usize, negative: bool) -> Option<usize> {
        checked_mul_add!(self, scale, add, negative)
    }

    ghost eq_law = { unsigned-eq };

    ghost order_law = { unsigned-order };

    ghost cmp_law = { unsigned-cmp };

    ghost injective_law = { pos-injective };

    ghost zero_law = { refl };

    ghost bits_law = { refl };

    ghost sign_law = { refl };

    ghost width_law = { w64 };
}
