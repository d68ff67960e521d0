//! Stores numbers in a slice of any type, by their sign and magnitude.

ghost use Rattle.std.specs.Prelude.{◌≡◌, ◌<◌, ◌^◌, IfSome, IsSome, IsTrue, false, length, map, set, true};
ghost use Rattle.lexical_digits.specs.Value.{with_sign};
ghost use Rattle.lexical_util.specs.Number.{IsNumber};

use lexical_util::num::Integer;

/// A type that the numbers of a column may have.
pub trait ColumnInteger: Integer {
    /// A number with its sign, where the type has it.
    ///
    /// The least number of a signed type isn't handled here, nor a minus in front of 0 where the type is unsigned: the
    /// answer is `None`.
    fn from_number(is_negative: bool, number: u64) -> Option<Self>
        requires small { number < 2 ^ 63 }
        ensures number { IfSome result (λ value. Self.number value ≡ with_sign is_negative number) }
        ensures fits { IfSome result (λ value. IsNumber Self.TYPE (with_sign is_negative number)) }
        ensures minus { IfSome result
            (λ value. IsTrue is_negative → Self.TYPE.is_signed ≡ true) };
}

impl ColumnInteger for u8 {
    #[inline(always)]
    fn from_number(is_negative: bool, number: u64) -> Option<u8> {
        if is_negative || number > 0xFF {
            return None;
        }
        Some(number as u8)
    }
}

impl ColumnInteger for u16 {
    #[inline(always)]
    fn from_number(is_negative: bool, number: u64) -> Option<u16> {
        if is_negative || number > 0xFFFF {
            return None;
        }
        Some(number as u16)
    }
}

impl ColumnInteger for u32 {
    #[inline(always)]
    fn from_number(is_negative: bool, number: u64) -> Option<u32> {
        if is_negative || number > 0xFFFF_FFFF {
            return None;
        }
        Some(number as u32)
    }
}

impl ColumnInteger for u64 {
    #[inline(always)]
    fn from_number(is_negative: bool, number: u64) -> Option<u64> {
        if is_negative {
            return None;
        }
        Some(number)
    }
}

impl ColumnInteger for i8 {
    #[inline(always)]
    fn from_number(is_negative: bool, number: u64) -> Option<i8> {
        if number > 0x7F {
            return None;
        }
        let value = number as i8;
        if is_negative {
            return Some(-value);
        }
        Some(value)
    }
}

impl ColumnInteger for i16 {
    #[inline(always)]
    fn from_number(is_negative: bool, number: u64) -> Option<i16> {
        if number > 0x7FFF {
            return None;
        }
        let value = number as i16;
        if is_negative {
            return Some(-value);
        }
        Some(value)
    }
}

impl ColumnInteger for i32 {
    #[inline(always)]
    fn from_number(is_negative: bool, number: u64) -> Option<i32> {
        if number > 0x7FFF_FFFF {
            return None;
        }
        let value = number as i32;
        if is_negative {
            return Some(-value);
        }
        Some(value)
    }
}

impl ColumnInteger for i64 {
    #[inline(always)]
    fn from_number(is_negative: bool, number: u64) -> Option<i64> {
        let value = number as i64;
        if is_negative {
            return Some(-value);
        }
        Some(value)
    }
}

/// Puts a number with its sign into a row's place of a slice, where [`ColumnInteger::from_number`] has it, and returns whether
/// it did.
///
/// It is for implementations of [`TableColumn`](crate::TableColumn). The slice has to have that place.
#[inline(always)]
pub fn put_with_sign<T: ColumnInteger>(
    values: &mut [T],
    row: usize,
    is_negative: bool,
    number: u64,
) -> bool
    requires room { row < length values.old }
    requires small { number < 2 ^ 63 }
    ensures fits { IsTrue result → IsNumber T.TYPE (with_sign is_negative number) }
    ensures minus { IsTrue result → IsTrue is_negative → T.TYPE.is_signed ≡ true }
    ensures numbers { IsTrue result → map T.number values.new
        ≡ set (map T.number values.old) row (with_sign is_negative number) }
    ensures kept { result ≡ false → values.new ≡ values.old }
{
    match T::from_number(is_negative, number) {
        Some(value) => {
            values[row] = value;
            true
        }
        None => false,
    }
}
