//! Calls on one number.

use crate::number::Number;
use crate::seen::Seen;
use crate::turns::Call;
use crate::valid::ValidFormat;
use lexical_parse_integer::parse::ParseInteger;
use lexical_parse_integer::{
    FromLexical, FromLexicalWithOptions, NumberFormat, Options, number_in_front, options,
};

/// `from_lexical`.
#[derive(Drop)]
pub struct Whole;

impl<T: FromLexical + Number + Drop> Call<T> for Whole {
    #[inline(always)]
    fn once(&mut self, text: &[u8], seen: &mut Seen) {
        seen.take_answer(T::from_lexical(text));
    }
}

/// `from_lexical_partial`.
#[derive(Drop)]
pub struct Front;

impl<T: FromLexical + Number + Drop> Call<T> for Front {
    #[inline(always)]
    fn once(&mut self, text: &[u8], seen: &mut Seen) {
        seen.take_front(T::from_lexical_partial(text));
    }
}

/// `from_lexical_with_options`.
#[derive(Drop)]
pub struct WholeUnder {
    pub format: NumberFormat,
}

impl<T: FromLexicalWithOptions<Options = Options> + Number + Drop> Call<T> for WholeUnder {
    #[inline(always)]
    fn once(&mut self, text: &[u8], seen: &mut Seen) {
        seen.take_answer(T::from_lexical_with_options(text, &self.format, &options::STANDARD));
    }
}

/// `from_lexical_partial_with_options`.
#[derive(Drop)]
pub struct FrontUnder {
    pub format: NumberFormat,
}

impl<T: FromLexicalWithOptions<Options = Options> + Number + Drop> Call<T> for FrontUnder {
    #[inline(always)]
    fn once(&mut self, text: &[u8], seen: &mut Seen) {
        seen.take_front(T::from_lexical_partial_with_options(
            text,
            &self.format,
            &options::STANDARD,
        ));
    }
}

/// `number_in_front`.
#[derive(Drop)]
pub struct NumberInFront {
    pub format: NumberFormat,
}

impl<T: FromLexicalWithOptions<Options = Options> + Number + Drop> Call<T> for NumberInFront {
    #[inline(always)]
    fn once(&mut self, text: &[u8], seen: &mut Seen) {
        seen.take_front(number_in_front::<T>(text, &self.format));
    }
}

/// `parse_complete`.
#[derive(Drop)]
pub struct Complete {
    pub format: ValidFormat,
}

impl<T: ParseInteger + Number + Drop> Call<T> for Complete {
    #[inline(always)]
    fn once(&mut self, text: &[u8], seen: &mut Seen) {
        seen.take_answer(T::parse_complete(text, self.format.get(), &options::STANDARD));
    }
}
