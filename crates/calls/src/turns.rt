//! A call made several times in a row, so that callgrind can count what one takes. Each time is a
//! turn here.

use crate::seen::Seen;

/// How many turns the first count has.
const FEW: usize = 2;

/// How many turns the second count has, and how many copies of the text there are.
pub const MANY: usize = 12;

/// A call whose numbers are of a type.
pub trait Call<T> {
    /// Makes the call on a text, and adds what it returns.
    fn once(&mut self, text: &[u8], seen: &mut Seen);
}

/// No call: what the turns themselves take.
#[derive(Drop)]
pub struct Nothing;

impl Call<u64> for Nothing {
    #[inline(always)]
    fn once(&mut self, text: &[u8], seen: &mut Seen) {
        seen.take_place(text.len());
    }
}

/// Makes a call `turns` times, each time on another copy of its text. This stays a function of its
/// own, since callgrind is asked for a count at its end.
#[inline(never)]
pub fn take_turns<T, C: Call<T>>(call: &mut C, texts: &[u8], size: usize, turns: usize) -> Seen {
    let mut seen = Seen::new();
    for turn in 0..turns {
        let start = turn.wrapping_mul(size);
        let text = texts.get(start..start.wrapping_add(size)).unwrap_or(&[]);
        call.once(text, &mut seen);
    }
    seen
}

/// What a call returns once. Then it is made for few and for many turns, each of which has to
/// return the same.
#[inline(never)]
pub fn counted<T, C: Call<T>>(call: &mut C, texts: &[u8], size: usize) -> Option<Seen> {
    let once = take_turns(call, texts, size, 1);
    let few = take_turns(call, texts, size, FEW);
    let many = take_turns(call, texts, size, MANY);
    let is_alike = few == once.times(FEW as u64) && many == once.times(MANY as u64);
    is_alike.then_some(once)
}
