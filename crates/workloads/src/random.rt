//! Numbers that look random, from a seed: by the generator SplitMix64 of Steele, Lea and Flood.

/// A generator of numbers.
#[derive(Drop)]
pub struct Random {
    state: u64,
}

impl Random {
    /// A generator that starts from a seed and the number of a job, so that each job has its own
    /// numbers.
    pub fn new(seed: u64, job: u64) -> Random {
        Random {
            state: seed.wrapping_mul(0x100).wrapping_add(job),
        }
    }

    /// The next number.
    pub fn next(&mut self) -> u64 {
        self.state = self.state.wrapping_add(0x9e37_79b9_7f4a_7c15);
        let mut mixed = self.state;
        mixed = (mixed ^ (mixed >> 30)).wrapping_mul(0xbf58_476d_1ce4_e5b9);
        mixed = (mixed ^ (mixed >> 27)).wrapping_mul(0x94d0_49bb_1331_11eb);
        mixed ^ (mixed >> 31)
    }

    /// A number below `bound`, or 0 if `bound` is 0.
    pub fn below(&mut self, bound: u64) -> u64 {
        let number = self.next();
        if bound == 0 { 0 } else { number % bound }
    }

    /// A number from `least` to `most`.
    pub fn between(&mut self, least: usize, most: usize) -> usize {
        let span = most.saturating_sub(least) as u64;
        let chosen = self.below(span.saturating_add(1));
        least.saturating_add(chosen as usize)
    }

    /// How many digits a number has, as in users' data: of a hundred numbers 70 have one to four
    /// digits, 25 have five to ten, and 5 have eleven to `most`.
    pub fn realistic(&mut self, most: usize) -> usize {
        match self.below(100) {
            0..=69 => self.between(1, 4),
            70..=94 => self.between(5, 10),
            _ => self.between(11, most),
        }
    }

    /// `true` in `many` of a hundred cases.
    pub fn percent(&mut self, many: u64) -> bool {
        self.below(100) < many
    }
}
