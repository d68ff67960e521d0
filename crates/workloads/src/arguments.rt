//! What the program is asked.

use lexical_parse_integer::FromLexical;
use std::env::Env;

/// The most bytes that an argument has here.
const LONGEST: usize = 32;

/// A job: its name, how many times its input is read, and the seed of that.
#[derive(Drop)]
pub struct Job {
    name: [u8; LONGEST],
    length: usize,
    pub passes: usize,
    pub seed: u64,
}

impl Job {
    /// Whether the job of a name is done.
    pub fn is(&self, name: &str) -> bool {
        match self.name.get(..self.length) {
            Some(asked) => asked == name.as_bytes() || asked == b"all".as_slice(),
            None => false,
        }
    }
}

// The number that an argument is.
fn number_of(rt: &impl Env, place: usize) -> Option<u64> {
    let mut bytes = [0; LONGEST];
    let length = rt.arg(place, &mut bytes).ok()?;
    u64::from_lexical(bytes.get(..length)?).ok()
}

/// The job that the arguments ask for.
pub fn job_of(rt: &impl Env) -> Option<Job> {
    let mut name = [0; LONGEST];
    let length = rt.arg(1, &mut name).ok()?;
    Some(Job {
        name,
        length,
        passes: usize::try_from(number_of(rt, 2)?).ok()?,
        seed: number_of(rt, 3)?,
    })
}
