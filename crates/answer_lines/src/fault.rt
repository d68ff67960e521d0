//! Why a run did not end well.

ghost use Rattle.std.specs.Prelude.{◌≡◌};
ghost use Rattle.answer_lines.specs.Fault.{message_of};

/// Why a run did not end well. Each is returned only if the call met its cause.
#[derive(Debug, PartialEq, Eq, Drop)]
pub enum RunError {
    /// A read was refused, or 4,294,967,296 reads didn't reach the end of the input.
    Read,
    /// A write or a flush was refused.
    Write,
    /// A growth of the input buffer was refused.
    Memory,
}

impl RunError {
    /// The text that `main` prints, without its line feed.
    pub fn message(&self) -> &'static str
        ensures { result.now ≡ message_of self.now }
    {
        match self {
            RunError::Read => "lexint: read failed",
            RunError::Write => "lexint: write failed",
            RunError::Memory => "lexint: out of memory",
        }
    }
}
