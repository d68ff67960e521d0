//! Where the input is kept until it is all there.

ghost use Rattle.std.specs.Prelude.{◌≡◌, ◌++◌, ℕ, List, OnOk, OnErr};

use std::alloc::{AllocError, Allocator};

/// Bytes that grow at their end, as a `Vec` does. A test may refuse a growth.
pub trait Buffer: Drop {
    // The bytes that it holds.
    ghost contents: { Self → List ℕ };

    /// Adds the bytes at the end. After a refused growth it holds what it held.
    fn append(&mut self, bytes: &[u8]) -> Result<(), AllocError>
        ensures ok { OnOk result (contents self.new ≡ contents self.old ++ bytes.now) }
        ensures kept { OnErr result (contents self.new ≡ contents self.old) };

    /// The bytes that it holds.
    fn bytes(&self) -> &[u8]
        ensures { result.now ≡ contents self.now };
}

impl<A: Allocator> Buffer for Vec<u8, A> {
    ghost contents = { λ v. v.items };

    fn append(&mut self, bytes: &[u8]) -> Result<(), AllocError> {
        self.extend_from_slice(bytes)
    }

    fn bytes(&self) -> &[u8] {
        self.as_slice()
    }
}
