//! The random source of a core whose hash keys are the same each time.

use std::io;
use std::random::RandomSource;

/// A random source that gives this byte over and over: for scripts, which must run the same each time, and for tests.
#[derive(Clone, Copy, Debug)]
pub struct FixedSeed(pub u8);

impl RandomSource for FixedSeed {
    /// Fills the buffer with the one byte. It never fails.
    fn fill_bytes(&self, buf: &mut [u8]) -> io::Result<()> {
        buf.fill(self.0);
        Ok(())
    }
}
