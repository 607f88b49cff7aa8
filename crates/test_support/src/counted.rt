//! A sink (the object to which an output is written) that counts the calls of its method `finish`.
ghost use Rattle.std.specs.Prelude.{None};

use autfmt::{Broken, Sink};

/// A sink that accepts all bytes, stores none of them, and counts the calls of its method `finish`.
#[derive(Drop)]
pub struct Counted {
    pub finished: u32,
}

impl Sink for Counted {
    ghost written = { λ _. None };

    ghost failures = { λ _. 0 };

    fn put(&mut self, b: &[u8]) -> Result<usize, Broken> {
        Ok(b.len())
    }

    fn finish(&mut self) -> Result<(), Broken> {
        self.finished = self.finished.saturating_add(1);
        Ok(())
    }

    fn failures(&self) -> u32 {
        0
    }
}
