//! A sink over a writer of the system, such as standard output.
ghost use Rattle.std.specs.Prelude.{◌≡◌, None};

use gp_outside::{Out, Written};
use std::io::Write;

/// A writer, as a sink. It doesn't tell what was written, and counts its faults.
#[derive(Drop)]
pub struct NetOut<W: Write + Drop> {
    inner: W,
    faults: u64,
}

impl<W: Write + Drop> NetOut<W> {
    /// A sink over a writer, without a fault so far.
    pub fn new(inner: W) -> NetOut<W>
        ensures { result.faults ≡ 0 }
    {
        NetOut { inner, faults: 0 }
    }
}

impl<W: Write + Drop> Out for NetOut<W> {
    ghost tells = { λ s. record { written = None; faults = s.faults } };

    fn write(&mut self, from: &[u8]) -> Written {
        match self.inner.write(from) {
            Ok(count) if count > 0 => Written::Took(count),
            _ => {
                self.faults = self.faults.saturating_add(1);
                Written::Failed
            }
        }
    }
}
