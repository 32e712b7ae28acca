//! The standard output and the standard error as sinks.

use icb_base::{Failed, Sink};
use std::io::{Stderr, Stdout};

/// A sink that prints. It doesn't tell what was written.
#[derive(Drop)]
pub struct PrintSink<P: Print> {
    to: P,
    faults: u64,
}

/// The standard output.
pub type StdoutSink = PrintSink<Stdout>;

/// The standard error.
pub type StderrSink = PrintSink<Stderr>;

impl<P: Print> PrintSink<P> {
    ghost use Rattle.std.specs.Prelude.{◌≡◌};

    /// A sink that prints to `to`.
    pub fn new(to: P) -> Self
        ensures { result.faults ≡ 0 }
    {
        PrintSink { to, faults: 0 }
    }
}

impl<P: Print> Sink for PrintSink<P> {
    ghost use Rattle.std.specs.Prelude.{None};

    ghost written = { λ _. None };

    ghost faults = { λ sink. sink.faults };

    fn write(&mut self, bytes: &[u8]) -> Result<(), Failed> {
        match self.to.write_all(bytes) {
            Ok(()) => Ok(()),
            Err(_) => {
                self.faults = self.faults.saturating_add(1);
                Err(Failed)
            }
        }
    }
}
