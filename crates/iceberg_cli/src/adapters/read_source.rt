//! The standard input, and any other reader, as a source.
ghost use Rattle.std.specs.Prelude.{◌≤◌, length, IfOk};

use icb_base::{Failed, Source};
use std::io;
use std::io::{ErrorKind, Read, StdinLock};

/// A reader as a source. It doesn't tell what is left.
#[derive(Drop)]
pub struct ReadSource<R: Read + Drop> {
    from: R,
    faults: u64,
}

/// The standard input.
pub type StdinSource = ReadSource<StdinLock<'static>>;

impl<R: Read + Drop> ReadSource<R> {
    ghost use Rattle.std.specs.Prelude.{◌≡◌};

    /// A source of what the reader gives. Nothing is read yet.
    pub fn new(from: R) -> Self
        ensures { result.faults ≡ 0 }
    {
        ReadSource { from, faults: 0 }
    }
}

impl<R: Read + Drop> Source for ReadSource<R> {
    ghost use Rattle.std.specs.Prelude.{None};

    ghost left = { λ _. None };

    ghost faults = { λ source. source.faults };

    fn read(&mut self, out: &mut [u8]) -> Result<usize, Failed> {
        match read_some(&mut self.from, out) {
            Ok(count) => Ok(count),
            Err(_) => {
                self.faults = self.faults.saturating_add(1);
                Err(Failed)
            }
        }
    }
}

/// One read, which is tried again where a signal came between.
pub fn read_some<R: Read>(from: &mut R, out: &mut [u8]) -> io::Result<usize>
    ensures { IfOk result (λ count. count ≤ length out.new) }
{
    for _ in 0..u64::MAX {
        match from.read(out) {
            Ok(count) => return Ok(count),
            Err(e) if e.kind() == ErrorKind::Interrupted => {}
            Err(e) => return Err(e),
        }
    }
    Err(io::Error::from(ErrorKind::Interrupted))
}
