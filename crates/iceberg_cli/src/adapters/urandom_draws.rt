//! Random bytes from the operating system.

use icb_base::{Draws, Failed};
use std::fs::File;
use std::io;
use std::io::Read;
use std::rt::Files;

/// Bytes of a file of random bytes, such as `/dev/urandom`. It doesn't tell what was drawn.
#[derive(Drop)]
pub struct UrandomDraws<'a, R: Files<File = File>> {
    files: &'a R,
    path: &'a str,
    file: Option<File>,
    faults: u64,
}

impl<'a, R: Files<File = File>> UrandomDraws<'a, R> {
    ghost use Rattle.std.specs.Prelude.{◌≡◌};

    /// Random bytes from the file at this path, which is opened at the first draw.
    pub fn new(files: &'a R, path: &'a str) -> Self
        ensures { result.faults ≡ 0 }
    {
        UrandomDraws {
            files,
            path,
            file: None,
            faults: 0,
        }
    }

    /// Fills the whole of `out`, over as many reads as it takes; a file that ends before fails.
    fn draw(&mut self, out: &mut [u8]) -> io::Result<()>
        ensures { self.new.faults ≡ self.old.faults }
    {
        let mut file = match self.file.take() {
            Some(file) => file,
            None => File::open(self.files, self.path)?,
        };
        let filled = file.read_exact(out);
        self.file = Some(file);
        filled
    }
}

impl<R: Files<File = File>> Draws for UrandomDraws<'_, R> {
    ghost use Rattle.std.specs.Prelude.{None};

    ghost drawn = { λ _. None };

    ghost faults = { λ draws. draws.faults };

    fn fill(&mut self, out: &mut [u8]) -> Result<(), Failed> {
        match self.draw(out) {
            Ok(()) => Ok(()),
            Err(_) => {
                self.faults = self.faults.saturating_add(1);
                Err(Failed)
            }
        }
    }
}
