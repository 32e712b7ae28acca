//! A file that the words name, as a source.
ghost use Rattle.std.specs.Prelude.{◌≡◌, ◌≤◌, length, IfOk};

use crate::adapters::read_source::read_some;
use icb_base::{Failed, Source};
use std::fs::File;
use std::io;
use std::rt::Files;

/// A file as a source, opened at the first read. It doesn't tell what is left. Where no file is named, or
/// it can't be opened, a read fails.
#[derive(Drop)]
pub struct FileSource<'a, R: Files<File = File>> {
    files: &'a R,
    path: Option<&'a str>,
    file: Option<File>,
    faults: u64,
}

impl<'a, R: Files<File = File>> FileSource<'a, R> {
    ghost use Rattle.std.specs.Prelude.{◌≡◌, ◌≤◌, length, IfOk};

    /// The file at this path. Nothing is opened yet.
    pub fn new(files: &'a R, path: Option<&'a str>) -> Self
        ensures { result.faults ≡ 0 }
    {
        FileSource {
            files,
            path,
            file: None,
            faults: 0,
        }
    }

    /// The file, which is opened where it isn't open.
    fn opened(&mut self) -> io::Result<File>
        ensures { self.new.faults ≡ self.old.faults }
    {
        match (self.file.take(), self.path) {
            (Some(file), _) => Ok(file),
            (None, Some(path)) => File::open(self.files, path),
            (None, None) => Err(io::Error::from(io::ErrorKind::NotFound)),
        }
    }

    /// One read of the file.
    fn read_file(&mut self, out: &mut [u8]) -> io::Result<usize>
        ensures faults { self.new.faults ≡ self.old.faults }
        ensures fits { IfOk result (λ count. count ≤ length out.new) }
    {
        let mut file = self.opened()?;
        let count = read_some(&mut file, out);
        self.file = Some(file);
        count
    }
}

impl<R: Files<File = File>> Source for FileSource<'_, R> {
    ghost use Rattle.std.specs.Prelude.{None};

    ghost left = { λ _. None };

    ghost faults = { λ source. source.faults };

    fn read(&mut self, out: &mut [u8]) -> Result<usize, Failed> {
        match self.read_file(out) {
            Ok(count) => Ok(count),
            Err(_) => {
                self.faults = self.faults.saturating_add(1);
                Err(Failed)
            }
        }
    }
}
