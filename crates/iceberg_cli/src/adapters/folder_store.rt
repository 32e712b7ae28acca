//! A table's folder as a store: the object at `data/x` is the file `data/x` below the folder.
//!
//! A put writes a new file in the object's folder, syncs it, and links it to the object's name, which
//! fails where the name is taken. So a crash, a full disk or a second writer leaves the old state or
//! the whole object. The new file's own name begins with `~`, which no object path has.
//!
//! What a signal came between is called again, here or by the standard library; the link alone isn't,
//! since a second one couldn't tell the first one's file from another's.

ghost use Rattle.std.specs.Prelude.{◌≤◌, length, IfOk};

use icb_base::{Failed, ObjPath, Put, Store};
use std::alloc::Global;
use std::fs::File;
use std::io::{ErrorKind, Write};
use std::os::unix::fs::FileExt;
use std::path::{Path, PathBuf};
use std::rt::Files;
use std::{fs, io};

/// The file of an object, open.
#[derive(Drop)]
struct Opened {
    path: ObjPath,
    file: File,
}

/// A folder as a store. It doesn't tell what it holds.
#[derive(Drop)]
pub struct FolderStore<'a, R: Files<File = File>> {
    files: &'a R,
    alloc: Global,
    folder: &'a str,
    faults: u64,
    /// The file that was read last, so that the blocks of one object are read from one open file.
    opened: Option<Opened>,
}

impl<'a, R: Files<File = File>> FolderStore<'a, R> {
    ghost use Rattle.std.specs.Prelude.{◌≡◌, ◌≤◌, length, IfOk, IfSome};
    ghost use Rattle.icb_base.specs.Causes.{HasCause};

    /// A store of the files in a folder, the empty one being that in which the program runs. Nothing is
    /// opened yet.
    pub fn new(files: &'a R, alloc: Global, folder: &'a str) -> Self
        ensures { result.faults ≡ 0 }
    {
        FolderStore {
            files,
            alloc,
            folder: if folder.is_empty() { "." } else { folder },
            faults: 0,
            opened: None,
        }
    }

    /// A call's answer, whose error is counted.
    fn counted<T>(&mut self, answer: io::Result<T>) -> Result<T, Failed>
        ensures value { IfOk result (λ value. answer ≡ Ok value) }
        ensures cause { HasCause self.old.faults self.new.faults result }
    {
        match answer {
            Ok(value) => Ok(value),
            Err(_) => {
                self.faults = self.faults.saturating_add(1);
                Err(Failed)
            }
        }
    }

    /// The file of an object.
    fn full_path(&self, path: &ObjPath) -> io::Result<PathBuf> {
        Ok(Path::new(self.folder).join(self.alloc, path.as_str())?)
    }

    /// The length of an object in bytes, where one is held.
    fn length(&self, path: &ObjPath) -> io::Result<Option<u64>> {
        file_length(self.files, self.full_path(path)?.as_path())
    }

    /// Whether the file that is open is that of this object.
    fn has_open(&self, path: &ObjPath) -> bool {
        match &self.opened {
            Some(opened) => opened.path.as_str() == path.as_str(),
            None => false,
        }
    }

    /// Opens the file of an object, in place of the one that was open, and says whether one is held.
    fn open(&mut self, path: &ObjPath) -> io::Result<bool>
        ensures { self.new.faults ≡ self.old.faults }
    {
        self.opened = None;
        let full = self.full_path(path)?;
        if file_length(self.files, full.as_path())?.is_none() {
            return Ok(false);
        }
        let file = File::open(self.files, full.as_path())?;
        let Ok(path) = path.copy(self.alloc) else {
            return Err(io::Error::from(ErrorKind::OutOfMemory));
        };
        self.opened = Some(Opened { path, file });
        Ok(true)
    }

    /// Fills the front of `out` with an object's bytes from the place `at` on.
    fn read(&mut self, path: &ObjPath, at: u64, out: &mut [u8]) -> io::Result<Option<usize>>
        ensures count { IfOk result (λ answer. IfSome answer (λ n. n ≤ length out.new)) }
        ensures faults { self.new.faults ≡ self.old.faults }
    {
        if !self.has_open(path) && !self.open(path)? {
            return Ok(None);
        }
        match &self.opened {
            Some(opened) => Ok(Some(read_front(&opened.file, at, out)?)),
            None => Ok(None),
        }
    }

    /// Puts an object where none is held. All that can be refused is asked for before the link: behind
    /// it only the sync of the folder can fail, and the object is held then.
    fn put(&self, path: &ObjPath, bytes: &[u8]) -> io::Result<Put> {
        let target = self.full_path(path)?;
        if file_length(self.files, target.as_path())?.is_some() {
            return Ok(Put::Taken);
        }
        let folder = folder_of(target.as_path());
        make_folders(self.files, self.alloc, folder)?;
        let opened = File::open(self.files, folder)?;
        let temporary = create_temporary(self.files, self.alloc, folder, bytes)?;
        let linked = link(self.files, temporary.as_path(), target.as_path());
        // A temporary file that stays is in nobody's way.
        let _ = fs::remove_file(self.files, temporary.as_path());
        if let Ok(Put::Done) = linked {
            opened.sync_all()?;
        }
        linked
    }
}

impl<R: Files<File = File>> Store for FolderStore<'_, R> {
    ghost use Rattle.std.specs.Prelude.{None};

    ghost held = { λ _. None };

    ghost asked = { λ _ _. 0 };

    ghost moved = { λ _ _. 0 };

    ghost faults = { λ store. store.faults };

    ghost unasked = { λ _. tt };

    ghost unmoved = { λ _. tt };

    ghost kept_at_rest = { λ _. tt };

    ghost kept_twice = { λ _ _ _ _ _. tt };

    fn size(&mut self, path: &ObjPath) -> Result<Option<u64>, Failed> {
        let answer = self.length(path);
        self.counted(answer)
    }

    fn read_at(
        &mut self,
        path: &ObjPath,
        at: u64,
        out: &mut [u8],
    ) -> Result<Option<usize>, Failed> {
        let answer = self.read(path, at, out);
        self.counted(answer)
    }

    fn put_new(&mut self, path: &ObjPath, bytes: &[u8]) -> Result<Put, Failed> {
        let answer = self.put(path, bytes);
        self.counted(answer)
    }
}

/// A call that a signal may come between, made again until none does.
fn again<T, F: Fn() -> io::Result<T>>(call: F) -> io::Result<T>
    requires { F.IsAlwaysCallable call }
{
    for _ in 0..u64::MAX {
        match call() {
            Ok(value) => return Ok(value),
            Err(e) if e.kind() == ErrorKind::Interrupted => {}
            Err(e) => return Err(e),
        }
    }
    Err(io::Error::from(ErrorKind::Interrupted))
}

/// The folder of a file or folder, by its path.
fn folder_of(path: Path<'_>) -> Path<'_> {
    match path.parent() {
        Some(folder) if !folder.as_str().is_empty() => folder,
        _ => Path::new("."),
    }
}

/// Makes a folder and those on the way to it, where they aren't there.
fn make_folders<R: Files<File = File>>(
    files: &R,
    alloc: Global,
    folder: Path<'_>,
) -> io::Result<()> {
    let mut made = PathBuf::new(alloc);
    for part in folder.components() {
        made.push(part.as_os_str())?;
        make_folder(files, made.as_path())?;
    }
    Ok(())
}

/// Makes a folder where it isn't there, and syncs the one in which it is made: else a crash could lose
/// it with all that is put into it.
fn make_folder<R: Files<File = File>>(files: &R, folder: Path<'_>) -> io::Result<()> {
    if folder.is_dir(files) {
        return Ok(());
    }
    match again(|| fs::create_dir(files, folder)) {
        Ok(()) => File::open(files, folder_of(folder))?.sync_all(),
        // Another writer made it.
        Err(e) if e.kind() == ErrorKind::AlreadyExists => Ok(()),
        Err(e) => Err(e),
    }
}

/// The length of the file at a path, or None where there is none, also where a folder on the way is
/// missing or a file. What is there and is no file is an error.
fn file_length<R: Files>(files: &R, path: Path<'_>) -> io::Result<Option<u64>> {
    match again(|| fs::metadata(files, path)) {
        Ok(found) if found.is_file() => Ok(Some(found.len())),
        Ok(_) => Err(io::Error::from(ErrorKind::IsADirectory)),
        Err(e) if e.kind() == ErrorKind::NotFound || e.kind() == ErrorKind::NotADirectory => {
            Ok(None)
        }
        Err(e) => Err(e),
    }
}

/// Fills the front of `out` with a file's bytes from the place `at` on, as many as there are. It reads until
/// `out` is full or the file ends, since one read may give fewer bytes.
fn read_front(file: &File, at: u64, out: &mut [u8]) -> io::Result<usize>
    ensures { IfOk result (λ n. n ≤ length out.new) }
{
    let mut filled = 0;
    for _ in 0..u64::MAX {
        if filled == out.len() {
            break;
        }
        match file.read_at(&mut out[filled..], at.saturating_add(filled as u64)) {
            Ok(0) => break,
            Ok(n) => filled += n,
            Err(e) if e.kind() == ErrorKind::Interrupted => {}
            Err(e) => return Err(e),
        }
    }
    Ok(filled)
}

/// Writes the bytes to a new file of the folder and syncs it. Names that are taken are passed over.
fn create_temporary<R: Files<File = File>>(
    files: &R,
    alloc: Global,
    folder: Path<'_>,
    bytes: &[u8],
) -> io::Result<PathBuf> {
    for number in 0..u64::MAX {
        let name = format!(in alloc; "~{number}")?;
        let temporary = folder.join(alloc, name.as_str())?;
        match File::create_new(files, temporary.as_path()) {
            Ok(file) => {
                fill(files, file, temporary.as_path(), bytes)?;
                return Ok(temporary);
            }
            Err(e) if e.kind() == ErrorKind::AlreadyExists => {}
            Err(e) => return Err(e),
        }
    }
    Err(io::Error::from(ErrorKind::AlreadyExists))
}

/// Writes the bytes to a temporary file and syncs it; where that fails the file is removed.
fn fill<R: Files<File = File>>(
    files: &R,
    mut file: File,
    path: Path<'_>,
    bytes: &[u8],
) -> io::Result<()> {
    let written = match file.write_all(bytes) {
        Ok(()) => file.sync_all(),
        Err(e) => Err(e),
    };
    if written.is_err() {
        let _ = fs::remove_file(files, path);
    }
    written
}

/// Gives a finished file the object's name, unless it is taken.
fn link<R: Files>(files: &R, temporary: Path<'_>, target: Path<'_>) -> io::Result<Put> {
    match fs::hard_link(files, temporary, target) {
        Ok(()) => Ok(Put::Done),
        Err(e) if e.kind() == ErrorKind::AlreadyExists => match file_length(files, target)? {
            Some(_) => Ok(Put::Taken),
            None => Err(e),
        },
        Err(e) => Err(e),
    }
}
