//! The program `iceberg`: words in, a command's work on the table, and its status.
#![tactic(auto)]

ghost use Rattle.std.specs.Prelude.{◌<◌, ◌^◌};

mod adapters;

use adapters::{FileSource, FolderStore, PrintSink, ReadSource, UrandomDraws};
use icb_base::MemStore;
use icb_run::run;
use icb_words::places;
use std::process::ExitCode;
use std::time::{SystemTime, UNIX_EPOCH};
use std::{env, io};

/// Runs the command that the program's words are, over the folder that they name.
fn main(rt: HostRuntime) -> ExitCode {
    match command_words(&rt) {
        Ok(words) => ExitCode::from(run_over_folders(&rt, words.as_slice())),
        Err(e) if e.kind() == io::ErrorKind::OutOfMemory => ended(&rt, "NoMemory", 40),
        Err(_) => ended(&rt, "Usage: a word isn't UTF-8", 2),
    }
}

/// Ends with a line where there are no words to run.
fn ended(rt: &HostRuntime, line: &str, number: u8) -> ExitCode {
    let _ = rt.eprintln(line);
    ExitCode::from(number)
}

/// The words behind the program's own name. It fails where one isn't UTF-8.
fn command_words(rt: &HostRuntime) -> io::Result<Vec<String>> {
    let mut words = Vec::new(rt.alloc());
    for word in env::args(rt)?.skip(1) {
        words.push(word)?;
    }
    Ok(words)
}

/// Runs a command over the folder of its table, the standard streams and the system's random bytes, and
/// gives its exit number. No command reads another store yet, so that is empty.
fn run_over_folders(rt: &HostRuntime, words: &[String]) -> u8 {
    let alloc = rt.alloc();
    let places = places(words);
    let mut table = FolderStore::new(rt, alloc, places.table.unwrap_or(""));
    let mut genuine = MemStore::new(alloc, Vec::new(alloc));
    let mut out = PrintSink::new(rt.stdout());
    let mut err = PrintSink::new(rt.stderr());
    let status = run(
        alloc,
        words,
        &mut table,
        &mut genuine,
        &mut ReadSource::new(rt.stdin().lock()),
        &mut FileSource::new(rt, places.keys),
        &mut FileSource::new(rt, places.metadata),
        &mut UrandomDraws::new(rt, "/dev/urandom"),
        now_ms(rt),
        &mut out,
        &mut err,
    );
    status.number()
}

/// The time in milliseconds since 1970, below 2^63. Where the clock can't be read it is 0.
fn now_ms(rt: &HostRuntime) -> u64
    ensures { result < 2 ^ 63 }
{
    let Ok(now) = SystemTime::now(rt) else {
        return 0;
    };
    match now.duration_since(UNIX_EPOCH) {
        Ok(since) if since.as_millis() < 1 << 63 => since.as_millis() as u64,
        _ => 0,
    }
}
