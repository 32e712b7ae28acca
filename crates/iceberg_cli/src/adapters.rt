//! The real outside: a table's folder, the standard streams, and the system's random bytes. What they
//! hold or give can't be told, so only the counts of faults are proved here.

mod file_source;
mod folder_store;
mod print_sink;
mod read_source;
mod urandom_draws;

pub use file_source::FileSource;
pub use folder_store::FolderStore;
pub use print_sink::{PrintSink, StderrSink, StdoutSink};
pub use read_source::{ReadSource, StdinSource};
pub use urandom_draws::UrandomDraws;
