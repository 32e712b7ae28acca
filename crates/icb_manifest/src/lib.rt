//! Manifests: their entries by the ids of their fields, whoever wrote them, read over any reader,
//! and writing them.
#![tactic(auto)]

mod entry;
mod file;
mod laws;
mod manifest;
mod maps;
mod nodes;
mod values;
mod writing;

pub use entry::Entry;
pub use file::DataFile;
pub use laws::entries_read_back;
pub use manifest::{Manifest, ManifestFault};
pub use writing::write_manifest;
