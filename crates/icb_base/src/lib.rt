//! The outside as the store sees it (objects, input, output, random bytes, readers at a place), in
//! memory too, and the small types that every crate shares. It knows nothing of formats or ciphers.
#![tactic(auto)]

mod byte_list;
mod fuse_store;
mod key_metadata;
mod laws;
mod limits;
mod memory_bytes;
mod memory_objects;
mod object_path;
mod reading;
mod rng_draws;
mod storage;
mod transfer;

pub use byte_list::{Bytes, NoMemory};
pub use fuse_store::FuseStore;
pub use key_metadata::{KeyMeta, KeyMetaFault};
pub use laws::{
    calls_are_counted, drawn_texts_join, faults_are_blamed, fronts_join, knowledge_is_ordered,
    known_is_filled, store_calls_join, stores_grow, taken_texts_join, written_texts_join,
};
pub use limits::Limited;
pub use memory_bytes::{ByteDraws, MemSink, MemSource, SliceReader};
pub use memory_objects::MemStore;
pub use object_path::{ObjPath, PathFault};
pub use reading::ReadAt;
pub use rng_draws::RngDraws;
pub use storage::{Failed, Put, Remover, Store};
pub use transfer::{Draws, Sink, Source};
