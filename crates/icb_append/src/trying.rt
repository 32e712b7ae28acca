//! What an append makes of a version that it read, and what refuses it.
ghost use Rattle.std.specs.Prelude.{◌≤◌, ◌^◌};
ghost use Rattle.icb_append.specs.Tried.{Tries};

use crate::reading::{next_id, wrapper_for};
use crate::tried::Tried;
use icb_chain::Keyring;
use icb_meta::TableMeta;
use icb_turns::JobFault;
use std::alloc::Global;

impl Tried {
    /// The version of this number and with this metadata, to which so many rows are to be added, or the first
    /// refusal.
    pub fn of(
        alloc: Global,
        meta: TableMeta,
        ring: &Keyring,
        version: u64,
        rows: u64,
    ) -> Result<Tried, JobFault>
        requires { rows ≤ 2 ^ 62 }
        ensures { Tries meta ring.now version rows result }
    {
        let wrapper = match wrapper_for(alloc, &meta, ring, version, rows) {
            Ok(wrapper) => wrapper,
            Err(fault) => return Err(fault),
        };
        let Some(id) = next_id(&meta) else {
            return Err(JobFault::NoMemory);
        };
        Ok(Tried {
            version,
            meta,
            wrapper,
            id,
            rows,
        })
    }
}
