//! The status of why a job ended without a version of its own.
ghost use Rattle.std.specs.Prelude.{◌≡◌};
ghost use Rattle.icb_run.specs.Jobs.{status_of_job};

use crate::scan_status::tree_status;
use crate::status::Status;
use icb_turns::JobFault;

/// The status of a job's fault.
pub fn job_status(fault: JobFault) -> Status
    ensures { result ≡ status_of_job fault }
{
    match fault {
        JobFault::NoTable => Status::NoTable,
        JobFault::BadMeta { field } => Status::BadMeta { field },
        JobFault::BadInput { line, row: _ } => Status::BadInput { line },
        JobFault::Cannot { what } => Status::Cannot { what },
        JobFault::SameKey { id } => Status::SameKey { id },
        JobFault::KeyName { id } => Status::KeyName { id },
        JobFault::Tree(fault) => tree_status(fault),
        JobFault::NameTaken { path } => Status::NameTaken { path },
        JobFault::Contended { versions } => Status::Contended { versions },
        JobFault::Limit { what, number } => Status::Limit { what, number },
        JobFault::Random => Status::RandomFault,
        JobFault::Store => Status::StoreFault,
        JobFault::NoMemory => Status::NoMemory,
    }
}
