//! Reading an input to its end.
ghost use Rattle.std.specs.Prelude.{◌≡◌, ◌≢◌, ◌+◌, ◌^◌, ◌<◌, ◌≤◌, ◌++◌, [], Some, length, vec_len, Ok, Err, IfOk, IfSome};
ghost use Rattle.icb_base.specs.Causes.{Blames};
ghost use Rattle.icb_run.specs.Inputs.{ReadsAll, Splits, status_of_read};

use crate::status::Status;
use icb_base::{Bytes, Failed, Limited, Source};
use std::alloc::Global;

/// The most bytes that an input may have.
pub const INPUT_LIMIT: u64 = 67108864;

/// Why an input isn't read to its end.
#[derive(Clone, Copy, Debug, PartialEq, Eq)]
pub enum ReadFault {
    /// A read failed.
    Input,
    /// There are more bytes than the limit.
    Limit,
    /// No memory was left.
    NoMemory,
}

/// Reads an input to its end, or to one byte past the limit.
pub fn read_to_end<I: Source>(
    alloc: Global,
    input: &mut I,
    limit: usize,
) -> Result<Bytes, ReadFault>
    requires { limit < 2 ^ 62 }
    ensures read { IfSome (I.left input.old) (λ left.
        ReadsAll left limit (I.left input.new) result) }
    ensures fits { IfOk result (λ bytes. length bytes ≤ limit) }
    ensures count { Blames (result ≡ Err ReadFault.Input)
        (I.faults input.old) (I.faults input.new) }
{
    let mut bytes = Vec::new(alloc);
    while bytes.len() <= limit {
        match read_piece(input, limit + 1 - bytes.len(), &mut bytes) {
            Ok(0) => return Ok(Bytes::from_vec(bytes)),
            Ok(_) => {}
            Err(fault) => return Err(fault),
        }
    }
    Err(ReadFault::Limit)
}

/// Reads a piece of at most so many bytes and adds it to the bytes; says how many. There are none only
/// at the end of the input.
fn read_piece<I: Source>(
    input: &mut I,
    most: usize,
    bytes: &mut Vec<u8>,
) -> Result<usize, ReadFault>
    requires { 1 ≤ most }
    ensures splits { IfSome (I.left input.old) (λ left. IfOk result (λ count.
        Splits (bytes.old.items ++ left) bytes.new.items (I.left input.new))) }
    ensures ends { IfSome (I.left input.old) (λ left. result ≡ Ok 0
        → (left ≡ []) × (I.left input.new ≡ Some [])) }
    ensures grows { IfOk result (λ count.
        (vec_len bytes.new ≡ vec_len bytes.old + count) × (count ≤ most)) }
    ensures kept { result ≡ Ok 0 → bytes.new.items ≡ bytes.old.items }
    ensures no_limit { result ≢ Err ReadFault.Limit }
    ensures count { Blames (result ≡ Err ReadFault.Input)
        (I.faults input.old) (I.faults input.new) }
{
    let mut room = [0; 4096];
    let piece = most.min(room.len());
    let count = match input.read(&mut room[..piece]) {
        Ok(count) => count,
        Err(Failed) => return Err(ReadFault::Input),
    };
    if bytes.extend_from_slice(&room[..count]).is_err() {
        return Err(ReadFault::NoMemory);
    }
    Ok(count)
}

/// The status of an input that isn't read to its end.
pub fn read_status(fault: ReadFault) -> Status
    ensures { result ≡ status_of_read fault }
{
    match fault {
        ReadFault::Input => Status::InputFault,
        ReadFault::Limit => Status::Limit {
            what: Limited::Input,
            number: INPUT_LIMIT,
        },
        ReadFault::NoMemory => Status::NoMemory,
    }
}
