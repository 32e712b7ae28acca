//! The paths of an append's files.
ghost use Rattle.std.specs.Prelude.{◌≡◌, IfOk};
ghost use Rattle.icb_append.specs.Paths.{data_path, list_path, manifest_path, zeros};

use icb_base::{NoMemory, ObjPath};
use std::alloc::Global;

/// The path of the append's data file of this number.
pub fn data_path(alloc: Global, unique: &[u8; 16], number: u32) -> Result<ObjPath, NoMemory>
    ensures { IfOk result (λ path. path ≡ data_path unique.now number) }
{
    let digits = hex::encode(alloc, unique)?;
    let zeros = zeros(number);
    let text = format!(in alloc; "data/{digits}-{zeros}{number}.avro")?;
    read_path(alloc, text.as_str())
}

/// The path of the append's manifest.
pub fn manifest_path(alloc: Global, unique: &[u8; 16]) -> Result<ObjPath, NoMemory>
    ensures { IfOk result (λ path. path ≡ manifest_path unique.now) }
{
    let digits = hex::encode(alloc, unique)?;
    let text = format!(in alloc; "metadata/{digits}-m0.avro")?;
    read_path(alloc, text.as_str())
}

/// The path of the list of a snapshot that the append tries to commit.
pub fn list_path(
    alloc: Global,
    unique: &[u8; 16],
    snapshot: u64,
    attempt: u32,
) -> Result<ObjPath, NoMemory>
    ensures { IfOk result (λ path. path ≡ list_path unique.now snapshot attempt) }
{
    let digits = hex::encode(alloc, unique)?;
    let text = format!(in alloc; "metadata/snap-{snapshot}-{attempt}-{digits}.avro")?;
    read_path(alloc, text.as_str())
}

/// The zeros in front of a number that has fewer than 5 digits.
fn zeros(number: u32) -> &'static str
    ensures { result.now ≡ zeros number }
{
    match number {
        0..=9 => "0000",
        10..=99 => "000",
        100..=999 => "00",
        1000..=9999 => "0",
        _ => "",
    }
}

/// The path that a text is. A text that is none isn't told from want of memory.
fn read_path(alloc: Global, text: &str) -> Result<ObjPath, NoMemory>
    ensures { IfOk result (λ path. path ≡ text.now) }
{
    match ObjPath::read(alloc, text.as_bytes()) {
        Ok(path) => Ok(path),
        Err(_) => Err(NoMemory),
    }
}
