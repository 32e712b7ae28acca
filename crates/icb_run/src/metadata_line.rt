//! Key metadata as a line of hexadecimal digits.
ghost use Rattle.std.specs.Prelude.{◌≡◌, string_bytes, IfOk};
ghost use Rattle.icb_run.specs.SealFile.{IsLineOf, meta_line};

use icb_base::{KeyMeta, NoMemory};
use std::alloc::Global;

/// The line of key metadata: its bytes in lower-case hexadecimal digits, which are read back.
pub fn metadata_line(alloc: Global, meta: &KeyMeta) -> Result<String, NoMemory>
    ensures text { IfOk result (λ line. string_bytes line ≡ meta_line meta.now) }
    ensures read_back { IfOk result (λ line. IsLineOf meta.now (string_bytes line)) }
{
    let bytes = icb_keymeta::encode(alloc, meta)?;
    let digits = hex::encode(alloc, bytes.as_slice())?;
    let line = format!(in alloc; "{digits}\n")?;
    Ok(line)
}
