//! Writing key metadata.
ghost use Rattle.std.specs.Prelude.{◌≡◌, ◌++◌, ◌<◌, ◌^◌, ◌∷◌, [], length, option_map, pos, IfOk, OnOk, Ok};
ghost use Rattle.std.specs.Option.{ForSome};
ghost use Rattle.icb_avro.specs.Writing.{written_bytes, written_long};
ghost use Rattle.icb_base.specs.KeyMetadata.{IsKeyRecord};
ghost use Rattle.icb_keymeta.specs.Decoded.{key_metadata_of};
ghost use Rattle.icb_keymeta.specs.Encoded.{encoded, written_optional};

use icb_avro::Value;
use icb_base::{Bytes, KeyMeta, NoMemory};
use icb_schema::{Kind, Node, Octets};
use std::alloc::Global;

/// The version of key metadata.
const VERSION: u8 = 1;

/// The written form, with the shortest numbers, which is read back.
pub fn encode(alloc: Global, meta: &KeyMeta) -> Result<Bytes, NoMemory>
    ensures bytes { IfOk result (λ bytes. bytes ≡ encoded meta.now) }
    ensures read_back { IfOk result (λ bytes. key_metadata_of bytes ≡ Ok meta.now) }
{
    let mut out = Octets::new(alloc);
    match put(meta, &mut out) {
        Ok(()) => Ok(Bytes::from_vec(out.into_vec())),
        Err(_) => Err(NoMemory),
    }
}

/// Appends key metadata.
fn put(meta: &KeyMeta, out: &mut Octets) -> Result<(), icb_schema::NoMemory>
    ensures written { OnOk result (out.new ≡ out.old ++ encoded meta.now) }
    ensures below { OnOk result (ForSome meta.now.prefix (λ p. length p < 2 ^ 63)) }
    ensures form { OnOk result (IsKeyRecord meta.now.key meta.now.length_told) }
{
    out.push(VERSION)?;
    put_bytes(meta.key(), out)?;
    put_prefix(meta.prefix(), out)?;
    put_length(meta.length(), out)
}

/// Appends the prefix, where it is told.
fn put_prefix(prefix: Option<&[u8]>, out: &mut Octets) -> Result<(), icb_schema::NoMemory>
    ensures written { OnOk result (out.new ≡ out.old
        ++ written_optional written_bytes (option_map (λ prefix. prefix.now) prefix.entry)) }
    ensures below { ForSome (option_map (λ prefix. prefix.now) prefix.entry)
        (λ p. length p < 2 ^ 63) }
{
    let Some(prefix) = prefix else {
        return put_long(0, out);
    };
    put_long(1, out)?;
    put_bytes(prefix, out)
}

/// Appends the length, where it is told.
fn put_length(length: Option<u64>, out: &mut Octets) -> Result<(), icb_schema::NoMemory>
    requires { ForSome length (λ n. n < 2 ^ 63) }
    ensures { OnOk result (out.new
        ≡ out.old ++ written_optional (λ n. written_long (pos n)) length) }
{
    let Some(length) = length else {
        return put_long(0, out);
    };
    put_long(1, out)?;
    put_long(length, out)
}

/// Appends the number of the bytes, and the bytes.
fn put_bytes(bytes: &[u8], out: &mut Octets) -> Result<(), icb_schema::NoMemory>
    ensures { OnOk result (out.new ≡ out.old ++ written_bytes bytes.now) }
{
    put_long(bytes.len() as u64, out)?;
    out.extend_from_slice(bytes)
}

/// Appends a number below 2^63, whose bytes follow from it alone.
#[tactic(auto, using(icb_avro::proofs::WriteLemmas::written_Long))]
fn put_long(number: u64, out: &mut Octets) -> Result<(), icb_schema::NoMemory>
    requires { number < 2 ^ 63 }
    ensures { OnOk result (out.new ≡ out.old ++ written_long (pos number)) }
{
    let node = Node {
        kind: Kind::Long,
        logical: None,
        utc: None,
    };
    icb_avro::encode(&node, &Value::Long(number as i64), out)
}
