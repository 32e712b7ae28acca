//! Values as bytes.
ghost use Rattle.std.specs.Prelude.{◌≡◌, ◌+◌, ◌*◌, [], ◌∷◌, ◌++◌, ◌<◌, ◌^◌, List, ℕ, true, map, pos, length, Ok, if◌then◌else◌, OnOk, OnErr};
ghost use Rattle.icb_schema.specs.Shape.{arrays_take_bytes, shape_of};
ghost use Rattle.icb_avro.specs.Reading.{value_at};
ghost use Rattle.icb_avro.specs.Writing.{Appends, Fits, all_written, entries_written, one_block, shortest, written, written_bytes, written_entry, written_long};

use crate::value::Value;
use icb_schema::{NoMemory, Node, Octets, Text};

/// Appends the written form of a value, which follows from the value alone. After the refusal the
/// list is as before. A value of the node is read again by it, whatever follows.
pub fn encode(_node: &Node, value: &Value, out: &mut Octets) -> Result<(), NoMemory>
    ensures ok { OnOk result (out.new ≡ out.old ++ written value.now) }
    ensures err { OnErr result (out.new ≡ out.old) }
    ensures read_again { Fits (shape_of _node.now) value.now
        → arrays_take_bytes (shape_of _node.now) ≡ true → (more : List ℕ)
        → value_at (shape_of _node.now) (written value.now ++ more) ≡ Ok (value.now, more) }
{
    let before = out.as_slice().len();
    let put = put_value(value, out);
    if put.is_err() {
        out.truncate(before);
    }
    put
}

/// Appends a value.
#[cycle(encoding)]
fn put_value(value: &Value, out: &mut Octets) -> Result<(), NoMemory>
    ensures { Appends result out.old (written value.now) out.new }
{
    match value {
        Value::Null => Ok(()),
        Value::Boolean(truth) => put_boolean(*truth, out),
        Value::Int(number) => put_int(number, out),
        Value::Long(number) => put_long(number, out),
        Value::Float(bytes) => out.extend_from_slice(bytes.as_slice()),
        Value::Double(bytes) => out.extend_from_slice(bytes.as_slice()),
        Value::Bytes(bytes) => put_bytes(bytes.as_slice(), out),
        Value::Text(text) => put_bytes(text.as_slice(), out),
        Value::Fixed(bytes) => out.extend_from_slice(bytes.as_slice()),
        Value::Enum(index) => put_count(u64::from(*index), out),
        Value::Record(values) => put_values(values.as_slice(), out),
        Value::Array(items) => put_items(items.as_slice(), out),
        Value::Map(entries) => put_map(entries.as_slice(), out),
        Value::Union(index, value) => {
            put_count(u64::from(*index), out)?;
            put_value(value.get(), out)
        }
    }
}

/// Appends values, one after another.
#[cycle(encoding)]
fn put_values(values: &[Value], out: &mut Octets) -> Result<(), NoMemory>
    ensures { Appends result out.old (all_written values.now) out.new }
{
    for value in values {
        put_value(value, out)?;
    }
    Ok(())
}

/// Appends the items of an array in one block.
#[cycle(encoding)]
fn put_items(items: &[Value], out: &mut Octets) -> Result<(), NoMemory>
    ensures { Appends result out.old (one_block (map written items.now)) out.new }
{
    if items.is_empty() {
        return out.push(0);
    }
    put_count(items.len() as u64, out)?;
    put_values(items, out)?;
    out.push(0)
}

/// Appends the entries of a map in one block.
#[cycle(encoding)]
fn put_map(entries: &[(Text, Value)], out: &mut Octets) -> Result<(), NoMemory>
    ensures { Appends result out.old
        (one_block (map (λ e. written_entry (e.0, written e.1)) entries.now)) out.new }
{
    if entries.is_empty() {
        return out.push(0);
    }
    put_count(entries.len() as u64, out)?;
    put_entries(entries, out)?;
    out.push(0)
}

/// Appends entries, one after another.
#[cycle(encoding)]
fn put_entries(entries: &[(Text, Value)], out: &mut Octets) -> Result<(), NoMemory>
    ensures { Appends result out.old (entries_written entries.now) out.new }
{
    for entry in entries {
        put_bytes(entry.0.as_slice(), out)?;
        put_value(&entry.1, out)?;
    }
    Ok(())
}

/// Appends the number of the bytes, and the bytes.
fn put_bytes(bytes: &[u8], out: &mut Octets) -> Result<(), NoMemory>
    ensures { Appends result out.old (written_bytes bytes.now) out.new }
{
    put_count(bytes.len() as u64, out)?;
    out.extend_from_slice(bytes)
}

/// Appends a truth value.
fn put_boolean(truth: bool, out: &mut Octets) -> Result<(), NoMemory>
    ensures { Appends result out.old ((if truth then 1 else 0) ∷ []) out.new }
{
    if truth { out.push(1) } else { out.push(0) }
}

/// Appends a number of 32 bits.
fn put_int(number: &i32, out: &mut Octets) -> Result<(), NoMemory>
    ensures { Appends result out.old (written_long number.now) out.new }
{
    let number = i64::from(*number);
    put_long(&number, out)
}

/// Appends a number of 64 bits.
fn put_long(number: &i64, out: &mut Octets) -> Result<(), NoMemory>
    ensures { Appends result out.old (written_long number.now) out.new }
{
    let number = *number;
    if number < 0 {
        return put_zigzag(!number as u64, 1, out);
    }
    put_zigzag(number as u64, 0, out)
}

/// Appends a number that isn't below 0.
fn put_count(count: u64, out: &mut Octets) -> Result<(), NoMemory>
    ensures { Appends result out.old (written_long (pos count)) out.new }
{
    put_zigzag(count, 0, out)
}

/// Appends twice a number, and the sign. They are joined in the first byte, so that no number is
/// too great.
fn put_zigzag(half: u64, sign: u8, out: &mut Octets) -> Result<(), NoMemory>
    requires { sign < 2 }
    ensures { Appends result out.old (shortest 9 (2 * half + sign)) out.new }
{
    let low = 2 * (half % 64) as u8 + sign;
    if half < 64 {
        return out.push(low);
    }
    out.push(128 + low)?;
    put_rest(half / 64, out)
}

/// Appends a number below 2^58, seven bits a byte, with 128 more on each byte but the last.
fn put_rest(number: u64, out: &mut Octets) -> Result<(), NoMemory>
    requires { number < 2 ^ 58 }
    ensures { Appends result out.old (shortest 8 number) out.new }
{
    let mut rest = number;
    for done in 0..8u32 {
        if rest < 128 {
            return out.push(rest as u8);
        }
        out.push(128 + (rest % 128) as u8)?;
        rest /= 128;
    }
    out.push(rest as u8)
}
