//! One row of a generated table.
ghost use Rattle.std.specs.Prelude.{◌≡◌, pos, IfOk};
ghost use Rattle.icb_types.specs.Lines.{row_line};
ghost use Rattle.icb_generate.specs.Rows.{day_of, name_of, row_of};

use icb_schema::{NoMemory, Octets, Text};
use icb_types::{Datum, DatumRef, row_datum, row_end};
use std::alloc::Global;

/// The line of the row with this number.
pub(crate) fn line_of(alloc: Global, seed: u64, number: u32) -> Result<Octets, NoMemory>
    ensures { IfOk result (λ line. line ≡ row_line (row_of seed number)) }
{
    let name = name_of(alloc, number)?;
    let mut line = Octets::new(alloc);
    row_datum(alloc, &mut line, &DatumRef::Long(i64::from(number)))?;
    row_datum(alloc, &mut line, &name.borrowed())?;
    row_datum(alloc, &mut line, &DatumRef::Date(day_of(seed, number)))?;
    row_end(&mut line)?;
    Ok(line)
}

/// The text in the row with this number, null in each tenth.
fn name_of(alloc: Global, number: u32) -> Result<Datum, NoMemory>
    ensures { IfOk result (λ datum. datum ≡ name_of number) }
{
    if number % 10 == 9 {
        return Ok(Datum::Null);
    }
    let rest = number % 97;
    let text = format!(in alloc; "r{rest}")?;
    Ok(Datum::Text(Text::from_string(text)))
}

/// The day in the row with this number.
fn day_of(seed: u64, number: u32) -> i32
    ensures { result ≡ pos (day_of seed number) }
{
    ((37 * u64::from(number) + seed % 20000) % 20000) as i32
}
