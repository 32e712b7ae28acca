//! Printing the numbers of what a command has put. It takes no memory.
ghost use Rattle.std.specs.Prelude.{◌++◌, codes, decimal, IsErr};
ghost use Rattle.icb_base.specs.Calls.{WritesText};
ghost use Rattle.icb_run.specs.Answers.{version_line};

use icb_base::{Failed, Sink};
use itoa::Buffer;

/// Writes the line of a version.
pub fn print_version<O: Sink>(version: u64, out: &mut O) -> Result<(), Failed>
    ensures { WritesText O.Sink (version_line version) (IsErr result) out.old out.new }
{
    print_text("version ", out)?;
    print_number(version, out)
}

/// Writes a number in decimal digits, and ends the line.
fn print_number<O: Sink>(number: u64, out: &mut O) -> Result<(), Failed>
    ensures { WritesText O.Sink (decimal number ++ codes "\n") (IsErr result) out.old out.new }
{
    let mut digits = Buffer::new();
    print_text(digits.format(number), out)?;
    print_text("\n", out)
}

/// Writes a text.
pub fn print_text<O: Sink>(text: &str, out: &mut O) -> Result<(), Failed>
    ensures { WritesText O.Sink text.now (IsErr result) out.old out.new }
{
    out.write(text.as_bytes())
}
