//! The full path of an object of a table.
ghost use Rattle.std.specs.Prelude.{◌≡◌, IfOk};
ghost use Rattle.icb_turns.specs.Naming.{full_path};

use icb_base::{NoMemory, ObjPath};
use icb_schema::Text;
use std::alloc::Global;

/// The full path of an object: the table's location, `/`, and the object's path.
pub fn full_path(alloc: Global, location: &Text, path: &ObjPath) -> Result<Text, NoMemory>
    ensures { IfOk result (λ full. full ≡ full_path location.now path.now) }
{
    let location = location.as_str();
    let path = path.as_str();
    let full = format!(in alloc; "{location}/{path}")?;
    Ok(Text::from_string(full))
}
