//! The records of a block, which are passed over.
ghost use Rattle.std.specs.Prelude.{◌≡◌, ◌≤◌, ◌<◌, ◌+◌, ◌^◌, List, ℕ, None, length, take, drop, IfErr};
ghost use Rattle.icb_schema.specs.Shape.{shape_of};
ghost use Rattle.icb_container.specs.Blocks.{records_at};
ghost use Rattle.icb_container.specs.Items.{Passes, head_of};
ghost use Rattle.icb_container.specs.Known.{IsNotMemory, reader_fault};

use crate::fault::ContainerFault;
use crate::numbers::{BlockHead, refuse};
use icb_avro::{AvroCause, Cursor};
use icb_schema::Node;

/// The bytes of a block are as many records as it counts, one after another.
pub(crate) fn check_records<F>(
    node: &Node,
    head: BlockHead,
    bytes: &[u8],
) -> Result<(), ContainerFault<F>>
    requires size { length bytes.now ≡ head.size }
    requires fits { head.place + head.size < 2 ^ 64 }
    ensures checks { (file : List ℕ) → head.place + head.size ≤ length file
        → bytes.now ≡ take head.size (drop head.place file)
        → Passes result (records_at (shape_of node.now) (length file) (head_of file head)) }
    ensures answers { reader_fault result ≡ None }
    ensures memory { IfErr result IsNotMemory }
{
    let mut cursor = Cursor::new(bytes);
    for passed in 0..head.count {
        if let Err(fault) = cursor.skip(node) {
            return Err(refuse(head.place + fault.place, fault.cause));
        }
    }
    let behind = cursor.place();
    if behind != bytes.len() {
        return Err(refuse(head.place + behind as u64, AvroCause::Size));
    }
    Ok(())
}
