//! Records that are written, gathered into blocks.
ghost use Rattle.std.specs.Prelude.{◌≡◌, ◌+◌, ◌-◌, ◌<◌, ◌≤◌, ◌^◌, [], ◌++◌, ◌∷◌, List, ℕ, OnOk, IfOk, map};
ghost use Rattle.icb_avro.specs.Writing.{written};
ghost use Rattle.icb_records.specs.Gathering.{block_of, gather, last_block, with_rest};

use icb_avro::{Value, encode};
use icb_container::Block;
use icb_schema::{NoMemory, Node, Octets};
use std::alloc::Global;
use std::mem::replace;

/// A block ends at the first record that brings it to so many bytes or more.
const MOST: usize = 65536;

/// Blocks that are full, and the records behind them.
#[derive(Debug, Drop)]
struct Gathered {
    blocks: Vec<Block>,
    count: u64,
    bytes: Octets,
}

/// The blocks of records of the node, which follow from the records alone.
pub fn gather(alloc: Global, node: &Node, records: &[Value]) -> Result<Vec<Block>, NoMemory>
    ensures { IfOk result (λ blocks. blocks.items ≡ gather 65536 0 [] (map written records.now)) }
{
    let mut gathered = Gathered {
        blocks: Vec::new(alloc),
        count: 0,
        bytes: Octets::new(alloc),
    };
    for record in records {
        gathered.add(alloc, node, record)?;
    }
    gathered.end()
}

impl Gathered {
    /// Adds a record, which may end a block.
    #[tactic(auto, unfolding(crate::specs::Gathering::gather))]
    fn add(&mut self, alloc: Global, node: &Node, value: &Value) -> Result<(), NoMemory>
        requires { self.old.count < 2 ^ 64 - 1 }
        ensures added { OnOk result ((rs : List (List ℕ))
            → with_rest self.old (written value.now ∷ rs) ≡ with_rest self.new rs) }
        ensures count { OnOk result (self.new.count ≤ self.old.count + 1) }
    {
        encode(node, value, &mut self.bytes)?;
        self.count += 1;
        if self.bytes.as_slice().len() >= MOST {
            self.end_block(alloc)?;
        }
        Ok(())
    }

    /// Ends a block.
    fn end_block(&mut self, alloc: Global) -> Result<(), NoMemory>
        ensures blocks { OnOk result (self.new.blocks.items
            ≡ self.old.blocks.items ++ block_of self.old.count self.old.bytes ∷ []) }
        ensures count { OnOk result (self.new.count ≡ 0) }
        ensures bytes { OnOk result (self.new.bytes ≡ []) }
    {
        let bytes = replace(&mut self.bytes, Octets::new(alloc));
        self.blocks.push(block(self.count, bytes))?;
        self.count = 0;
        Ok(())
    }

    /// The blocks, with the last one where it has a record.
    #[tactic(auto, unfolding(crate::specs::Gathering::gather))]
    fn end(self) -> Result<Vec<Block>, NoMemory>
        ensures { IfOk result (λ blocks. blocks.items ≡ with_rest self []) }
    {
        let Gathered {
            mut blocks,
            count,
            bytes,
        } = self;
        if count > 0 {
            blocks.push(block(count, bytes))?;
        }
        Ok(blocks)
    }
}

/// A block of so many records; where it stands isn't looked at.
fn block(count: u64, bytes: Octets) -> Block
    ensures { result ≡ block_of count bytes }
{
    Block {
        first: 0,
        count,
        place: 0,
        bytes,
    }
}
