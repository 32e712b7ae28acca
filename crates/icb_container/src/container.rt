//! A container: opened over a reader, and its blocks one by one.
ghost use Rattle.std.specs.Prelude.{◌≡◌, ◌≤◌, ◌<◌, ◌+◌, ◌^◌, List, ℕ, Option, IfErr, IfOk, IfSome, OnErr, OnOk};
ghost use Rattle.icb_schema.specs.Nodes.{tree_of};
ghost use Rattle.icb_container.specs.Answers.{Counts, EndsAt, Opens, ReadsNext, Skips, Stays, at_spot, spot_of};
ghost use Rattle.icb_container.specs.Kept.{ChecksMagic};
ghost use Rattle.icb_container.specs.Known.{ForEachFile, IsNotMemory, ReadsOnly, reader_fault};
ghost use Rattle.icb_container.specs.Items.{ChecksMarker, IsWithin, ReadsNextHead, passed};

use crate::block::Block;
use crate::fault::ContainerFault;
use crate::numbers::{BlockHead, head_at, part_at, read, refuse};
use crate::opening::{map_at, marker_at};
use crate::records::check_records;
use crate::schema::schema_in;
use icb_avro::AvroCause;
use icb_base::ReadAt;
use icb_schema::AvroSchema;
use std::alloc::Global;
use std::marker::Model;

/// Where a container stands.
#[derive(Clone, Copy, Debug)]
pub struct Spot {
    place: u64,
    first: u64,
    block: u64,
}

/// A container that was opened, and where it stands: before a block, or at the end.
#[derive(Debug, Drop)]
pub struct Container {
    schema: AvroSchema,
    marker: [u8; 16],
    place: u64,
    first: u64,
    block: u64,
}

impl Model for Container {
    ghost use Rattle.std.specs.Prelude.{List, ℕ, refl};
    ghost use Rattle.std.specs.Coded.{code_by, coded×, coded_list, coded_ℕ};
    ghost use Rattle.icb_schema.specs.contracts.node.Node as node;
    ghost use Rattle.icb_schema.specs.declared.node.Node.{Node};
    ghost use Rattle.icb_container.specs.Opened.{Opened};

    ghost Value = { Opened };

    ghost coded = { code_by (Node × (List ℕ × (ℕ × (ℕ × ℕ)))) (coded× node.the_row.coded
        (coded× (coded_list coded_ℕ) (coded× coded_ℕ (coded× coded_ℕ coded_ℕ))))
        (λ c. (c.schema, (c.marker, (c.place, (c.first, c.block)))))
        (λ p. record {
          schema = p.0;
          marker = p.1.0;
          place = p.1.1.0;
          first = p.1.1.1.0;
          block = p.1.1.1.1;
        }) (λ _. refl) };

    ghost use Rattle.std.specs.Prelude.{◌≤◌};

    ghost view = { λ c. record {
      schema = c.schema;
      marker = c.marker;
      place = c.place;
      first = c.first;
      block = c.block;
    } };

    ghost invariant = { λ c. (c.first ≤ c.place) × (c.block ≤ c.place) };
}

impl Container {
    /// Opens a container: its header is read, and it stands before the first block.
    pub fn open<R: ReadAt>(
        alloc: Global,
        reader: &mut R,
    ) -> Result<Container, ContainerFault<R::Fault>>
        ensures opens { ForEachFile (R.content reader.old) (Opens result) }
        ensures reader { ReadsOnly R.ReadAt (reader_fault result) reader.old reader.new }
    {
        check_magic(reader)?;
        let (found, place) = map_at(alloc, reader, 4)?;
        let marker = marker_at(reader, place)?;
        let schema = schema_in(alloc, found)?;
        Ok(Container {
            schema,
            marker,
            place: place + 16,
            first: 0,
            block: 0,
        })
    }

    /// The schema of the records.
    pub fn schema(&self) -> &AvroSchema
        ensures { result.now ≡ self.now.schema }
    {
        &self.schema
    }

    /// Where it stands: no block before it is without a byte, and none has fewer bytes than records.
    pub fn spot(&self) -> Spot
        ensures is { result ≡ spot_of self.now }
        ensures records { self.now.first ≤ self.now.place }
        ensures blocks { self.now.block ≤ self.now.place }
    {
        Spot {
            place: self.place,
            first: self.first,
            block: self.block,
        }
    }

    /// Goes back to where it stood.
    pub fn go_back(&mut self, spot: Spot)
        requires records { spot.first ≤ spot.place }
        requires blocks { spot.block ≤ spot.place }
        ensures { self.new ≡ at_spot self.old spot }
    {
        self.place = spot.place;
        self.first = spot.first;
        self.block = spot.block;
    }

    /// How many records the next block has, or none at the end. The container stays; the block's
    /// records and its marker aren't looked at.
    pub fn next_count<R: ReadAt>(
        &mut self,
        reader: &mut R,
    ) -> Result<Option<u64>, ContainerFault<R::Fault>>
        ensures counts { ForEachFile (R.content reader.old) (Counts result self.old) }
        ensures stays { self.new ≡ self.old }
        ensures reader { ReadsOnly R.ReadAt (reader_fault result) reader.old reader.new }
        ensures memory { IfErr result IsNotMemory }
    {
        let Some(head) = next_head(reader, self.place)? else {
            return Ok(None);
        };
        Ok(Some(head.count))
    }

    /// Passes over the next block and tells how many records it has, or none at the end. The records
    /// aren't looked at.
    pub fn skip_block<R: ReadAt>(
        &mut self,
        reader: &mut R,
    ) -> Result<Option<u64>, ContainerFault<R::Fault>>
        ensures skips { ForEachFile (R.content reader.old) (Skips result self.old self.new) }
        ensures stays { Stays result self.old self.new }
        ensures reader { ReadsOnly R.ReadAt (reader_fault result) reader.old reader.new }
        ensures memory { IfErr result IsNotMemory }
    {
        let Some(head) = next_head(reader, self.place)? else {
            return Ok(None);
        };
        check_marker(reader, head, &self.marker, self.block)?;
        self.pass(head);
        Ok(Some(head.count))
    }

    /// The next block, or none at the end. Its records are passed over, and take exactly its bytes.
    pub fn next_block<R: ReadAt>(
        &mut self,
        alloc: Global,
        reader: &mut R,
    ) -> Result<Option<Block>, ContainerFault<R::Fault>>
        ensures reads { ForEachFile (R.content reader.old) (ReadsNext result self.old self.new) }
        ensures stays { Stays result self.old self.new }
        ensures ends { IfOk result (λ next. IfSome next (EndsAt self.old self.new
            (R.size reader.old))) }
        ensures reader { ReadsOnly R.ReadAt (reader_fault result) reader.old reader.new }
    {
        let Some(head) = next_head(reader, self.place)? else {
            return Ok(None);
        };
        let bytes = part_at(alloc, reader, head.place, head.size)?;
        check_records(self.schema.root(), head, bytes.as_slice())?;
        check_marker(reader, head, &self.marker, self.block)?;
        let first = self.first;
        self.pass(head);
        Ok(Some(Block {
            first,
            count: head.count,
            place: head.place,
            bytes,
        }))
    }

    /// Goes behind the block with this head.
    fn pass(&mut self, head: BlockHead)
        requires behind { self.old.place ≤ head.place }
        requires enough { head.count ≤ head.size }
        requires in_file { head.place + head.size + 16 < 2 ^ 64 }
        ensures { self.new ≡ passed self.old head }
    {
        self.first += head.count;
        self.block += 1;
        self.place = head.place + head.size + 16;
    }
}

/// The file begins with the magic.
fn check_magic<R: ReadAt>(reader: &mut R) -> Result<(), ContainerFault<R::Fault>>
    ensures checks { ForEachFile (R.content reader.old) (ChecksMagic result) }
    ensures within { OnOk result (4 ≤ R.size reader.old) }
    ensures reader { ReadsOnly R.ReadAt (reader_fault result) reader.old reader.new }
    ensures memory { IfErr result IsNotMemory }
{
    if reader.length() < 4 {
        return Err(ContainerFault::NotAvro);
    }
    let mut magic = [0; 4];
    read(reader, 0, &mut magic)?;
    if magic != *b"Obj\x01" {
        return Err(ContainerFault::NotAvro);
    }
    Ok(())
}

/// What stands in front of the records of the block at a place, or none at the end.
fn next_head<R: ReadAt>(
    reader: &mut R,
    at: u64,
) -> Result<Option<BlockHead>, ContainerFault<R::Fault>>
    ensures reads { ForEachFile (R.content reader.old) (ReadsNextHead result at) }
    ensures within { IfOk result (λ next. IfSome next (IsWithin (R.size reader.old) at)) }
    ensures reader { ReadsOnly R.ReadAt (reader_fault result) reader.old reader.new }
    ensures memory { IfErr result IsNotMemory }
{
    let length = reader.length();
    if at == length {
        return Ok(None);
    }
    if at > length {
        return Err(refuse(length, AvroCause::End));
    }
    let head = head_at(reader, at)?;
    Ok(Some(head))
}

/// The marker behind the records of the block with this head and this number is this one.
fn check_marker<R: ReadAt>(
    reader: &mut R,
    head: BlockHead,
    marker: &[u8; 16],
    block: u64,
) -> Result<(), ContainerFault<R::Fault>>
    requires in_file { head.place + head.size + 16 ≤ R.size reader.old }
    requires fits { head.place + head.size + 16 < 2 ^ 64 }
    ensures checks { ForEachFile (R.content reader.old)
        (ChecksMarker result marker.now block head) }
    ensures reader { ReadsOnly R.ReadAt (reader_fault result) reader.old reader.new }
    ensures memory { IfErr result IsNotMemory }
{
    let mut found = [0; 16];
    read(reader, head.place + head.size, &mut found)?;
    if found != *marker {
        return Err(ContainerFault::Sync { block });
    }
    Ok(())
}
