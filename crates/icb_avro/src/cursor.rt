//! A cursor over bytes that hold values, one behind another.
ghost use Rattle.std.specs.Prelude.{◌≡◌, ◌≤◌, ◌+◌, ◌-◌, length};
ghost use Rattle.icb_schema.specs.Shape.{shape_of};
ghost use Rattle.icb_avro.specs.Cursor.{EndsWith, Follows, IsWithin, Reads, ReadsValue, unread};
ghost use Rattle.icb_avro.specs.Reading.{boolean_at, bytes_at, int_at, long_at, part_at, read_as, text_at, value_at};

use crate::fault::{AvroFault, Refusal, Stop, ValueFault};
use crate::making::value_at;
use crate::numbers::{int_at, long_at};
use crate::parts::{boolean_at, bytes_at, part_at, text_at};
use crate::skipping::skip_at;
use crate::value::Value;
use icb_schema::Node;
use std::alloc::Global;
use std::marker::Model;

/// Bytes, and how many of them were read. A refused call leaves it as it was. Parts that it gives
/// are slices of the bytes.
#[derive(Debug, Drop)]
pub struct Cursor<'a> {
    bytes: &'a [u8],
    at: usize,
}

impl<'a> Model for Cursor<'a> {
    ghost use Rattle.std.specs.Prelude.{◌≤◌, length};
    ghost use Rattle.icb_avro.specs.Cursor.{Input};

    ghost Value = { Input };

    ghost view = { λ c. record { whole = c.bytes.now; place = c.at } };

    ghost invariant = { λ c. c.at ≤ length c.bytes.now };
}

impl<'a> Cursor<'a> {
    /// Before the first byte.
    pub fn new(bytes: &'a [u8]) -> Self
        ensures { result ≡ record { whole = bytes.now; place = 0 } }
    {
        Cursor { bytes, at: 0 }
    }

    /// How many bytes were read.
    pub fn place(&self) -> usize
        ensures { result ≡ self.now.place }
    {
        self.at
    }

    /// A number of 64 bits.
    pub fn long(&mut self) -> Result<i64, AvroFault>
        ensures { Reads (λ n. n) result self.old self.new (long_at (unread self.old)) }
    {
        let read = long_at(self.rest());
        self.follow(read)
    }

    /// A number of 32 bits.
    pub fn int(&mut self) -> Result<i32, AvroFault>
        ensures { Reads (λ n. n) result self.old self.new (int_at (unread self.old)) }
    {
        let read = int_at(self.rest());
        self.follow(read)
    }

    /// A truth value.
    pub fn boolean(&mut self) -> Result<bool, AvroFault>
        ensures { Reads (λ b. b) result self.old self.new (boolean_at (unread self.old)) }
    {
        let read = boolean_at(self.rest());
        self.follow(read)
    }

    /// A number, and that many bytes.
    pub fn bytes(&mut self) -> Result<&'a [u8], AvroFault>
        ensures { Reads (λ b. b.now) result self.old self.new (bytes_at (unread self.old)) }
    {
        let read = bytes_at(self.rest());
        self.follow(read)
    }

    /// A number, and that many bytes of UTF-8.
    pub fn text(&mut self) -> Result<&'a str, AvroFault>
        ensures { Reads (λ t. t.now) result self.old self.new (text_at (unread self.old)) }
    {
        let read = text_at(self.rest());
        self.follow(read)
    }

    /// So many bytes.
    pub fn fixed(&mut self, size: u32) -> Result<&'a [u8], AvroFault>
        ensures { Reads (λ b. b.now) result self.old self.new
            (part_at size (unread self.old) (unread self.old)) }
    {
        let rest = self.rest();
        let read = part_at(u64::from(size), rest, rest);
        self.follow(read)
    }

    /// Passes over a value of the node.
    pub fn skip(&mut self, node: &Node) -> Result<(), AvroFault>
        ensures { Reads (λ done. done) result self.old self.new
            (read_as (λ _. tt) (value_at (shape_of node.now) (unread self.old))) }
    {
        match skip_at(node, self.rest()) {
            Ok(rest) => {
                self.go_to(rest);
                Ok(())
            }
            Err(refusal) => Err(self.fault(refusal)),
        }
    }

    /// A value of the node.
    pub fn value(&mut self, alloc: Global, node: &Node) -> Result<Value, ValueFault>
        ensures { ReadsValue result self.old self.new
            (value_at (shape_of node.now) (unread self.old)) }
    {
        match value_at(alloc, node, self.rest()) {
            Ok((value, rest)) => {
                self.go_to(rest);
                Ok(value)
            }
            Err(Stop::Refused(refusal)) => Err(ValueFault::Avro(self.fault(refusal))),
            Err(Stop::NoMemory) => Err(ValueFault::NoMemory),
        }
    }

    /// The bytes that weren't read yet.
    pub fn rest(&self) -> &'a [u8]
        ensures bytes { result.now ≡ unread self.now }
        ensures within { self.now.place ≤ length self.now.whole }
    {
        &self.bytes[self.at..]
    }

    /// Goes to where these bytes begin, which are the last of the input.
    pub fn go_to(&mut self, rest: &[u8])
        requires { length rest.now ≤ length self.old.whole }
        ensures whole { self.new.whole ≡ self.old.whole }
        ensures place { self.new.place ≡ length self.old.whole - length rest.now }
    {
        self.at = self.bytes.len() - rest.len();
    }

    /// The fault of a refused item, with its place from the first byte on.
    fn fault(&self, refusal: Refusal) -> AvroFault
        requires { refusal.left ≤ length self.now.whole }
        ensures place { result.place + refusal.left ≡ length self.now.whole }
        ensures cause { result.cause ≡ refusal.cause }
    {
        AvroFault {
            place: (self.bytes.len() - refusal.left) as u64,
            cause: refusal.cause,
        }
    }

    /// Moves behind what was read, or names what was refused.
    fn follow<T>(&mut self, read: Result<(T, &'a [u8]), Refusal>) -> Result<T, AvroFault>
        requires { IsWithin self.old.whole read }
        ensures { Follows read.entry result self.old self.new }
    {
        match read {
            Ok((value, rest)) => {
                self.go_to(rest);
                Ok(value)
            }
            Err(refused) => Err(self.fault(refused)),
        }
    }
}
