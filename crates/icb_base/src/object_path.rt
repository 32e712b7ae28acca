//! Paths of objects inside a table.
ghost use Rattle.std.specs.Prelude.{◌≡◌, ◌↔◌, ◌==◌, false, IfOk, IsTrue};
ghost use Rattle.std.specs.List.{list_all, slice_split};
ghost use Rattle.icb_base.specs.Paths.{is_object_path, is_path_byte, is_path_part};

use crate::byte_list::NoMemory;
use std::alloc::Global;
use std::marker::Model;
use thiserror::Error;

/// Why a text is no object path.
#[derive(Debug, Drop, Error)]
pub enum PathFault {
    /// The text isn't in the form of an object path.
    #[error("this is no object path")]
    BadPath,
    /// No memory was left.
    #[error("no memory is left")]
    NoMemory,
}

/// A path of an object: 1 to 1,000 bytes of `A-Za-z0-9._-/=%+` of which no part between slashes is
/// empty, `.` or `..`.
#[derive(Debug, Drop)]
pub struct ObjPath {
    text: String,
}

impl Model for ObjPath {
    ghost use Rattle.std.specs.Prelude.{IsTrue, List, ℕ, string_bytes};
    ghost use Rattle.std.specs.List.{list_all, slice_split};
    ghost use Rattle.icb_base.specs.Paths.{is_object_path};

    ghost Value = { List ℕ };

    ghost view = { λ path. string_bytes path.text };

    ghost invariant = { λ path. IsTrue (is_object_path (string_bytes path.text)) };
}

impl ObjPath {
    /// The path that a text is. Refused as `BadPath` exactly where the text isn't in the form.
    pub fn read(alloc: Global, text: &[u8]) -> Result<ObjPath, PathFault>
        ensures path { IfOk result (λ path. path ≡ text.now) }
        ensures bad_path_exactly { (result ≡ Err PathFault.BadPath)
            ↔ (is_object_path text.now ≡ false) }
    {
        if !is_form_of_path(text) {
            return Err(PathFault::BadPath);
        }
        let Ok(text) = str::from_utf8(text) else {
            return Err(PathFault::BadPath);
        };
        match String::from_str(alloc, text) {
            Ok(text) => Ok(ObjPath { text }),
            Err(_) => Err(PathFault::NoMemory),
        }
    }

    /// The path's text.
    pub fn as_str(&self) -> &str
        ensures text { result.now ≡ self.now }
        ensures in_form { IsTrue (is_object_path self.now) }
    {
        self.text.as_str()
    }

    /// A second value of the same path.
    pub fn copy(&self, alloc: Global) -> Result<ObjPath, NoMemory>
        ensures { IfOk result (λ path. path ≡ self.now) }
    {
        let text = String::from_str(alloc, self.text.as_str())?;
        Ok(ObjPath { text })
    }
}

/// Whether a text is in the form of an object path.
fn is_form_of_path(text: &[u8]) -> bool
    ensures { result ≡ is_object_path text.now }
{
    !text.is_empty() && text.len() <= 1000 && has_path_bytes(text) && has_path_parts(text)
}

/// Whether all bytes of a text may stand in a path.
fn has_path_bytes(text: &[u8]) -> bool
    ensures { result ≡ list_all is_path_byte text.now }
{
    text.iter().all(|b| is_byte_of_path(*b))
}

/// Whether all parts between slashes are names.
fn has_path_parts(text: &[u8]) -> bool
    ensures { result ≡ list_all is_path_part (slice_split (λ b. b == 47) text.now) }
{
    text.split(|b| *b == b'/').all(|part| is_part_of_path(part))
}

/// Whether a byte may stand in a path.
fn is_byte_of_path(b: u8) -> bool
    ensures { result ≡ is_path_byte b }
{
    b.is_ascii_alphanumeric() || b"._-/=%+".contains(&b)
}

/// Whether a part between slashes is a name.
fn is_part_of_path(part: &[u8]) -> bool
    ensures { result ≡ is_path_part part.now }
{
    !matches!(part, b"" | b"." | b"..")
}
