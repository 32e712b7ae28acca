//! The lines of a keyring, one by one.
ghost use Rattle.std.specs.Prelude.{◌≡◌, ◌==◌, ◌<◌, ◌/◌, ◌++◌, ◌∷◌, [], length, map, position, option_map, IfOk, IfSome, IsTrue, MatchResult, Ok};
ghost use Rattle.std.specs.List.{list_all};
ghost use Rattle.icb_base.specs.KeyMetadata.{is_key_length};
ghost use Rattle.icb_chain.specs.Ring.{filled_lines, is_id, is_id_byte, key_named, key_of_digits, lines_of, pair_around, pair_of_line, ring_behind, with_line};
ghost use Rattle.icb_chain.specs.RingCalls.{AddsLine, StopsAtLine, pairs_of};

use crate::fault::KeyringFault;
use icb_aes::AesKey;
use icb_base::Bytes;
use std::alloc::{AllocError, Global};

/// A key that a table may name as its master.
#[derive(Drop)]
pub(crate) struct Master {
    /// Its id.
    pub id: Bytes,
    /// The key.
    pub key: AesKey,
}

/// The lines of a text: what stands between line feeds.
pub(crate) fn lines_of(alloc: Global, text: &[u8]) -> Result<Vec<&[u8]>, AllocError>
    ensures { IfOk result (λ lines. map (λ line. line.now) lines.items ≡ lines_of text.now) }
{
    text.split(|b| *b == b'\n').collect(alloc)
}

/// How many lines aren't empty.
pub(crate) fn filled_lines(lines: &[&[u8]]) -> usize
    ensures { result ≡ filled_lines (map (λ line. line.now) lines.now) }
{
    lines.iter().filter(|line| !line.is_empty()).count()
}

/// The keys of lines, of which the first has the number 1.
pub(crate) fn masters_of(alloc: Global, lines: &[&[u8]]) -> Result<Vec<Master>, KeyringFault>
    ensures { let read = ring_behind 1 [] (map (λ line. line.now) lines.now) in
        MatchResult result (λ masters. read ≡ Ok (pairs_of masters.items))
        (λ e. StopsAtLine e read) }
{
    let mut masters = Vec::new(alloc);
    for (i, line) in lines.iter().enumerate() {
        if let Err(fault) = add_line(alloc, &mut masters, line, i as u64 + 1) {
            return Err(fault);
        }
    }
    Ok(masters)
}

/// Puts the key of a line behind the others; an empty line is passed over.
fn add_line(
    alloc: Global,
    masters: &mut Vec<Master>,
    line: &[u8],
    number: u64,
) -> Result<(), KeyringFault>
    ensures { AddsLine number result (pairs_of masters.new.items)
        (with_line (pairs_of masters.old.items) line.now) }
{
    if line.is_empty() {
        return Ok(());
    }
    let Some((id, key)) = pair_of_line(line) else {
        return Err(KeyringFault::BadKeyring { line: number });
    };
    if master_named(masters.as_slice(), id).is_some() {
        return Err(KeyringFault::BadKeyring { line: number });
    }
    push(alloc, masters, id, key)
}

/// Puts a key behind the others.
fn push(
    alloc: Global,
    masters: &mut Vec<Master>,
    id: &[u8],
    key: AesKey,
) -> Result<(), KeyringFault>
    ensures { MatchResult result
        (λ _. pairs_of masters.new.items ≡ pairs_of masters.old.items ++ (id.now, key) ∷ [])
        (λ e. e ≡ KeyringFault.NoMemory) }
{
    let Ok(id) = Bytes::from_slice(alloc, id) else {
        return Err(KeyringFault::NoMemory);
    };
    match masters.push(Master { id, key }) {
        Ok(()) => Ok(()),
        Err(_) => Err(KeyringFault::NoMemory),
    }
}

/// The key of an id.
#[tactic(auto, using(crate::proofs::RingLemmas::named_here))]
pub(crate) fn master_named<'m>(masters: &'m [Master], id: &[u8]) -> Option<&'m AesKey>
    ensures { option_map (λ key. key.now) result ≡ key_named id.now (pairs_of masters.now) }
{
    for master in masters {
        if master.id.as_slice() == id {
            return Some(&master.key);
        }
    }
    None
}

/// An id, `=` and a key.
#[tactic(auto, unfolding(crate::specs::Ring::pair_of_line))]
fn pair_of_line(line: &[u8]) -> Option<(&[u8], AesKey)>
    ensures { option_map (λ pair. (pair.0.now, pair.1)) result ≡ pair_of_line line.now }
{
    let place = place_of_equals(line)?;
    pair_around(line, place)
}

/// Where the first `=` is.
fn place_of_equals(line: &[u8]) -> Option<usize>
    ensures place { result ≡ position (λ b. b == 61) line.now }
    ensures within { IfSome result (λ place. place < length line.now) }
{
    line.iter().position(|b| *b == b'=')
}

/// An id, a byte and a key, where the byte is at this place.
fn pair_around(line: &[u8], place: usize) -> Option<(&[u8], AesKey)>
    requires { place < length line.now }
    ensures { option_map (λ pair. (pair.0.now, pair.1)) result ≡ pair_around line.now place }
{
    let id = &line[..place];
    if !is_id(id) {
        return None;
    }
    match key_of_digits(&line[place + 1..]) {
        Some(key) => Some((id, key)),
        None => None,
    }
}

/// Whether bytes are an id: 1 to 200 letters, digits and `._:/-`.
pub fn is_id(id: &[u8]) -> bool
    ensures { result ≡ is_id id.now }
{
    !id.is_empty() && id.len() <= 200 && has_id_bytes(id)
}

/// Whether all bytes may stand in an id.
fn has_id_bytes(id: &[u8]) -> bool
    ensures { result ≡ list_all is_id_byte id.now }
{
    id.iter().all(|b| is_byte_of_id(*b))
}

/// Whether a byte may stand in an id.
fn is_byte_of_id(b: u8) -> bool
    ensures { result ≡ is_id_byte b }
{
    b.is_ascii_alphanumeric() || b"._:/-".contains(&b)
}

/// A key in hexadecimal digits, if they are one: 32, 48 or 64 of them, in either case.
pub fn key_of_digits(digits: &[u8]) -> Option<AesKey>
    ensures { result ≡ key_of_digits digits.now }
{
    let size = digits.len() / 2;
    if !is_key_length(size) {
        return None;
    }
    let mut room = [0; 32];
    key_in(digits, &mut room[..size])
}

/// A key in so many hexadecimal digits, whose bytes are written into the room.
fn key_in(digits: &[u8], room: &mut [u8]) -> Option<AesKey>
    requires half { length room.old ≡ length digits.now / 2 }
    requires size { IsTrue (is_key_length (length room.old)) }
    ensures { result ≡ key_of_digits digits.now }
{
    if hex::decode_to_slice(digits, &mut *room).is_err() {
        return None;
    }
    AesKey::new(room).ok()
}

/// Whether an AES key has so many bytes.
fn is_key_length(size: usize) -> bool
    ensures { result ≡ is_key_length size }
{
    size == 16 || size == 24 || size == 32
}
