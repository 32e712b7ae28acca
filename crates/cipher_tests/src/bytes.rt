//! Bytes by a rule.

/// Byte i becomes step * i + start, modulo 256.
pub(crate) fn fill(bytes: &mut [u8], step: u8, start: u8) {
    let mut next = start;
    for byte in bytes {
        *byte = next;
        next = next.wrapping_add(step);
    }
}
