//! Fields of keys and values.
ghost use Rattle.std.specs.Prelude.{◌≡◌, ◌++◌, length, take, OnOk, OnErr};
ghost use Rattle.std.specs.Option.{option_map};
ghost use Rattle.key_encoding.specs.Reading.{read_uvarint};
ghost use Rattle.row_codec.specs.KeyReading.{an_id, read_byte, valued};
ghost use Rattle.row_codec.specs.RowValues.{read_sized, sized};

use crate::Memory;

/// The id of 32 bits in front, and what follows.
pub(crate) fn take_id(b: &[u8]) -> Option<(u32, &[u8])>
    ensures { option_map (λ p. (p.0, p.1.now)) result ≡ valued an_id (read_uvarint b.now) }
{
    match key_encoding::take_uvarint(b) {
        Ok((id, rest)) if id <= u64::from(u32::MAX) => Some((id as u32, rest)),
        _ => None,
    }
}

/// What follows a byte in front.
pub(crate) fn take_byte(byte: u8, b: &[u8]) -> Option<&[u8]>
    ensures { option_map (λ rest. rest.now) result ≡ read_byte byte b.now }
{
    match b.split_first() {
        Some((first, rest)) if *first == byte => Some(rest),
        _ => None,
    }
}

/// Appends a length and bytes; where memory is wanting, a part of them.
pub fn put_sized(b: &[u8], out: &mut Vec<u8>) -> Result<(), Memory>
    ensures ok { OnOk result (out.new.items ≡ out.old.items ++ sized b.now) }
    ensures err { OnErr result (take (length out.old.items) out.new.items ≡ out.old.items) }
{
    key_encoding::put_uvarint(b.len() as u64, out).map_err(|_| Memory)?;
    out.extend_from_slice(b).map_err(|_| Memory)
}

/// As many bytes as the length in front says, and what follows them.
#[tactic(auto, unfolding(crate::specs::RowValues::read_sized))]
pub fn take_sized(b: &[u8]) -> Option<(&[u8], &[u8])>
    ensures { option_map (λ p. (p.0.now, p.1.now)) result ≡ read_sized b.now }
{
    match key_encoding::take_uvarint(b) {
        Ok((len, rest)) if len <= rest.len() as u64 => Some(rest.split_at(len as usize)),
        _ => None,
    }
}
