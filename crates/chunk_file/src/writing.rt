//! Writing of chunks.
ghost use Rattle.std.specs.Prelude.{◌≡◌, ◌++◌, length, take, OnOk, OnErr};
ghost use Rattle.mvcc_keys.specs.Codes.{mvcc_key};
ghost use Rattle.row_codec.specs.RowValues.{sized};
ghost use Rattle.chunk_file.specs.Entries.{entry_code, entries_code};
ghost use Rattle.chunk_file.specs.Chunks.{head_code, chunk_bytes};

use mvcc_keys::{Entry, Hlc, Memory, encode_mvcc};
use row_codec::put_sized;

/// How many bytes the key of a version has.
#[tactic(auto, unfolding(mvcc_keys::specs::Codes::mvcc_key))]
fn mvcc_len(key: &[u8], at: Hlc) -> usize
    ensures { result ≡ length (mvcc_key key.now at) }
{
    if at.logical() == 0 {
        key.len() + 10
    } else {
        key.len() + 14
    }
}

/// Appends the length of a version's key, and the key.
fn put_dated(key: &[u8], at: Hlc, out: &mut Vec<u8>) -> Result<(), Memory>
    ensures ok { OnOk result (out.new.items ≡ out.old.items ++ sized (mvcc_key key.now at)) }
    ensures err { OnErr result (take (length out.old.items) out.new.items ≡ out.old.items) }
{
    key_encoding::put_uvarint(mvcc_len(key, at) as u64, out).map_err(|_| Memory)?;
    encode_mvcc(key, at, out)
}

#[tactic(auto, unfolding(crate::specs::Entries::entry_code))]
fn put_put(key: &[u8], at: Hlc, value: &[u8], out: &mut Vec<u8>) -> Result<(), Memory>
    ensures ok { OnOk result (out.new.items ≡ out.old.items ++ entry_code (Entry.Put key.now at value.now)) }
    ensures err { OnErr result (take (length out.old.items) out.new.items ≡ out.old.items) }
{
    out.push(1).map_err(|_| Memory)?;
    put_dated(key, at, out)?;
    put_sized(value, out)
}

#[tactic(auto, unfolding(crate::specs::Entries::entry_code))]
fn put_deletion(key: &[u8], at: Hlc, out: &mut Vec<u8>) -> Result<(), Memory>
    ensures ok { OnOk result (out.new.items ≡ out.old.items ++ entry_code (Entry.Del key.now at)) }
    ensures err { OnErr result (take (length out.old.items) out.new.items ≡ out.old.items) }
{
    out.push(2).map_err(|_| Memory)?;
    put_dated(key, at, out)
}

#[tactic(auto, unfolding(crate::specs::Entries::entry_code))]
fn put_range(lo: &[u8], hi: &[u8], at: Hlc, out: &mut Vec<u8>) -> Result<(), Memory>
    ensures ok { OnOk result (out.new.items ≡ out.old.items ++ entry_code (Entry.Range lo.now hi.now at)) }
    ensures err { OnErr result (take (length out.old.items) out.new.items ≡ out.old.items) }
{
    out.push(3).map_err(|_| Memory)?;
    put_dated(lo, at, out)?;
    put_sized(hi, out)
}

fn put_entry(entry: &Entry, out: &mut Vec<u8>) -> Result<(), Memory>
    ensures ok { OnOk result (out.new.items ≡ out.old.items ++ entry_code entry.now) }
    ensures err { OnErr result (take (length out.old.items) out.new.items ≡ out.old.items) }
{
    match entry {
        Entry::Put { key, at, value } => put_put(key.as_slice(), *at, value.as_slice(), out),
        Entry::Del { key, at } => put_deletion(key.as_slice(), *at, out),
        Entry::Range { lo, hi, at } => put_range(lo.as_slice(), hi.as_slice(), *at, out),
    }
}

fn put_entries(entries: &[Entry], out: &mut Vec<u8>) -> Result<(), Memory>
    ensures ok { OnOk result (out.new.items ≡ out.old.items ++ entries_code entries.now) }
    ensures err { OnErr result (take (length out.old.items) out.new.items ≡ out.old.items) }
{
    for entry in entries {
        put_entry(entry, out)?;
    }
    Ok(())
}

/// Appends a chunk; where memory is wanting, a part of it.
#[tactic(auto, unfolding(crate::specs::Chunks::head_code, crate::specs::Chunks::chunk_bytes))]
fn put_chunk(entries: &[Entry], out: &mut Vec<u8>) -> Result<(), Memory>
    ensures ok { OnOk result (out.new.items ≡ out.old.items ++ chunk_bytes entries.now) }
    ensures err { OnErr result (take (length out.old.items) out.new.items ≡ out.old.items) }
{
    out.extend_from_slice(b"CHK1").map_err(|_| Memory)?;
    key_encoding::put_uvarint(entries.len() as u64, out).map_err(|_| Memory)?;
    put_entries(entries, out)
}

/// Appends the bytes of a chunk. What is written reads as a chunk where the entries are one: from
/// 1 to 256 of one table, in order.
pub fn write_chunk_bytes(entries: &[Entry], out: &mut Vec<u8>) -> Result<(), Memory>
    ensures ok { OnOk result (out.new.items ≡ out.old.items ++ chunk_bytes entries.now) }
    ensures err { OnErr result (out.new.items ≡ out.old.items) }
{
    let before = out.len();
    let done = put_chunk(entries, out);
    if done.is_err() {
        out.truncate(before);
    }
    done
}
