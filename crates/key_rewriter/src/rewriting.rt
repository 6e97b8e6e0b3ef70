//! The id in front of a key replaced.
ghost use Rattle.std.specs.Prelude.{◌≡◌, ◌++◌, Ok, OnOk, OnErr, IfErr};
ghost use Rattle.key_encoding.specs.Spelling.{uvarint};
ghost use Rattle.key_rewriter.specs.Rewriting.{IsOfBytes, RefusalIs, after, rewritten};

use crate::id_map::IdMap;
use key_encoding::{KeyFault, Memory, put_uvarint, take_uvarint};

/// Why a key wasn't rewritten.
#[derive(Clone, Copy, Debug, PartialEq, Eq)]
pub enum RewriteFault {
    /// The id in front of the key is none of the old ids.
    NotMapped { id: u64 },
    /// No id is spelled in front.
    Key(KeyFault),
    Memory,
}

/// Appends an id and bytes after it.
fn put_key(id: u32, rest: &[u8], out: &mut Vec<u8>) -> Result<(), Memory>
    ensures ok { OnOk result (out.new.items ≡ out.old.items ++ (uvarint id ++ rest.now)) }
    ensures err { OnErr result (out.new.items ≡ out.old.items) }
{
    let before = out.len();
    put_uvarint(u64::from(id), out)?;
    if out.extend_from_slice(rest).is_err() {
        out.truncate(before);
        return Err(Memory);
    }
    Ok(())
}

/// Appends a key with the new id in place of the old one.
pub fn rewrite(key: &[u8], map: &IdMap, out: &mut Vec<u8>) -> Result<(), RewriteFault>
    ensures ok { OnOk result (Ok out.new.items ≡ after out.old.items (rewritten map.now key.now)) }
    ensures refusal { IfErr result (RefusalIs (rewritten map.now key.now)) }
    ensures of_bytes { IfErr result IsOfBytes }
    ensures err { OnErr result (out.new.items ≡ out.old.items) }
{
    let (id, rest) = match take_uvarint(key) {
        Ok(read) => read,
        Err(fault) => return Err(RewriteFault::Key(fault)),
    };
    let Some(new) = map.partner(id) else {
        return Err(RewriteFault::NotMapped { id });
    };
    put_key(new, rest, out).map_err(|_| RewriteFault::Memory)
}
