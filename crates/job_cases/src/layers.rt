//! Calls on the objects of a layer on a disk in memory: the full layer of the cluster `a` in the
//! collection `c`, of job 1, up to counter 3.
use crate::rows::{put_both, select};
use crate::words::{after, bytes, cut, number, numbers, put_bytes, put_time, time};
use collection_dir::DirFault;
use key_rewriter::{IdMap, are_ascending};
use layer_manifest::{Manifest, read_manifest_bytes};
use layer_model::LayerName;
use mvcc_keys::{Blob, Entry, Hlc, Memory, Text};
use outside_world::MemoryDisk;
use restore_rows::{RestoreFault, put_rows, read_rows};
use row_codec::Kind;
use std::alloc::Global;
use table_descriptors::{Descriptor, Name};
use table_rows::TableRows;
use version_store::{FactList, MvccMap, Versions};

/// The bytes of a manifest, the objects of the disk, its calls that fail, and entries of a table.
#[derive(Drop)]
struct Stored {
    manifest: Vec<u8>,
    objects: Vec<(Text, Blob)>,
    fails: Vec<u64>,
    entries: Vec<Entry>,
}

/// The names of the layer's objects begin so.
const FRONT: &str =
    "c.a.000000000000000000000003.000000000000000000000000.000000000000000000000003.00000001.";

fn layer(alloc: Global) -> Result<LayerName, Memory> {
    let end = Hlc::new(0, 3).ok_or(Memory)?;
    let collection = Name::parse(alloc, b"c")?.ok_or(Memory)?;
    let cluster = Name::parse(alloc, b"a")?.ok_or(Memory)?;
    Ok(LayerName {
        collection,
        cluster,
        full: end,
        start: Hlc::zero(),
        end,
        job: 1,
    })
}

/// `object c000000 43484b31..`
fn add_object(alloc: Global, stored: &mut Stored, line: &str) -> Result<(), Memory> {
    let (part, digits) = cut(line);
    let name = Text::from_string(format!(in alloc; "{FRONT}{part}")?);
    let bytes = Blob::from_vec(bytes(alloc, digits)?);
    Ok(stored.objects.push((name, bytes))?)
}

fn disk(alloc: Global, stored: &Stored) -> Result<MemoryDisk, Memory> {
    let mut objects = Vec::new(alloc);
    for (name, bytes) in &stored.objects {
        objects.push((name.copy(alloc)?, bytes.copy(alloc)?))?;
    }
    let fails = Vec::from_slice(alloc, &stored.fails)?;
    MemoryDisk::new(alloc, objects, fails, None)
}

fn kinds(alloc: Global, text: &str) -> Result<Vec<Kind>, Memory> {
    let mut kinds = Vec::new(alloc);
    for word in text.split(',') {
        kinds.push(match word {
            "INT" => Kind::Int,
            "INT-" => Kind::IntDown,
            _ => Kind::Text,
        })?;
    }
    Ok(kinds)
}

/// The rows of the table at a place of the manifest: `0 INT upto 4.0`, or as of 9.0.
fn read(alloc: Global, stored: &Stored, line: &str) -> Result<Vec<Entry>, DirFault> {
    let (place, types) = cut(line);
    let kinds = kinds(alloc, cut(types).0)?;
    let upto = after(line, "upto");
    let t = time(if upto.is_empty() { "9.0" } else { upto });
    let Ok(m) = read_manifest_bytes(alloc, &stored.manifest) else {
        return Err(DirFault::Memory);
    };
    let table = match m.tables.as_slice().get(number(place) as usize) {
        Some(part) => part.id,
        None => return Err(DirFault::Memory),
    };
    let mut layers = Vec::new(alloc);
    if layers.push((layer(alloc)?, m)).is_err() {
        return Err(DirFault::Memory);
    }
    let mut disk = disk(alloc, stored)?;
    read_rows(alloc, &mut disk, &layers, table, &kinds, t)
}

/// `put ec898988 5.0 8a028978`, `del ec898988 5.0` or `range ec898988 5.0 ec898a88`
fn add_entry(alloc: Global, stored: &mut Stored, line: &str) -> Result<(), Memory> {
    let (word, line) = cut(line);
    let (key, line) = cut(line);
    let (at, end) = cut(line);
    let key = Blob::from_vec(bytes(alloc, key)?);
    let end = Blob::from_vec(bytes(alloc, end)?);
    let at = time(at);
    let entry = match word {
        "put" => Entry::Put {
            key,
            at,
            value: end,
        },
        "del" => Entry::Del { key, at },
        _ => Entry::Range {
            lo: key,
            hi: end,
            at,
        },
    };
    Ok(stored.entries.push(entry)?)
}

fn put_entry(entry: &Entry, out: &mut String) -> Result<(), Memory> {
    let (word, at, end) = match entry {
        Entry::Put { at, value, .. } => ("put ", *at, value.as_slice()),
        Entry::Del { at, .. } => ("del ", *at, b"".as_slice()),
        Entry::Range { at, hi, .. } => ("range ", *at, hi.as_slice()),
    };
    out.push_str(word)?;
    put_bytes(entry.key(), out)?;
    out.push(' ')?;
    put_time(at, out)?;
    out.push(' ')?;
    put_bytes(end, out)?;
    Ok(out.push('\n')?)
}

fn put_object(word: &str, object: &Text, front: &str, out: &mut String) -> Result<(), Memory> {
    let part = object.as_str().strip_prefix(front).unwrap_or("?");
    Ok(write!(out, "{word} {part}")?)
}

fn put_digests(
    wanted: &[u8; 32],
    found: &Option<[u8; 32]>,
    out: &mut String,
) -> Result<(), Memory> {
    out.push_str(" wanted ")?;
    put_bytes(wanted, out)?;
    match found {
        Some(found) => {
            out.push_str(" found ")?;
            put_bytes(found, out)?;
        }
        None => out.push_str(" absent")?,
    }
    Ok(out.push('\n')?)
}

/// Appends a fault by its name, and the object that is named, without the front.
pub fn put_fault(fault: &DirFault, front: &str, out: &mut String) -> Result<(), Memory> {
    match fault {
        DirFault::Failed => Ok(out.push_str("Failed\n")?),
        DirFault::Memory => Err(Memory),
        DirFault::Damaged {
            object,
            wanted,
            found,
        } => {
            put_object("Damaged", object, front, out)?;
            put_digests(wanted, found, out)
        }
        DirFault::Malformed { object, offset } => {
            put_object("Malformed", object, front, out)?;
            Ok(write!(out, " {offset}\n")?)
        }
        DirFault::LayerDiffers {
            object,
            wanted,
            found,
        } => {
            put_object("LayerDiffers", object, front, out)?;
            put_digests(wanted, found, out)
        }
    }
}

fn put_entries(read: &Result<Vec<Entry>, DirFault>, out: &mut String) -> Result<(), Memory> {
    match read {
        Ok(entries) => {
            for entry in entries {
                put_entry(entry, out)?;
            }
            let count = entries.len();
            Ok(write!(out, "{count} rows\n")?)
        }
        Err(fault) => put_fault(fault, FRONT, out),
    }
}

/// The first table of the manifest under another id.
fn renamed(alloc: Global, m: &Manifest, id: u32) -> Result<Descriptor, Memory> {
    let Some(part) = m.tables.as_slice().first() else {
        return Err(Memory);
    };
    match part.descriptors.as_slice().first() {
        Some(d) => d.restored(alloc, id, d.database(), &[], Hlc::zero()),
        None => Err(Memory),
    }
}

fn put_restored(done: Result<(), RestoreFault>, out: &mut String) -> Result<(), Memory> {
    match done {
        Ok(()) => Ok(out.push_str("ok\n")?),
        Err(RestoreFault::Unmapped) => Ok(out.push_str("Unmapped\n")?),
        Err(RestoreFault::Memory) => Err(Memory),
    }
}

/// Puts entries of a table under a new id over a store, and appends its rows as of a time.
fn restore_over<V: Versions + Drop>(
    alloc: Global,
    store: V,
    d: &Descriptor,
    ids: &IdMap,
    entries: &[Entry],
    line: &str,
    out: &mut String,
) -> Result<(), Memory> {
    let mut rows = TableRows::new(alloc, store);
    let done = put_rows(alloc, &mut rows, ids, entries, time(after(line, "at")));
    put_restored(done, out)?;
    select(&rows, d, after(line, "as-of"), out)
}

fn ids(alloc: Global, old: &str, new: u32) -> Result<IdMap, Memory> {
    let old = numbers(alloc, old)?;
    if !are_ascending(&old) || old.len() > 100 || new > 1_000_000 {
        return Err(Memory);
    }
    IdMap::new(alloc, &old, new).map_err(|_| Memory)
}

/// Puts entries under a new id, over both stores.
fn put_renamed(
    alloc: Global,
    stored: &Stored,
    entries: &[Entry],
    line: &str,
    out: &mut String,
) -> Result<(), Memory> {
    let Ok(m) = read_manifest_bytes(alloc, &stored.manifest) else {
        return Err(Memory);
    };
    let new = number(after(line, "new"));
    let d = renamed(alloc, &m, new)?;
    let ids = ids(alloc, after(line, "old"), new)?;
    let mut first = String::new(alloc);
    let mut second = String::new(alloc);
    let (list, map) = (FactList::new(alloc), MvccMap::new(alloc));
    restore_over(alloc, list, &d, &ids, entries, line, &mut first)?;
    restore_over(alloc, map, &d, &ids, entries, line, &mut second)?;
    put_both(first.as_str(), second.as_str(), out)
}

/// `restore 0 INT old 100 new 105 at 9.0 as-of 9.0`
fn restore(alloc: Global, stored: &Stored, line: &str, out: &mut String) -> Result<(), Memory> {
    match read(alloc, stored, line) {
        Ok(entries) => put_renamed(alloc, stored, &entries, line, out),
        Err(_) => Err(Memory),
    }
}

fn set_fails(stored: &mut Stored, text: &str) -> Result<(), Memory> {
    stored.fails.clear();
    for word in text.split(',') {
        stored.fails.push(word.parse::<u64>().unwrap_or(0))?;
    }
    Ok(())
}

fn call(alloc: Global, stored: &mut Stored, line: &str, out: &mut String) -> Result<(), Memory> {
    let (call, words) = cut(line);
    match call {
        "manifest" => Ok(stored.manifest = bytes(alloc, words)?),
        "object" => add_object(alloc, stored, words),
        "fails" => set_fails(stored, words),
        "entry" => add_entry(alloc, stored, words),
        "read" => put_entries(&read(alloc, stored, words), out),
        "restore" => restore(alloc, stored, words, out),
        "put" => put_renamed(alloc, stored, &stored.entries, words, out),
        _ => Err(Memory),
    }
}

/// Answers the calls on the objects of the layer.
pub fn answer(alloc: Global, lines: &str, out: &mut String) -> Result<(), Memory> {
    let mut stored = Stored {
        manifest: Vec::new(alloc),
        objects: Vec::new(alloc),
        fails: Vec::new(alloc),
        entries: Vec::new(alloc),
    };
    for line in lines.split('\n') {
        if !line.is_empty() {
            call(alloc, &mut stored, line, out)?;
        }
    }
    Ok(())
}
