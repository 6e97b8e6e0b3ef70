//! Manifests, written.
ghost use Rattle.std.specs.Prelude.{◌≡◌, ◌++◌, ◌∷◌, [], ◌≤◌, length, take, OnOk, OnErr};
ghost use Rattle.table_descriptors.specs.Fields.{list_code, flag_code};
ghost use Rattle.layer_manifest.specs.Manifests.{IsProperManifest};
ghost use Rattle.layer_manifest.specs.ManifestFiles.{version_code, bounds_code, chunk_code, descriptor_code, table_code, scope_code, names_code, times_code, manifest_code};

use crate::manifest::{ChunkInfo, Manifest, TablePart};
use mvcc_keys::{Blob, Memory, put_time};
use table_descriptors::{Descriptor, Scope, put_ids, put_number, put_sized, write_descriptor};

fn put_flag(flag: bool, out: &mut Vec<u8>) -> Result<(), Memory>
    ensures ok { OnOk result (out.new.items ≡ out.old.items ++ flag_code flag ∷ []) }
    ensures err { OnErr result (out.new.items ≡ out.old.items) }
{
    out.push(u8::from(flag)).map_err(|_| Memory)
}

fn put_bounds(bounds: &Option<(Blob, Blob)>, out: &mut Vec<u8>) -> Result<(), Memory>
    ensures ok { OnOk result (out.new.items ≡ out.old.items ++ bounds_code bounds.now) }
    ensures err { OnErr result (take (length out.old.items) out.new.items ≡ out.old.items) }
{
    let Some((least, greatest)) = bounds else {
        return Ok(());
    };
    put_sized(least.as_slice(), out)?;
    put_sized(greatest.as_slice(), out)
}

fn put_chunk(chunk: &ChunkInfo, out: &mut Vec<u8>) -> Result<(), Memory>
    ensures ok { OnOk result (out.new.items ≡ out.old.items ++ chunk_code chunk.now) }
    ensures err { OnErr result (take (length out.old.items) out.new.items ≡ out.old.items) }
{
    put_number(u64::from(chunk.entries), out)?;
    put_number(chunk.length, out)?;
    out.extend_from_slice(&chunk.digest).map_err(|_| Memory)?;
    put_bounds(&chunk.bounds, out)
}

fn put_chunks(chunks: &[ChunkInfo], out: &mut Vec<u8>) -> Result<(), Memory>
    ensures ok { OnOk result (out.new.items ≡ out.old.items ++ list_code chunk_code chunks.now) }
    ensures err { OnErr result (take (length out.old.items) out.new.items ≡ out.old.items) }
{
    put_number(chunks.len() as u64, out)?;
    for chunk in chunks {
        put_chunk(chunk, out)?;
    }
    Ok(())
}

/// Appends a descriptor after its length. Its bytes are made beside the others first.
fn put_descriptor(descriptor: &Descriptor, out: &mut Vec<u8>) -> Result<(), Memory>
    ensures ok { OnOk result (out.new.items ≡ out.old.items ++ descriptor_code descriptor.now) }
    ensures err { OnErr result (take (length out.old.items) out.new.items ≡ out.old.items) }
{
    let mut bytes = Vec::new(*out.allocator());
    write_descriptor(descriptor, &mut bytes)?;
    put_sized(bytes.as_slice(), out)
}

fn put_descriptors(descriptors: &[Descriptor], out: &mut Vec<u8>) -> Result<(), Memory>
    ensures ok { OnOk result (out.new.items ≡ out.old.items ++ list_code descriptor_code descriptors.now) }
    ensures err { OnErr result (take (length out.old.items) out.new.items ≡ out.old.items) }
{
    put_number(descriptors.len() as u64, out)?;
    for d in descriptors {
        put_descriptor(d, out)?;
    }
    Ok(())
}

#[tactic(auto, using(table_descriptors::proofs::FieldLaws::kept_front))]
fn put_table(table: &TablePart, out: &mut Vec<u8>) -> Result<(), Memory>
    ensures ok { OnOk result (out.new.items ≡ out.old.items ++ table_code table.now) }
    ensures err { OnErr result (take (length out.old.items) out.new.items ≡ out.old.items) }
{
    put_number(u64::from(table.id), out)?;
    put_flag(table.introduced, out)?;
    put_descriptors(table.descriptors.as_slice(), out)?;
    put_chunks(table.chunks.as_slice(), out)
}

fn put_tables(tables: &[TablePart], out: &mut Vec<u8>) -> Result<(), Memory>
    ensures ok { OnOk result (out.new.items ≡ out.old.items ++ list_code table_code tables.now) }
    ensures err { OnErr result (take (length out.old.items) out.new.items ≡ out.old.items) }
{
    put_number(tables.len() as u64, out)?;
    for table in tables {
        put_table(table, out)?;
    }
    Ok(())
}

fn put_scope(scope: &Scope, out: &mut Vec<u8>) -> Result<(), Memory>
    ensures ok { OnOk result (out.new.items ≡ out.old.items ++ scope_code scope.now) }
    ensures err { OnErr result (take (length out.old.items) out.new.items ≡ out.old.items) }
{
    match scope {
        Scope::Database(name) => {
            out.push(1).map_err(|_| Memory)?;
            put_sized(name.as_bytes(), out)
        }
        Scope::Tables(ids) => {
            out.push(2).map_err(|_| Memory)?;
            put_ids(ids.as_slice(), out)
        }
    }
}

impl Manifest {
    /// Appends the version, the cluster and the job.
    fn put_names(&self, out: &mut Vec<u8>) -> Result<(), Memory>
        requires { self.now.version ≤ 2 }
        ensures ok { OnOk result (out.new.items ≡ out.old.items ++ names_code self.now) }
        ensures err { OnErr result (take (length out.old.items) out.new.items ≡ out.old.items) }
    {
        let mark = [b'M', b'A', b'N', b'0' + self.version];
        out.extend_from_slice(&mark).map_err(|_| Memory)?;
        put_sized(self.cluster.as_bytes(), out)?;
        put_number(u64::from(self.job), out)
    }

    /// Appends the times and the flag of history.
    fn put_times(&self, out: &mut Vec<u8>) -> Result<(), Memory>
        ensures ok { OnOk result (out.new.items ≡ out.old.items ++ times_code self.now) }
        ensures err { OnErr result (take (length out.old.items) out.new.items ≡ out.old.items) }
    {
        put_time(self.full, out)?;
        put_time(self.start, out)?;
        put_time(self.end, out)?;
        put_time(self.floor, out)?;
        put_flag(self.history, out)
    }

    #[tactic(auto, unfolding(crate::specs::ManifestFiles::manifest_code))]
    fn put(&self, out: &mut Vec<u8>) -> Result<(), Memory>
        requires { self.now.version ≤ 2 }
        ensures ok { OnOk result (out.new.items ≡ out.old.items ++ manifest_code self.now) }
        ensures err { OnErr result (take (length out.old.items) out.new.items ≡ out.old.items) }
    {
        self.put_names(out)?;
        self.put_times(out)?;
        put_scope(&self.scope, out)?;
        put_tables(self.tables.as_slice(), out)
    }
}

/// Appends a manifest, in the form of its version.
pub fn write_manifest(manifest: &Manifest, out: &mut Vec<u8>) -> Result<(), Memory>
    requires { IsProperManifest manifest.now }
    ensures ok { OnOk result (out.new.items ≡ out.old.items ++ manifest_code manifest.now) }
    ensures err { OnErr result (out.new.items ≡ out.old.items) }
{
    let before = out.len();
    let done = manifest.put(out);
    if done.is_err() {
        out.truncate(before);
    }
    done
}
