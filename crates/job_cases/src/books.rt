//! Calls on a book of layers.
use crate::descriptors::table;
use crate::words::{after, cut, name, number, put_time, time};
use layer_book::LayerBook;
use layer_manifest::{ChunkInfo, Manifest, TablePart, chunk_count, entry_count};
use layer_model::LayerName;
use mvcc_keys::{Blob, Items, Memory};
use std::alloc::Global;
use table_descriptors::Scope;

/// A book of the own layers, and the layers of other clusters.
#[derive(Drop)]
struct Books {
    book: LayerBook,
    foreign: Vec<(LayerName, Manifest)>,
}

/// The layer `c a full 5 from 5 to 7 job 3`.
fn layer(alloc: Global, line: &str) -> Result<LayerName, Memory> {
    let (collection, words) = cut(line);
    let collection = name(alloc, collection)?;
    Ok(LayerName {
        collection,
        cluster: name(alloc, cut(words).0)?,
        full: time(after(line, "full")),
        start: time(after(line, "from")),
        end: time(after(line, "to")),
        job: number(after(line, "job")),
    })
}

/// A chunk of so many entries.
fn chunk(alloc: Global, entries: u32) -> Result<ChunkInfo, Memory> {
    let least = Blob::copy_of(alloc, b"a")?;
    Ok(ChunkInfo {
        entries,
        length: 4,
        digest: [5; 32],
        bounds: Some((least, Blob::copy_of(alloc, b"z")?)),
    })
}

/// A table with one descriptor and one chunk.
fn part(alloc: Global, entries: u32) -> Result<TablePart, Memory> {
    let mut chunks = Vec::new(alloc);
    chunks.push(chunk(alloc, entries)?)?;
    let mut descriptors = Vec::new(alloc);
    descriptors.push(table(alloc, 100, "d.t columns k:INT key k at 1")?)?;
    Ok(TablePart {
        id: 100,
        introduced: true,
        descriptors: Items::from_vec(descriptors),
        chunks: Items::from_vec(chunks),
    })
}

/// The manifest of a layer with one table, whose one chunk has as many entries as the job's number.
fn manifest(alloc: Global, layer: &LayerName) -> Result<Manifest, Memory> {
    let mut tables = Vec::new(alloc);
    tables.push(part(alloc, layer.job)?)?;
    Ok(Manifest {
        cluster: layer.cluster.copy(alloc)?,
        job: layer.job,
        full: layer.full,
        start: layer.start,
        end: layer.end,
        floor: layer.start,
        history: false,
        scope: Scope::Database(name(alloc, "d")?),
        tables: Items::from_vec(tables),
        version: 1,
    })
}

fn add(alloc: Global, book: &mut LayerBook, line: &str) -> Result<(), Memory> {
    let layer = layer(alloc, line)?;
    let manifest = manifest(alloc, &layer)?;
    book.add(layer, manifest)
}

fn add_foreign(
    alloc: Global,
    foreign: &mut Vec<(LayerName, Manifest)>,
    line: &str,
) -> Result<(), Memory> {
    let layer = layer(alloc, line)?;
    let manifest = manifest(alloc, &layer)?;
    Ok(foreign.push((layer, manifest))?)
}

fn remove(alloc: Global, book: &mut LayerBook, line: &str) -> Result<(), Memory> {
    let layer = layer(alloc, line)?;
    Ok(book.remove(&layer))
}

fn last(alloc: Global, book: &LayerBook, line: &str, out: &mut String) -> Result<(), Memory> {
    put_time(book.last_full(&name(alloc, line)?), out)?;
    Ok(out.push('\n')?)
}

/// `subdirectories c`
fn subdirectories(
    alloc: Global,
    books: &Books,
    line: &str,
    out: &mut String,
) -> Result<(), Memory> {
    let collection = name(alloc, line)?;
    for (cluster, full) in &books.book.subdirectories(&collection, &books.foreign)? {
        write!(out, "{cluster} ")?;
        put_time(*full, out)?;
        out.push('\n')?;
    }
    Ok(out.push_str(".\n")?)
}

/// Appends how many chunks and entries a layer of one table has.
fn put_counts(manifest: &Manifest, out: &mut String) -> Result<(), Memory> {
    let tables = manifest.tables.as_slice();
    match tables {
        [table] if table.chunks.as_slice().len() < 10 => {
            let chunks = chunk_count(tables);
            let entries = entry_count(tables);
            Ok(write!(out, " chunks {chunks} entries {entries}\n")?)
        }
        _ => Err(Memory),
    }
}

fn put_layer(layer: &LayerName, manifest: &Manifest, out: &mut String) -> Result<(), Memory> {
    put_time(layer.start, out)?;
    out.push_str(" to ")?;
    put_time(layer.end, out)?;
    let job = layer.job;
    write!(out, " job {job}")?;
    put_counts(manifest, out)
}

/// `first c a 5`
fn first(alloc: Global, book: &LayerBook, line: &str, out: &mut String) -> Result<(), Memory> {
    let (collection, words) = cut(line);
    let (cluster, full) = cut(words);
    let (collection, cluster) = (name(alloc, collection)?, name(alloc, cluster)?);
    if let Some((layer, manifest)) = book.first(&collection, &cluster, time(full)) {
        put_layer(layer, manifest, out)?;
    }
    Ok(out.push_str(".\n")?)
}

/// `end c a 5`
fn last_end(alloc: Global, book: &LayerBook, line: &str, out: &mut String) -> Result<(), Memory> {
    let (collection, words) = cut(line);
    let (cluster, full) = cut(words);
    let (collection, cluster) = (name(alloc, collection)?, name(alloc, cluster)?);
    put_time(book.last_end(&collection, &cluster, time(full)), out)?;
    Ok(out.push('\n')?)
}

/// `layers c a 5`
fn layers(alloc: Global, books: &Books, line: &str, out: &mut String) -> Result<(), Memory> {
    let (collection, words) = cut(line);
    let (cluster, full) = cut(words);
    let (collection, cluster) = (name(alloc, collection)?, name(alloc, cluster)?);
    let found = books
        .book
        .layers(&collection, &cluster, time(full), &books.foreign)?;
    for (layer, manifest) in &found {
        put_layer(layer, manifest, out)?;
    }
    Ok(out.push_str(".\n")?)
}

fn call(alloc: Global, books: &mut Books, line: &str, out: &mut String) -> Result<(), Memory> {
    let (call, words) = cut(line);
    match call {
        "add" => add(alloc, &mut books.book, words),
        "foreign" => add_foreign(alloc, &mut books.foreign, words),
        "remove" => remove(alloc, &mut books.book, words),
        "cluster" => Ok(write!(out, "{}\n", books.book.cluster())?),
        "last" => last(alloc, &books.book, words, out),
        "subdirectories" => subdirectories(alloc, books, words, out),
        "first" => first(alloc, &books.book, words, out),
        "end" => last_end(alloc, &books.book, words, out),
        "layers" => layers(alloc, books, words, out),
        _ => Err(Memory),
    }
}

/// Answers the calls on a new book of a cluster.
pub fn answer(alloc: Global, cluster: &str, lines: &str, out: &mut String) -> Result<(), Memory> {
    let mut books = Books {
        book: LayerBook::new(alloc, name(alloc, cluster)?),
        foreign: Vec::new(alloc),
    };
    for line in lines.split('\n') {
        if !line.is_empty() {
            call(alloc, &mut books, line, out)?;
        }
    }
    Ok(())
}
