//! Lists in order: the subdirectories of some layers, and the layers of a subdirectory.
ghost use Rattle.std.specs.Prelude.{◌≡◌, ◌≤◌, length, if◌then◌else◌, IfOk, OnOk};
ghost use Rattle.std.specs.List.{prefix_len, slice_get};
ghost use Rattle.std.specs.Ordering.{is_gt};
ghost use Rattle.fact_model.specs.Ordered.{insert_by};
ghost use Rattle.layer_book.specs.Books.{name_in};
ghost use Rattle.layer_book.specs.Inserts.{is_tied, place_of, with_layers, with_subdirectories};
ghost use Rattle.layer_book.specs.Subdirectories.{is_in, is_of, layer_cmp, place_cmp, subdirectory, subdirectory_cmp};

use crate::order::{is_in, is_of, layer_order, subdirectory_order};
use layer_manifest::Manifest;
use layer_model::LayerName;
use mvcc_keys::{Hlc, Memory};
use std::alloc::Global;
use std::cmp::Ordering;
use table_descriptors::Name;

// ---- subdirectories

fn place_of_subdirectory(list: &[(Name, Hlc)], layer: &LayerName) -> usize
    ensures place { result ≡ place_of subdirectory_cmp (subdirectory layer.now) list.now }
    ensures within { result ≤ length list.now }
{
    let before = |s: &&(Name, Hlc)| subdirectory_order(layer, *s).is_gt();
    list.iter().take_while(before).count()
}

/// Whether a layer's subdirectory stands at a place.
fn is_at(list: &[(Name, Hlc)], place: usize, layer: &LayerName) -> bool
    ensures { result ≡ is_tied subdirectory_cmp (subdirectory layer.now) (slice_get list.now place) }
{
    match list.get(place) {
        Some(s) => subdirectory_order(layer, s).is_eq(),
        None => false,
    }
}

/// Puts a layer's subdirectory at its place, where it isn't there yet.
fn insert_subdirectory(
    alloc: Global,
    list: &mut Vec<(Name, Hlc)>,
    layer: &LayerName,
) -> Result<(), Memory>
    ensures { OnOk result (list.new.items ≡ insert_by subdirectory_cmp (subdirectory layer.now) list.old.items) }
{
    let place = place_of_subdirectory(list.as_slice(), layer);
    if is_at(list.as_slice(), place, layer) {
        return Ok(());
    }
    let cluster = layer.cluster.copy(alloc)?;
    list.insert(place, (cluster, layer.full))
        .map_err(|_| Memory)
}

fn add_subdirectory(
    alloc: Global,
    list: &mut Vec<(Name, Hlc)>,
    collection: &Name,
    entry: &(LayerName, Manifest),
) -> Result<(), Memory>
    ensures { OnOk result (list.new.items ≡ (if is_of collection.now entry.now.0 then insert_by subdirectory_cmp (subdirectory entry.now.0) list.old.items else list.old.items)) }
{
    if is_of(collection, &entry.0) {
        insert_subdirectory(alloc, list, &entry.0)
    } else {
        Ok(())
    }
}

/// Adds the subdirectories of the collection's layers to some in order.
pub(crate) fn add_subdirectories(
    alloc: Global,
    list: &mut Vec<(Name, Hlc)>,
    collection: &Name,
    layers: &[(LayerName, Manifest)],
) -> Result<(), Memory>
    ensures { OnOk result (list.new.items ≡ with_subdirectories collection.now layers.now list.old.items) }
{
    let mut left = layers.len();
    while left > 0 {
        left -= 1;
        add_subdirectory(alloc, list, collection, &layers[left])?;
    }
    Ok(())
}

// ---- the layers of a subdirectory

fn place_of_layer(list: &[(LayerName, Manifest)], layer: &LayerName) -> usize
    ensures place { result ≡ prefix_len (λ p. is_gt (layer_cmp layer.now p.0)) list.now }
    ensures within { result ≤ length list.now }
{
    list.iter()
        .take_while(|p| layer_order(layer, &p.0).is_gt())
        .count()
}

fn copy_entry(alloc: Global, entry: &(LayerName, Manifest)) -> Result<(LayerName, Manifest), Memory>
    ensures { IfOk result (λ p. p ≡ entry.now) }
{
    Ok((entry.0.copy(alloc)?, entry.1.copy(alloc)?))
}

/// Puts a copy of a layer at its place, in front of those that tie with it.
fn insert_layer(
    alloc: Global,
    list: &mut Vec<(LayerName, Manifest)>,
    entry: &(LayerName, Manifest),
) -> Result<(), Memory>
    ensures { OnOk result (list.new.items ≡ insert_by (place_cmp name_in) entry.now list.old.items) }
{
    let place = place_of_layer(list.as_slice(), &entry.0);
    let copy = copy_entry(alloc, entry)?;
    list.insert(place, copy).map_err(|_| Memory)
}

fn add_layer(
    alloc: Global,
    list: &mut Vec<(LayerName, Manifest)>,
    collection: &Name,
    cluster: &Name,
    full: Hlc,
    entry: &(LayerName, Manifest),
) -> Result<(), Memory>
    ensures { OnOk result (list.new.items ≡ (if is_in collection.now cluster.now full entry.now.0 then insert_by (place_cmp name_in) entry.now list.old.items else list.old.items)) }
{
    if is_in(collection, cluster, full, &entry.0) {
        insert_layer(alloc, list, entry)
    } else {
        Ok(())
    }
}

/// Adds copies of the layers that lie in a subdirectory to some in order.
#[tactic(auto, using(crate::proofs::Joins::layers_more))]
pub(crate) fn add_layers(
    alloc: Global,
    list: &mut Vec<(LayerName, Manifest)>,
    collection: &Name,
    cluster: &Name,
    full: Hlc,
    layers: &[(LayerName, Manifest)],
) -> Result<(), Memory>
    ensures { OnOk result (list.new.items ≡ with_layers collection.now cluster.now full layers.now list.old.items) }
{
    let mut left = layers.len();
    while left > 0 {
        left -= 1;
        add_layer(alloc, list, collection, cluster, full, &layers[left])?;
    }
    Ok(())
}
