//! Tests on the names of layers, and their order.
ghost use Rattle.std.specs.Prelude.{◌≡◌, if◌then◌else◌};
ghost use Rattle.layer_book.specs.Books.{same_name};
ghost use Rattle.layer_book.specs.Subdirectories.{is_in, is_of, later_time, layer_cmp, subdirectory, subdirectory_cmp};

use layer_model::LayerName;
use mvcc_keys::Hlc;
use std::cmp::Ordering;
use table_descriptors::Name;

pub(crate) fn is_of(collection: &Name, layer: &LayerName) -> bool
    ensures { result ≡ is_of collection.now layer.now }
{
    layer.collection.is_same(collection)
}

pub(crate) fn is_in(collection: &Name, cluster: &Name, full: Hlc, layer: &LayerName) -> bool
    ensures { result ≡ is_in collection.now cluster.now full layer.now }
{
    is_of(collection, layer) && layer.cluster.is_same(cluster) && layer.full == full
}

pub(crate) fn is_same_name(a: &LayerName, b: &LayerName) -> bool
    ensures { result ≡ same_name a.now b.now }
{
    is_in(&b.collection, &b.cluster, b.full, a)
        && a.start == b.start
        && a.end == b.end
        && a.job == b.job
}

/// By start, then end, then job.
pub(crate) fn layer_order(a: &LayerName, b: &LayerName) -> Ordering
    ensures { result ≡ layer_cmp a.now b.now }
{
    let by_end = a.end.cmp(&b.end).then(a.job.cmp(&b.job));
    a.start.cmp(&b.start).then(by_end)
}

/// A layer's subdirectory against another one: by time, then by cluster.
pub(crate) fn subdirectory_order(layer: &LayerName, other: &(Name, Hlc)) -> Ordering
    ensures { result ≡ subdirectory_cmp (subdirectory layer.now) other.now }
{
    let by_cluster = layer.cluster.as_bytes().cmp(other.0.as_bytes());
    layer.full.cmp(&other.1).then(by_cluster)
}

fn later_time(s: Hlc, t: Hlc) -> Hlc
    ensures { result ≡ later_time s t }
{
    if s < t { t } else { s }
}

/// The greater of a time and the end of a layer, if that is in the subdirectory.
pub(crate) fn later_end(
    last: Hlc,
    collection: &Name,
    cluster: &Name,
    full: Hlc,
    layer: &LayerName,
) -> Hlc
    ensures { result ≡ (if is_in collection.now cluster.now full layer.now then later_time last layer.now.end else last) }
{
    if is_in(collection, cluster, full, layer) {
        later_time(last, layer.end)
    } else {
        last
    }
}

/// The greater of a time and the full time of a layer, if that is in the collection.
pub(crate) fn later_full(last: Hlc, collection: &Name, layer: &LayerName) -> Hlc
    ensures { result ≡ (if is_of collection.now layer.now then later_time last layer.now.full else last) }
{
    if is_of(collection, layer) {
        later_time(last, layer.full)
    } else {
        last
    }
}
