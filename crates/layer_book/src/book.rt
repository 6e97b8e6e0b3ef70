//! The book of the own layers.
ghost use Rattle.std.specs.Prelude.{◌≡◌, ◌++◌, filter, not, IfOk, OnOk, OnErr};
ghost use Rattle.layer_book.specs.Books.{name_in, no_layers, same_name, with_layer, without_layer};
ghost use Rattle.layer_book.specs.Subdirectories.{first_of, last_end_of, last_full_of, layers_of, subdirectories_of};
ghost use Rattle.std.specs.Option.{option_copied};

use crate::listing::{add_layers, add_subdirectories};
use crate::order::{is_in, is_same_name, later_end, later_full};
use layer_manifest::Manifest;
use layer_model::LayerName;
use mvcc_keys::{Hlc, Memory};
use std::alloc::Global;
use std::marker::Model;
use table_descriptors::Name;

/// The layers that a cluster's jobs finished, with their manifests, in the order in which they
/// were added. Layers of other clusters are handed to the calls that list them too.
#[derive(Drop)]
pub struct LayerBook {
    alloc: Global,
    cluster: Name,
    layers: Vec<(LayerName, Manifest)>,
}

impl Model for LayerBook {
    ghost use Rattle.layer_book.specs.Books.{Book};

    ghost Value = { Book };

    ghost use Rattle.layer_book.specs.BookView.{view_of};

    ghost view = { view_of };
}

#[tactic(auto, unfolding(crate::specs::Subdirectories::last_full_of))]
fn last_full_of(layers: &[(LayerName, Manifest)], collection: &Name) -> Hlc
    ensures { result ≡ last_full_of name_in collection.now layers.now }
{
    let mut last = Hlc::zero();
    for entry in layers {
        last = later_full(last, collection, &entry.0);
    }
    last
}

#[tactic(auto, unfolding(crate::specs::Subdirectories::last_end_of))]
fn last_end_of(
    layers: &[(LayerName, Manifest)],
    collection: &Name,
    cluster: &Name,
    full: Hlc,
) -> Hlc
    ensures { result ≡ last_end_of name_in collection.now cluster.now full layers.now }
{
    let mut last = Hlc::zero();
    for entry in layers {
        last = later_end(last, collection, cluster, full, &entry.0);
    }
    last
}

fn first_of<'a>(
    layers: &'a [(LayerName, Manifest)],
    collection: &Name,
    cluster: &Name,
    full: Hlc,
) -> Option<&'a (LayerName, Manifest)>
    ensures { option_copied result ≡ first_of name_in collection.now cluster.now full layers.now }
{
    layers
        .iter()
        .find(|entry| is_in(collection, cluster, full, &entry.0))
}

/// Keeps the layers of other names.
fn keep_others(layers: &mut Vec<(LayerName, Manifest)>, layer: &LayerName)
    ensures { layers.new.items ≡ filter (λ p. not (same_name p.0 layer.now)) layers.old.items }
{
    layers.retain(|entry| !is_same_name(&entry.0, layer));
}

impl LayerBook {
    /// A book without layers.
    pub fn new(alloc: Global, cluster: Name) -> LayerBook
        ensures { result ≡ no_layers cluster }
    {
        LayerBook {
            alloc,
            cluster,
            layers: Vec::new(alloc),
        }
    }

    /// The cluster whose layers these are.
    pub fn cluster(&self) -> &Name
        ensures { result.now ≡ self.now.cluster }
    {
        &self.cluster
    }

    pub fn add(&mut self, layer: LayerName, m: Manifest) -> Result<(), Memory>
        ensures added { OnOk result (self.new ≡ with_layer self.old layer m) }
        ensures kept { OnErr result (self.new ≡ self.old) }
    {
        Ok(self.layers.push((layer, m))?)
    }

    /// Takes a layer out, each time that it is there.
    pub fn remove(&mut self, layer: &LayerName)
        ensures { self.new ≡ without_layer self.old layer.now }
    {
        keep_others(&mut self.layers, layer);
    }

    /// The greatest end time of a full backup that an own layer of the collection belongs to, or
    /// zero.
    pub fn last_full(&self, collection: &Name) -> Hlc
        ensures { result ≡ last_full_of name_in collection.now self.now.layers }
    {
        last_full_of(self.layers.as_slice(), collection)
    }

    /// The first of the own layers of a subdirectory.
    pub fn first(
        &self,
        collection: &Name,
        cluster: &Name,
        full: Hlc,
    ) -> Option<&(LayerName, Manifest)>
        ensures { option_copied result ≡ first_of name_in collection.now cluster.now full self.now.layers }
    {
        first_of(self.layers.as_slice(), collection, cluster, full)
    }

    /// The greatest end of the own layers of a subdirectory, or zero.
    pub fn last_end(&self, collection: &Name, cluster: &Name, full: Hlc) -> Hlc
        ensures { result ≡ last_end_of name_in collection.now cluster.now full self.now.layers }
    {
        last_end_of(self.layers.as_slice(), collection, cluster, full)
    }

    /// The subdirectories of a collection that have an own or a foreign layer, by time, then by
    /// cluster. The last one is the collection's LATEST.
    #[tactic(auto, using(crate::proofs::Joins::subdirectories_joined))]
    pub fn subdirectories(
        &self,
        collection: &Name,
        foreign: &[(LayerName, Manifest)],
    ) -> Result<Vec<(Name, Hlc)>, Memory>
        ensures { IfOk result (λ v. v.items ≡ subdirectories_of name_in collection.now (self.now.layers ++ foreign.now)) }
    {
        let mut list = Vec::new(self.alloc);
        add_subdirectories(self.alloc, &mut list, collection, foreign)?;
        add_subdirectories(self.alloc, &mut list, collection, self.layers.as_slice())?;
        Ok(list)
    }

    /// Copies of the own and foreign layers of a subdirectory, by start, then end, then job.
    #[tactic(auto, using(crate::proofs::Joins::layers_joined))]
    pub fn layers(
        &self,
        collection: &Name,
        cluster: &Name,
        full: Hlc,
        foreign: &[(LayerName, Manifest)],
    ) -> Result<Vec<(LayerName, Manifest)>, Memory>
        ensures { IfOk result (λ v. v.items ≡ layers_of name_in collection.now cluster.now full (self.now.layers ++ foreign.now)) }
    {
        let own = self.layers.as_slice();
        let mut list = Vec::new(self.alloc);
        add_layers(self.alloc, &mut list, collection, cluster, full, foreign)?;
        add_layers(self.alloc, &mut list, collection, cluster, full, own)?;
        Ok(list)
    }
}
