//! What holds of every layer.
ghost use Rattle.layer_objects.specs.CutLaws.{EntriesAreCut, InfosAreProper, PiecesAreChunks};
ghost use Rattle.layer_objects.specs.Past.{LayersAreFinal, PastChains};
ghost use Rattle.layer_objects.specs.Storable.{FirstVersionsAgree, LayersMayBeWritten, ManifestsTell};

/// A law: what happens after the end of a layer, and what is added to tables that are not public,
/// does not change its objects, so a layer of a cluster can be told from the cluster's tables at any
/// later time.
pub fn layers_are_final()
    ensures { LayersAreFinal }
{}

/// A law: over tables whose facts are typed, sized and few, the layer of every record may be
/// written: its manifest is a proper one, and each of its entries can be spelled.
pub fn layers_may_be_written()
    ensures { LayersMayBeWritten }
{}

/// A law: the bytes of such a layer's manifest are those of no other manifest, so who reads them
/// knows all that the layer's record and tables tell, and how many chunks there are.
pub fn manifests_tell()
    ensures { ManifestsTell }
{}

/// A law: the manifest of such a layer, read and written again in version 1, is that of the record
/// with version 1, so a layer in either version is told by a record.
pub fn first_versions_agree()
    ensures { FirstVersionsAgree }
{}

/// A law: what was kept up to a time stays kept by what comes later.
pub fn past_chains()
    ensures { PastChains }
{}

/// A law: the pieces of a plan whose entries are a table's are chunks of the table.
pub fn pieces_are_chunks()
    ensures { PiecesAreChunks }
{}

/// A law: what a manifest tells of such a chunk is what a manifest of version 2 may tell.
pub fn infos_are_proper()
    ensures { InfosAreProper }
{}

/// A law: entries are cut into pieces of 256, the last of which may have fewer.
pub fn entries_are_cut()
    ensures { EntriesAreCut }
{}
