//! What calls on one layer leave of all layers.
ghost use Rattle.collection_dir.specs.Standing.{LawInEither};

/// A law: objects that stand still stand after a change to one started layer, where that is safe
/// with its manifest in either version, and finished if it is open. What a call on a layer keeps
/// in each image at each moment is all that this asks of it.
pub fn one_layer_may_change_in_either()
    ensures { LawInEither }
{}
