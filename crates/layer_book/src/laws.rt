//! What holds of layers by subdirectory.
ghost use Rattle.layer_book.specs.Laws.{SubdirectoriesAreExact, LayersAreExact, LastFullIsGreatest, MapsCarry};

/// A law: subdirectories ascend, and are exactly those of the collection's layers.
pub fn subdirectories_are_exact<X>()
    ensures { SubdirectoriesAreExact X }
{}

/// A law: the layers of a subdirectory are exactly those that lie in it, in order.
pub fn layers_are_exact<X>()
    ensures { LayersAreExact X }
{}

/// A law: the last full time is the greatest one of the collection's layers, or zero.
pub fn last_full_is_greatest<X>()
    ensures { LastFullIsGreatest X }
{}

/// A law: of a list that is mapped, the layers are those before, mapped, and so is the first layer
/// of a subdirectory; subdirectories, the last full time and the last end are those before.
pub fn maps_carry<X, Y>()
    ensures { MapsCarry X Y }
{}
