//! Laws on names and layers.
ghost use Rattle.layer_model.specs.Layers.{PartNamesDiffer};
ghost use Rattle.layer_model.specs.Names.{NamesAreExact, NamesDiffer};
ghost use Rattle.layer_model.specs.Stands.{EmptyStands, LawOfOneLayer};

/// A law: what `read_name` reads are just the names that `write_name` writes.
pub fn names_are_exact()
    ensures { NamesAreExact }
{}

/// A law: different objects have different names.
pub fn names_differ()
    ensures { NamesDiffer }
{}

/// A law: different parts of one layer have different names.
pub fn part_names_differ()
    ensures { PartNamesDiffer }
{}

/// A law: objects that stand still stand after a change to one started layer, where that is safe,
/// and finished if it is open.
pub fn one_layer_may_change()
    ensures { LawOfOneLayer }
{}

/// A law: no objects stand where there is no layer of another cluster.
pub fn nothing_stands()
    ensures { EmptyStands }
{}
