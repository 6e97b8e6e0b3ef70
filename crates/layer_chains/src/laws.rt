//! What holds of every chain of layers.
ghost use Rattle.layer_chains.specs.Chains.{ChainsShowTables};
ghost use Rattle.layer_chains.specs.Joins.{JoinsAreDirect};

/// A law: the entries of a chain to a time, from the last layer on that introduces a table, show the
/// table's rows at that time, whether it was taken offline, introduced again, collected or restored
/// in between.
pub fn chains_show_tables()
    ensures { ChainsShowTables }
{}

/// A law: the entries of layers that adjoin, merged from the last one on that introduces a table,
/// are those of the record without history from the first start to the last end, for a table that
/// is public at that end.
pub fn joins_are_direct()
    ensures { JoinsAreDirect }
{}
