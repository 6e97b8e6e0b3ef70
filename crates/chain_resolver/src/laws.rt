//! What is asked for is determined.
ghost use Rattle.std.specs.Prelude.{◌≡◌, List, ℕ};
ghost use Rattle.mvcc_keys.specs.Times.{Time};
ghost use Rattle.chain_resolver.specs.declared.faults.CoverFault.{CoverFault};
ghost use Rattle.chain_resolver.specs.declared.layer.Layer.{Layer};
ghost use Rattle.chain_resolver.specs.Best.{CoversAreFound};
ghost use Rattle.chain_resolver.specs.Cover.{IsReason};
ghost use Rattle.chain_resolver.specs.Ways.{IsBestWay, Route};

/// A law: there is at most one best way.
pub fn best_way_is_unique()
    ensures { (r : Route) (ls : List Layer) (ps qs : List ℕ) → IsBestWay r ls ps → IsBestWay r ls qs → ps ≡ qs }
{}

/// A law: there is one reason at most for which no chain leads to a time.
pub fn reason_is_unique()
    ensures { (ls : List Layer) (t : Time) (f g : CoverFault) → IsReason ls t f → IsReason ls t g → f ≡ g }
{}

/// A law: the best chain and the cover of a time, as functions of ordered layers, are those that
/// the relations name.
pub fn covers_are_found()
    ensures { CoversAreFound }
{}
