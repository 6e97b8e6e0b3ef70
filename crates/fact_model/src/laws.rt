//! What holds of dated facts.
ghost use Rattle.fact_model.specs.Laws.{NewestIsExact, ListingsAreExact, ScansAreExact, KeptSuffices, KeptOnceMore, OrderIsFree, MapsCarry};

/// A law: the newest fact of a key up to a time is a fact that touches the key, dated up to then,
/// and none such is later; of facts that lie apart it is the only one.
pub fn newest_is_exact<K, V>()
    ensures { NewestIsExact K V }
{}

/// A law: the listings of puts and deletions and of range deletions ascend, and have exactly the
/// facts that are listed.
pub fn listings_are_exact<K, V>()
    ensures { ListingsAreExact K V }
{}

/// A law: a scan ascends by key and has exactly the puts that are the newest facts of their keys;
/// no other list does.
pub fn scans_are_exact<K, V>()
    ensures { ScansAreExact K V }
{}

/// A law: what is kept when the history up to a time is collected says of that time and each
/// later one what all facts say.
pub fn kept_suffices<K, V>()
    ensures { KeptSuffices K V }
{}

/// A law: collecting twice is collecting once, to the later time.
pub fn kept_once_more<K, V>()
    ensures { KeptOnceMore K V }
{}

/// A law: the order in which facts stand says nothing.
pub fn order_is_free<K, V>()
    ensures { OrderIsFree K V }
{}

/// A law: under a map of keys that keeps their order, and any map of values, values, scans and
/// what is kept are those of the facts before, mapped.
pub fn maps_carry<K, L, V, W>()
    ensures { MapsCarry K L V W }
{}
