//! What holds of keys in bytes.
ghost use Rattle.fact_model.specs.Facts.{IsKeyOrder};
ghost use Rattle.version_store.specs.Tables.{bytes_cmp};

/// A law: the order of bytes is total and ties no two different keys, so whatever holds of dated
/// facts over ordered keys holds of a store's.
pub fn keys_are_ordered()
    ensures { IsKeyOrder bytes_cmp }
{}
