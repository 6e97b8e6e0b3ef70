//! What holds of rewritten keys.
ghost use Rattle.key_rewriter.specs.Rewriting.{KeepsOrder, KeepsDifferences};

/// A law: two keys of one table keep their order.
pub fn rewritten_keys_keep_their_order()
    ensures { KeepsOrder }
{}

/// A law: different keys give different keys.
pub fn rewritten_keys_differ()
    ensures { KeepsDifferences }
{}
