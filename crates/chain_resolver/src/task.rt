//! What the search is asked for.
use mvcc_keys::Hlc;

/// A chain to a time, layers that join two times, or layers that tell the changes between them.
#[derive(Clone, Copy, Debug)]
pub enum Task {
    Chain(Hlc),
    Join(Hlc, Hlc),
    Span(Hlc, Hlc),
}
