//! The best chain to a time, the best layers that join two times, and those that tell the changes
//! between them.
ghost use Rattle.std.specs.Prelude.{◌≡◌, MatchResult};
ghost use Rattle.chain_resolver.specs.Ways.{AreOrdered, IsBestWay, NoWay, chain_to, join_between, span_over};
ghost use Rattle.chain_resolver.specs.Best.{Chain, UncoveredBy, cover};
ghost use Rattle.chain_resolver.specs.Cover.{CoverFaultIs, JoinFaultIs, SpanFaultIs};

use crate::faults::{CoverFault, JoinFault, SpanFault};
use crate::layer::Layer;
use crate::reaching::reached_before;
use crate::reasons::reason;
use crate::search::best_way;
use crate::task::Task;
use mvcc_keys::Hlc;
use std::alloc::Global;

/// Why no chain leads to `t`.
fn cover_fault(alloc: Global, layers: &[Layer], t: Hlc) -> CoverFault
    requires none { NoWay (chain_to t) layers.now }
    requires ordered { AreOrdered layers.now }
    ensures { CoverFaultIs layers.now t result }
{
    let Ok(reached) = reached_before(alloc, layers, t) else {
        return CoverFault::Memory;
    };
    match reason(alloc, layers, t, reached) {
        Ok(fault) => fault,
        Err(_) => CoverFault::Memory,
    }
}

/// The places of the best chain to `t`, or why there is none. Of no layers at all both ends of
/// NotCovered are zero.
pub fn resolve(alloc: Global, layers: &[Layer], t: Hlc) -> Result<Vec<usize>, CoverFault>
    requires { AreOrdered layers.now }
    ensures best { MatchResult result (λ places. IsBestWay (chain_to t) layers.now places.items) (λ fault. CoverFaultIs layers.now t fault) }
    ensures cover { MatchResult result (λ places. cover layers.now t ≡ Chain places.items) (λ fault. UncoveredBy fault (cover layers.now t)) }
{
    match best_way(alloc, layers, &Task::Chain(t)) {
        Ok(Some(places)) => Ok(places),
        Ok(None) => Err(cover_fault(alloc, layers, t)),
        Err(_) => Err(CoverFault::Memory),
    }
}

/// The places of the best adjoining layers from one time to another.
pub fn join(alloc: Global, layers: &[Layer], from: Hlc, to: Hlc) -> Result<Vec<usize>, JoinFault>
    requires { AreOrdered layers.now }
    ensures { MatchResult result (λ places. IsBestWay (join_between from to) layers.now places.items) (λ fault. JoinFaultIs layers.now from to fault) }
{
    match best_way(alloc, layers, &Task::Join(from, to)) {
        Ok(Some(places)) => Ok(places),
        Ok(None) => Err(JoinFault::NoChain { from, to }),
        Err(_) => Err(JoinFault::Memory),
    }
}

/// The places of the best adjoining layers that tell the changes after one time up to another.
pub fn span(alloc: Global, layers: &[Layer], from: Hlc, to: Hlc) -> Result<Vec<usize>, SpanFault>
    requires { AreOrdered layers.now }
    ensures { MatchResult result (λ places. IsBestWay (span_over from to) layers.now places.items) (λ fault. SpanFaultIs layers.now from to fault) }
{
    match best_way(alloc, layers, &Task::Span(from, to)) {
        Ok(Some(places)) => Ok(places),
        Ok(None) => Err(SpanFault::NoSpan),
        Err(_) => Err(SpanFault::Memory),
    }
}
