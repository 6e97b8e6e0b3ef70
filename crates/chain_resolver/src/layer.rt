//! Layers as chains see them.
ghost use Rattle.std.specs.Prelude.{◌≡◌};
ghost use Rattle.chain_resolver.specs.Ways.{are_ordered, serves};

use mvcc_keys::Hlc;

/// The interval of a layer, the first time from which its history is whole, and whether it has
/// history.
#[derive(Clone, Copy, Debug, PartialEq, Eq)]
pub struct Layer {
    pub start: Hlc,
    pub end: Hlc,
    pub floor: Hlc,
    pub history: bool,
}

/// Whether a layer, after those below it, is enough for a read at `t`.
pub fn serves(layer: &Layer, t: Hlc) -> bool
    ensures { result ≡ serves layer.now t }
{
    layer.end == t || (layer.history && layer.start < t && layer.floor <= t && t < layer.end)
}

/// Whether each layer starts before its end.
pub fn layers_are_ordered(layers: &[Layer]) -> bool
    ensures { result ≡ are_ordered layers.now }
{
    layers.iter().all(|layer| layer.start < layer.end)
}
