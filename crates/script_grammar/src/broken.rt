//! Why tokens give no value.
use mvcc_keys::Memory;

/// Where tokens break off, or want of memory.
#[derive(Clone, Copy, Debug, PartialEq, Eq)]
pub enum Broken {
    /// So many tokens are left from the first that fits nowhere. With 0 the line ends too early.
    At(usize),
    Memory,
}

impl From<Memory> for Broken {
    ghost use Rattle.std.specs.Prelude.{◌≡◌};
    ghost use Rattle.script_grammar.specs.declared.broken.Broken.TheVariants.{Memory as no_memory};

    ghost from_gives = { λ _ e. e ≡ no_memory };

    fn from(_refused: Memory) -> Broken {
        Broken::Memory
    }
}
