//! What a run reads from and writes to.
ghost use Rattle.std.specs.Prelude.{◌-◌, ◌^◌, ◌≤◌, ℕ, List, Option, length};
ghost use Rattle.std.specs.Io.{WritesAtMost, ReadsAtMost};
ghost use Rattle.outside_world.specs.Causes.{Rose, HasCause, WriteHasCause};
ghost use Rattle.outside_world.specs.Told.{ReadTakes, WriteAdds};

/// The outside failed.
#[derive(Clone, Copy, Debug, PartialEq, Eq)]
pub struct Failed;

/// The failure of a call, once it is counted.
pub(crate) fn count_failure(faults: &mut u64) -> Failed
    ensures later { faults.old ≤ faults.new }
    ensures capped { faults.new ≤ 2 ^ 64 - 1 }
    ensures rose { Rose faults.old faults.new }
{
    *faults = faults.saturating_add(1);
    Failed
}

/// Bytes that come in, by what is left of them, where the source tells that.
pub trait Source {
    ghost left: { Self → Option (List ℕ) };

    /// How often a read failed. The count stands still at the end of 64 bits.
    ghost faults: { Self → ℕ };

    /// Puts the next bytes in front of the room and answers how many: 0 for a room that isn't
    /// empty is the end. The rest of the room, and all of it after a failure, may hold anything.
    fn read(&mut self, room: &mut [u8]) -> Result<usize, Failed>
        ensures bound { ReadsAtMost result room.new }
        ensures taken { ReadTakes (left self.old) (left self.new) result room.new }
        ensures cause { HasCause (faults self.old) (faults self.new) result };
}

/// Bytes that go out, by what was taken of them, where the sink tells that.
pub trait Sink {
    ghost held: { Self → Option (List ℕ) };

    /// How often a write failed, or took nothing of a piece that isn't empty. The count stands
    /// still at the end of 64 bits.
    ghost faults: { Self → ℕ };

    /// Takes bytes from the front of the piece and answers how many.
    fn write(&mut self, piece: &[u8]) -> Result<usize, Failed>
        ensures bound { WritesAtMost result piece.now }
        ensures added { WriteAdds (held self.old) (held self.new) result piece.now }
        ensures cause { WriteHasCause (faults self.old) (faults self.new) result (length piece.now) };
}
