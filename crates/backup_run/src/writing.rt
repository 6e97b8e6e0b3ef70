//! Writing whole texts.
ghost use Rattle.std.specs.Prelude.{◌≡◌, ◌++◌, OnOk, OnErr};
ghost use Rattle.outside_world.specs.Told.{told_before};
ghost use Rattle.outside_world.specs.Causes.{HasCause};
ghost use Rattle.backup_run.specs.Endings.{WritesPart};

use outside_world::{Failed, Sink};

/// Writes a whole text. A sink that takes nothing of it has failed, and has counted that itself.
pub fn write_all<K: Sink>(sink: &mut K, text: &[u8]) -> Result<(), Failed>
    ensures all { OnOk result (K.held sink.new ≡ told_before (K.held sink.old) text.now) }
    ensures part { OnErr result (WritesPart (K.held sink.old) (K.held sink.new) text.now) }
    ensures cause { HasCause (K.faults sink.old) (K.faults sink.new) result }
{
    let mut rest = text;
    'rests: while !rest.is_empty() {
        let count = sink.write(rest)?;
        if count == 0 {
            return Err(Failed);
        }
        rest = rest.split_at(count).1;
    }
    Ok(())
}
