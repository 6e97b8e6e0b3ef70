//! Bytes that go in, and what is written for them.
ghost use Rattle.std.specs.Prelude.{◌≡◌, ◌+◌, ◌∷◌, [], length, OnOk, IfOk, IfErr};
ghost use Rattle.backup_run.specs.Endings.{DiskCause, SinkCause};
ghost use Rattle.backup_run.specs.Run.{Fed, EndedIn, AtInputEnd};
ghost use Rattle.backup_run.specs.Endings.{ending_of, done_ending};

use crate::session::Session;
use crate::stops::{Ending, Stop, ending_of};
use crate::writing::write_all;
use outside_world::{Disk, Sink};

/// Takes a byte, and writes what it is answered.
fn feed_byte<K: Sink, D: Disk>(
    session: &mut Session,
    sink: &mut K,
    disk: &mut D,
    byte: u8,
) -> Result<(), Stop>
    ensures fed { OnOk result (Fed (K.held sink.old) (K.held sink.new) (D.view disk.old) (D.view disk.new) session.old session.new (byte ∷ [])) }
    ensures ended { IfErr result (λ stop. EndedIn (K.held sink.old) (K.held sink.new) (D.view disk.old) (D.view disk.new) session.old (byte ∷ []) stop) }
    ensures room { OnOk result (session.new.room + 1 ≡ session.old.room) }
    ensures cause { SinkCause (K.faults sink.old) (K.faults sink.new) result }
    ensures disk_cause { DiskCause (D.view disk.old).faults (D.view disk.new).faults result }
{
    let said = session.take_byte(disk, byte)?;
    write_all(sink, &said.text)?;
    if said.malformed {
        return Err(Stop::Malformed);
    }
    Ok(())
}

/// Takes some bytes, and writes what they are answered.
pub fn feed<K: Sink, D: Disk>(
    session: &mut Session,
    sink: &mut K,
    disk: &mut D,
    piece: &[u8],
) -> Result<(), Stop>
    ensures fed { OnOk result (Fed (K.held sink.old) (K.held sink.new) (D.view disk.old) (D.view disk.new) session.old session.new piece.now) }
    ensures ended { IfErr result (λ stop. EndedIn (K.held sink.old) (K.held sink.new) (D.view disk.old) (D.view disk.new) session.old piece.now stop) }
    ensures room { OnOk result (session.new.room + length piece.now ≡ session.old.room) }
    ensures cause { SinkCause (K.faults sink.old) (K.faults sink.new) result }
    ensures disk_cause { DiskCause (D.view disk.old).faults (D.view disk.new).faults result }
{
    for byte in piece {
        feed_byte(session, sink, disk, *byte)?;
    }
    Ok(())
}

/// Takes the end of the input, which may end a line. Answers whether a reply was a refusal.
pub fn end_input<K: Sink, D: Disk>(
    session: &mut Session,
    sink: &mut K,
    disk: &mut D,
) -> Result<bool, Stop>
    ensures ended { IfOk result (λ refused. AtInputEnd (K.held sink.old) (K.held sink.new) (D.view disk.old) (D.view disk.new) session.old (done_ending refused)) }
    ensures stopped { IfErr result (λ stop. AtInputEnd (K.held sink.old) (K.held sink.new) (D.view disk.old) (D.view disk.new) session.old (ending_of stop)) }
    ensures cause { SinkCause (K.faults sink.old) (K.faults sink.new) result }
    ensures disk_cause { DiskCause (D.view disk.old).faults (D.view disk.new).faults result }
{
    let said = session.end_input(disk)?;
    write_all(sink, &said.text)?;
    if said.malformed {
        return Err(Stop::Malformed);
    }
    Ok(session.refused())
}
