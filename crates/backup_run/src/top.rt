//! The top call.
ghost use Rattle.std.specs.Prelude.{◌↔◌, true, false, ◌≡◌, ◌<◌, ◌≤◌, List, ℕ, None, Some, IfOk, length};
ghost use Rattle.outside_world.specs.Moments.{ChangesOnly};
ghost use Rattle.machine_model.specs.Machine.{World};
ghost use Rattle.machine_model.specs.Disks.{IsReady};
ghost use Rattle.machine_model.specs.Script.{script_outcome};
ghost use Rattle.backup_run.specs.Endings.{RunsScript, code_of, are_known, CodeCause, ReadCause, WriteCause, StoreCause, StaysLow, Completes, done_ending};
ghost use Rattle.layer_model.specs.Names.{NamesObject};
ghost use Rattle.backup_run.specs.Run.{at_first, Ran, AtInputEnd};

use crate::feeding::{end_input, feed};
use crate::session::Session;
use crate::stops::{Ending, ending_of};
use mvcc_keys::{Memory, Text};
use outside_world::{Disk, Sink, Source};
use std::alloc::Global;

/// The most bytes of a read.
const READ_BYTES_MAX: usize = 65_536;

fn done_ending(refused: bool) -> Ending
    ensures { result ≡ done_ending refused }
{
    if refused {
        Ending::SomeRefused
    } else {
        Ending::AllDone
    }
}

/// The ending of a run whose input was read to its end.
fn end_of_run<K: Sink, D: Disk>(session: &mut Session, sink: &mut K, disk: &mut D) -> Ending
    ensures ran { AtInputEnd (K.held sink.old) (K.held sink.new) (D.view disk.old) (D.view disk.new) session.old result }
    ensures wrote { WriteCause (K.faults sink.old) (K.faults sink.new) result }
    ensures stored { StoreCause (D.view disk.old).faults (D.view disk.new).faults result }
    ensures read { ReadCause 0 0 result }
{
    match end_input(session, sink, disk) {
        Ok(refused) => done_ending(refused),
        Err(stop) => ending_of(stop),
    }
}

/// Reads pieces into a room and feeds them until the input or the run ends. Each piece takes some
/// of the bytes that the script may have, so the loop ends.
fn run_session<S: Source, K: Sink, D: Disk>(
    session: &mut Session,
    room: &mut [u8],
    source: &mut S,
    sink: &mut K,
    disk: &mut D,
) -> Ending
    requires { 0 < length room.old }
    ensures ran { Ran (S.left source.old) (S.left source.new) (K.held sink.old) (K.held sink.new) (D.view disk.old) (D.view disk.new) session.old result }
    ensures read { ReadCause (S.faults source.old) (S.faults source.new) result }
    ensures wrote { WriteCause (K.faults sink.old) (K.faults sink.new) result }
    ensures stored { StoreCause (D.view disk.old).faults (D.view disk.new).faults result }
{
    'pieces: loop {
        let Ok(count) = source.read(room) else {
            return Ending::ReadFault;
        };
        if count == 0 {
            return end_of_run(session, sink, disk);
        }
        let piece = room.split_at(count).0;
        match feed(session, sink, disk, piece) {
            Ok(()) => {}
            Err(stop) => return ending_of(stop),
        }
    }
}

/// Room for a piece.
fn make_room(alloc: Global, len: usize) -> Result<Vec<u8>, Memory>
    ensures { IfOk result (λ v. length v.items ≡ len) }
{
    Ok(vec![in alloc; 0u8; len]?)
}

/// Executes a script.
fn run_script<S: Source, K: Sink, D: Disk>(
    alloc: Global,
    source: &mut S,
    sink: &mut K,
    disk: &mut D,
) -> Ending
    ensures ran { Ran (S.left source.old) (S.left source.new) (K.held sink.old) (K.held sink.new) (D.view disk.old) (D.view disk.new) at_first result }
    ensures read { ReadCause (S.faults source.old) (S.faults source.new) result }
    ensures wrote { WriteCause (K.faults sink.old) (K.faults sink.new) result }
    ensures stored { StoreCause (D.view disk.old).faults (D.view disk.new).faults result }
{
    let mut session = Session::new(alloc);
    match make_room(alloc, READ_BYTES_MAX) {
        Ok(mut room) => run_session(&mut session, room.as_mut_slice(), source, sink, disk),
        Err(_) => Ending::NoMemory,
    }
}

/// What the program ends with: a number from 0 to 7. 0: all done; 1: the same with a refusal; 2: the
/// words; 3: a malformed line; 4: a read fault; 5: a write fault; 6: a fault of the disk; 7: want of
/// memory.
#[derive(Clone, Copy, Debug, PartialEq, Eq)]
pub struct Status {
    pub code: u8,
    ghost in_range: { code ≤ 7 },
}

/// Whether the words of the program, without its name, are the one word `run`.
fn are_known(words: &[Text]) -> bool
    ensures { result ≡ are_known words.now }
{
    match words {
        [word] => word.as_bytes() == b"run".as_slice(),
        _ => false,
    }
}

fn status_of(ending: Ending) -> Status
    ensures { result.code ≡ code_of ending }
{
    let code = match ending {
        Ending::AllDone => 0,
        Ending::SomeRefused => 1,
        Ending::IllFormed => 3,
        Ending::ReadFault => 4,
        Ending::Unwritten => 5,
        Ending::DiskFailed => 6,
        Ending::NoMemory => 7,
    };
    Status { code }
}

/// Does all that the program does: reads a script from the source, executes each line as soon as it
/// is read, and writes its reply to the sink before the next line.
pub fn run<S: Source, K: Sink, D: Disk>(
    alloc: Global,
    words: &[Text],
    source: &mut S,
    sink: &mut K,
    disk: &mut D,
) -> Status
    // The words alone decide on status 2, and then nothing is read or written.
    ensures words { result.code ≡ 2 ↔ (are_known words.now ≡ false) }
    ensures idle { are_known words.now ≡ false → (source.new ≡ source.old) × (sink.new ≡ sink.old) × (disk.new ≡ disk.old) }
    // Where the disk stands for the script that the source tells, what the sink got in this call is
    // what the table machine answers to it, all of it or as much as the status says; and whatever a
    // crash leaves of the disk at any moment of the call stands for the script, too, so that the
    // same script ends in the same layers.
    ensures headline { are_known words.now ≡ true → (worlds : List World) (script held : List ℕ) → S.left source.old ≡ Some script → K.held sink.old ≡ Some held →
        IsReady None (script_outcome worlds script).machine (D.view disk.old) →
        RunsScript worlds (S.left source.new) (K.held sink.new) (D.view disk.old) (D.view disk.new) script held result.code }
    // Whatever the disk holds, no name but that of an object of a layer is put or removed.
    ensures changes { ChangesOnly NamesObject NamesObject (D.view disk.old) (D.view disk.new) }
    // The counts of faults: 4, 5 and 6 come only where they rose.
    ensures read { CodeCause 4 (S.faults source.old) (S.faults source.new) result.code }
    ensures wrote { CodeCause 5 (K.faults sink.old) (K.faults sink.new) result.code }
    ensures stored { CodeCause 6 (D.view disk.old).faults (D.view disk.new).faults result.code }
    // Without a rise all is answered, or memory was wanted.
    ensures complete { are_known words.now ≡ true → (worlds : List World) (script held : List ℕ) → S.left source.old ≡ Some script → K.held sink.old ≡ Some held →
        IsReady None (script_outcome worlds script).machine (D.view disk.old) →
        StaysLow (S.faults source.old) (S.faults source.new) → StaysLow (K.faults sink.old) (K.faults sink.new) → StaysLow (D.view disk.old).faults (D.view disk.new).faults →
        Completes held (K.held sink.new) result.code (script_outcome worlds script) }
{
    if !are_known(words) {
        return Status { code: 2 };
    }
    status_of(run_script(alloc, source, sink, disk))
}
