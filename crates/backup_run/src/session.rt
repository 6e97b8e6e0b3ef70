//! A run in the middle of its script.
ghost use Rattle.std.specs.Prelude.{◌≡◌, ◌≢◌, ◌<◌, ◌+◌, ◌∷◌, [], ◌++◌, ◌==◌, ◌||◌, not, length, ℕ, IfErr, IfOk, List, Option, true, false};
ghost use Rattle.outside_world.specs.Disk.{DiskHasCause};
ghost use Rattle.outside_world.specs.declared.disk.DiskFault.TheVariants as outage;
ghost use Rattle.outside_world.specs.Moments.{ChangesOnly};
ghost use Rattle.outside_world.specs.Objects.{Objects};
ghost use Rattle.machine_model.specs.Machine.{World, Machine};
ghost use Rattle.machine_model.specs.Script.{Line, Within};
ghost use Rattle.backup_run.specs.Endings.{IsLastAt, IsLineOfDisk, IsWholeAt, Leads};
ghost use Rattle.layer_model.specs.Names.{NamesObject};
ghost use Rattle.backup_run.specs.Run.{at_first, at_of, IsHere, IsHereAtLines, Goes, outcome_of_lines, outcome_of_rest};

use crate::answering::{Said, say_line, say_malformed, say_nothing};
use cluster_core::Cluster;
use command_lang::LINE_BYTES_MAX;
use machine_model::SCRIPT_BYTES_MAX;
use outside_world::{Disk, DiskFault};
use std::alloc::Global;
use std::marker::Model;

/// The cluster, the line so far, and how many bytes the script may still have.
#[derive(Drop)]
pub struct Session {
    alloc: Global,
    cluster: Option<Cluster>,
    pending: Vec<u8>,
    line: u32,
    room: u32,
    refused: bool,
}

impl Model for Session {
    ghost use Rattle.backup_run.specs.Run.{Here};
    ghost use Rattle.std.specs.Coded.{codes};
    ghost use Rattle.cluster_core.specs.contracts.cluster.Cluster as known;

    ghost Value = { Here };

    ghost coded = { Prim.hlevel (codes, known.the_row.coded) };

    ghost use Rattle.backup_run.specs.SessionView.{view_of, Bounds};

    ghost view = { view_of };

    ghost invariant = { Bounds };
}

fn either(a: bool, b: bool) -> bool
    ensures { result ≡ (a || b) }
{
    a || b
}

impl Session {
    /// A run that has read nothing.
    #[tactic(auto, unfolding(crate::specs::Run::at_first))]
    pub fn new(alloc: Global) -> Session
        ensures { result ≡ at_first }
    {
        Session {
            alloc,
            cluster: None,
            pending: Vec::new(alloc),
            line: 1,
            room: SCRIPT_BYTES_MAX,
            refused: false,
        }
    }

    /// Whether a reply was a refusal.
    pub fn refused(&self) -> bool
        ensures { result ≡ self.now.refused }
    {
        self.refused
    }

    /// Whether some bytes of a line wait for its end.
    fn is_amid_line(&self) -> bool
        ensures value { result ≡ not (length self.now.pending == 0) }
        ensures bounded { result ≡ true → self.now.line + self.now.room < SCRIPT_BYTES_MAX + 1 }
    {
        !self.pending.is_empty()
    }

    /// Executes the line that was read. A cluster that gave no reply takes no further command.
    fn end_line<D: Disk>(&mut self, disk: &mut D) -> Result<Said, DiskFault>
        requires { self.old.line + self.old.room < SCRIPT_BYTES_MAX + 1 }
        ensures malformed { (worlds : List World) (began : Objects) (m : Option Machine) (ls : List Line) → IsHereAtLines worlds began self.old (D.view disk.old) m (Within self.old.pending ∷ ls) → IfOk result (λ said. said.malformed ≡ true →
            IsLastAt said.text.items (outcome_of_lines worlds (at_of self.old m) (Within self.old.pending ∷ ls)) (D.view disk.new)) }
        ensures goes_on { (worlds : List World) (began : Objects) (m : Option Machine) (ls : List Line) → IsHereAtLines worlds began self.old (D.view disk.old) m (Within self.old.pending ∷ ls) → IfOk result (λ said. said.malformed ≡ false →
            Goes began self.new (D.view disk.new) (outcome_of_lines worlds (at_of self.old m) (Within self.old.pending ∷ ls)).machine said.text.items (λ xs. outcome_of_lines worlds (at_of self.old m) (Within self.old.pending ∷ xs)) (outcome_of_lines worlds)) }
        ensures leads { (worlds : List World) (began : Objects) (m : Option Machine) (ls : List Line) → IsHereAtLines worlds began self.old (D.view disk.old) m (Within self.old.pending ∷ ls) → Leads (outcome_of_lines worlds (at_of self.old m) (Within self.old.pending ∷ ls)).machine began (D.view disk.old) (D.view disk.new) }
        ensures changes { ChangesOnly NamesObject NamesObject (D.view disk.old) (D.view disk.new) }
        ensures cleared { IfOk result (λ _. self.new.pending ≡ []) }
        ensures room { self.new.room ≡ self.old.room }
        ensures cause { DiskHasCause (D.view disk.old).faults (D.view disk.new).faults result }
        ensures disk { IfErr result (λ e. e ≡ outage.Failed → IsLineOfDisk self.old.pending) }
    {
        let said = match say_line(
            self.alloc,
            &mut self.cluster,
            disk,
            self.line,
            &self.pending,
        ) {
            Ok(said) => said,
            Err(fault) => {
                self.cluster = None;
                return Err(fault);
            }
        };
        self.pending.clear();
        self.line += 1;
        self.refused = either(self.refused, said.refused);
        Ok(said)
    }

    /// Takes a byte of the script.
    pub fn take_byte<D: Disk>(&mut self, disk: &mut D, byte: u8) -> Result<Said, DiskFault>
        ensures malformed { (worlds : List World) (began : Objects) (m : Option Machine) (more : List ℕ) → IsHere worlds began self.old (D.view disk.old) m (byte ∷ more) → IfOk result (λ said. said.malformed ≡ true →
            IsLastAt said.text.items (outcome_of_rest worlds (at_of self.old m) (byte ∷ more)) (D.view disk.new)) }
        ensures goes_on { (worlds : List World) (began : Objects) (m : Option Machine) (more : List ℕ) → IsHere worlds began self.old (D.view disk.old) m (byte ∷ more) → IfOk result (λ said. said.malformed ≡ false →
            Goes began self.new (D.view disk.new) (outcome_of_rest worlds (at_of self.old m) (byte ∷ more)).machine said.text.items (λ xs. outcome_of_rest worlds (at_of self.old m) (byte ∷ xs)) (outcome_of_rest worlds)) }
        ensures leads { (worlds : List World) (began : Objects) (m : Option Machine) (more : List ℕ) → IsHere worlds began self.old (D.view disk.old) m (byte ∷ more) → Leads (outcome_of_rest worlds (at_of self.old m) (byte ∷ more)).machine began (D.view disk.old) (D.view disk.new) }
        ensures changes { ChangesOnly NamesObject NamesObject (D.view disk.old) (D.view disk.new) }
        ensures room { IfOk result (λ said. said.malformed ≡ false → self.new.room + 1 ≡ self.old.room) }
        ensures cleared { IfOk result (λ said. said.malformed ≡ false → byte ≡ 10 → self.new.pending ≡ []) }
        ensures longer { IfOk result (λ said. said.malformed ≡ false → byte ≢ 10 → self.new.pending ≡ self.old.pending ++ byte ∷ []) }
        ensures quiet { IfOk result (λ said. said.malformed ≡ false → byte ≢ 10 → said.text.items ≡ []) }
        ensures cause { DiskHasCause (D.view disk.old).faults (D.view disk.new).faults result }
        ensures disk { IfErr result (λ e. e ≡ outage.Failed → (byte ≡ 10) × IsLineOfDisk self.old.pending) }
    {
        if self.room == 0 {
            let column = self.pending.as_slice().len() + 1;
            return Ok(say_malformed(self.alloc, self.line, column)?);
        }
        if byte == b'\n' {
            self.room -= 1;
            return self.end_line(disk);
        }
        if self.pending.len() == LINE_BYTES_MAX {
            return Ok(say_malformed(self.alloc, self.line, LINE_BYTES_MAX + 1)?);
        }
        self.room -= 1;
        self.pending.push(byte)?;
        Ok(say_nothing(self.alloc))
    }

    /// Takes the end of the input, which may end a line.
    pub fn end_input<D: Disk>(&mut self, disk: &mut D) -> Result<Said, DiskFault>
        ensures malformed { (worlds : List World) (began : Objects) (m : Option Machine) → IsHere worlds began self.old (D.view disk.old) m [] → IfOk result (λ said. said.malformed ≡ true →
            IsLastAt said.text.items (outcome_of_rest worlds (at_of self.old m) []) (D.view disk.new)) }
        ensures whole { (worlds : List World) (began : Objects) (m : Option Machine) → IsHere worlds began self.old (D.view disk.old) m [] → IfOk result (λ said. said.malformed ≡ false →
            IsWholeAt self.new.refused said.text.items (outcome_of_rest worlds (at_of self.old m) []) (D.view disk.new)) }
        ensures leads { (worlds : List World) (began : Objects) (m : Option Machine) → IsHere worlds began self.old (D.view disk.old) m [] → Leads (outcome_of_rest worlds (at_of self.old m) []).machine began (D.view disk.old) (D.view disk.new) }
        ensures changes { ChangesOnly NamesObject NamesObject (D.view disk.old) (D.view disk.new) }
        ensures cause { DiskHasCause (D.view disk.old).faults (D.view disk.new).faults result }
        ensures disk { IfErr result (λ e. e ≡ outage.Failed → IsLineOfDisk self.old.pending) }
    {
        if self.is_amid_line() {
            return self.end_line(disk);
        }
        Ok(say_nothing(self.alloc))
    }
}
