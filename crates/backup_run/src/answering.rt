//! What a line is answered.
ghost use Rattle.std.specs.Prelude.{◌≡◌, ◌<◌, ◌≤◌, ◌+◌, true, false, is_none, IfErr, IfOk, OnOk, List, [], Option, Some};
ghost use Rattle.outside_world.specs.Disk.{DiskHasCause};
ghost use Rattle.outside_world.specs.declared.disk.DiskFault.TheVariants as outage;
ghost use Rattle.outside_world.specs.Moments.{ChangesOnly};
ghost use Rattle.outside_world.specs.Objects.{Objects};
ghost use Rattle.reply_texts.specs.declared.replies.Response.{Response};
ghost use Rattle.machine_model.specs.declared.limits.TheConstants.{SCRIPT_BYTES_MAX};
ghost use Rattle.machine_model.specs.Machine.{World, Machine};
ghost use Rattle.machine_model.specs.Step.{step};
ghost use Rattle.machine_model.specs.Script.{first_machine, after_reply, reply_before, response_of, machine_in, command_step, reading_before, machine_after, read_at, Outcome, malformed_text};
ghost use Rattle.cluster_core.specs.Standing.{AreAhead, MayStep, StandsFor};
ghost use Rattle.cluster_core.specs.Stepping.{IsReplied, IsReplyOf, is_of_disk};
ghost use Rattle.backup_run.specs.Endings.{IsLineOfDisk, Leads};
ghost use Rattle.layer_model.specs.Names.{NamesObject};
ghost use Rattle.backup_run.specs.Run.{SaysLine, HasStepped, IsAnswered, IsAt, IsReadyFrom, MayGo};

use cluster_core::{Cluster, Limits, RunFault};
use command_lang::{Command, LineFault, parse_line};
use machine_model::{EVENTS_MAX, TABLES_MAX};
use mvcc_keys::{Hlc, Memory};
use outside_world::{Disk, DiskFault};
use reply_texts::Reply;
use std::alloc::Global;
use table_descriptors::Name;

/// What a line says: its text, and whether that is a refusal, or the last line of a malformed
/// script.
#[derive(Drop)]
pub struct Said {
    pub text: Vec<u8>,
    pub refused: bool,
    pub malformed: bool,
}

/// The cluster with which a run begins.
#[tactic(auto, unfolding(machine_model::specs::Script::first_machine))]
fn first_cluster(alloc: Global, name: Name) -> Result<Cluster, Memory>
    ensures stands { IfOk result (λ c. StandsFor c (first_machine name)) }
    ensures steps { IfOk result (λ c. c.steps ≡ 0) }
    ensures ended { IfOk result (λ c. c.ended ≡ false) }
{
    let limits = Limits {
        events: EVENTS_MAX,
        tables: TABLES_MAX,
    };
    Cluster::new(alloc, name, Hlc::zero(), limits)
}

/// The text of a reply.
fn say_reply(reply: Reply) -> Said
    ensures { (m : Option Machine) (response : Response) → IsReplyOf response reply → SaysLine m result.malformed result.refused result.text.items (λ (o : Outcome). after_reply response o) (λ o. o) }
{
    Said {
        refused: reply.refusal.is_some(),
        text: reply.text.into_vec(),
        malformed: false,
    }
}

/// Executes a command by a cluster that no command has ended.
fn step_cluster<D: Disk>(
    cluster: &mut Cluster,
    disk: &mut D,
    command: &Command,
) -> Result<Reply, DiskFault>
    requires going { cluster.old.ended ≡ false }
    requires few { cluster.old.steps < SCRIPT_BYTES_MAX }
    requires stands { (m : Machine) × StandsFor cluster.old m }
    ensures step { (worlds : List World) (m end : Machine) → MayStep cluster.old m (step worlds m command.now) end (D.view disk.old) → IfOk result (λ r. IsReplied cluster.new r (step worlds m command.now)) }
    ensures ready { (worlds : List World) (began : Objects) (m end : Machine) → MayStep cluster.old m (step worlds m command.now) end (D.view disk.old) → AreAhead m end began (D.view disk.old).objects → OnOk result (IsReadyFrom began (Some (step worlds m command.now).machine) (Some end) (D.view disk.new)) }
    ensures leads { (worlds : List World) (began : Objects) (m end : Machine) → MayStep cluster.old m (step worlds m command.now) end (D.view disk.old) → AreAhead m end began (D.view disk.old).objects → Leads (Some end) began (D.view disk.old) (D.view disk.new) }
    ensures stays { OnOk result ((m : Machine) × StandsFor cluster.new m) }
    ensures changes { ChangesOnly NamesObject NamesObject (D.view disk.old) (D.view disk.new) }
    ensures steps { OnOk result ((cluster.new.steps ≡ cluster.old.steps + 1) × (cluster.new.ended ≡ false)) }
    ensures cause { DiskHasCause (D.view disk.old).faults (D.view disk.new).faults result }
    ensures disk { IfErr result (λ e. e ≡ outage.Failed → is_of_disk command.now ≡ true) }
{
    match cluster.step(command, disk) {
        Ok(reply) => Ok(reply),
        Err(RunFault::Disk) => Err(DiskFault::Failed),
        Err(RunFault::Memory) => Err(DiskFault::Memory),
        // the session drops a cluster that ended
        Err(RunFault::Ended) => unreachable!(),
    }
}

/// Executes a command, of the line of a number. The first one makes the cluster: None where another
/// comes first.
fn execute<D: Disk>(
    alloc: Global,
    cluster: &mut Option<Cluster>,
    disk: &mut D,
    number: u32,
    command: &Command,
) -> Result<Option<Reply>, DiskFault>
    requires stepped { HasStepped cluster.old number }
    requires first { 0 < number }
    requires few { number ≤ SCRIPT_BYTES_MAX }
    ensures step { (worlds : List World) (began : Objects) (m end : Option Machine) → MayGo began cluster.old m (machine_in (command_step worlds m command.now)) end (D.view disk.old) → IfOk result (λ r. IsAnswered cluster.new r (command_step worlds m command.now)) }
    ensures ready { (worlds : List World) (began : Objects) (m end : Option Machine) → MayGo began cluster.old m (machine_in (command_step worlds m command.now)) end (D.view disk.old) → OnOk result (IsReadyFrom began (machine_in (command_step worlds m command.now)) end (D.view disk.new)) }
    ensures leads { (worlds : List World) (began : Objects) (m end : Option Machine) → MayGo began cluster.old m (machine_in (command_step worlds m command.now)) end (D.view disk.old) → Leads end began (D.view disk.old) (D.view disk.new) }
    ensures changes { ChangesOnly NamesObject NamesObject (D.view disk.old) (D.view disk.new) }
    ensures stepped { IfOk result (λ _. HasStepped cluster.new (number + 1)) }
    ensures cause { DiskHasCause (D.view disk.old).faults (D.view disk.new).faults result }
    ensures disk { IfErr result (λ e. e ≡ outage.Failed → (is_none cluster.old ≡ false) × (is_of_disk command.now ≡ true)) }
{
    match cluster {
        Some(known) => Ok(Some(step_cluster(known, disk, command)?)),
        None => {
            let Command::Cluster { name } = command else {
                return Ok(None);
            };
            let mut made = first_cluster(alloc, name.copy(alloc)?)?;
            let reply = step_cluster(&mut made, disk, command)?;
            *cluster = Some(made);
            Ok(Some(reply))
        }
    }
}

/// The last line of a script with a malformed line.
fn malformed_line(alloc: Global, line: u32, column: usize) -> Result<Vec<u8>, Memory>
    ensures { IfOk result (λ v. v.items ≡ malformed_text line column) }
{
    let text = format!(in alloc; "malformed line={line} column={column}\n")?;
    Ok(Vec::from_slice(alloc, text.as_bytes())?)
}

/// The last words of a script with a malformed line.
pub fn say_malformed(alloc: Global, line: u32, column: usize) -> Result<Said, Memory>
    ensures text { IfOk result (λ said. said.text.items ≡ malformed_text line column) }
    ensures malformed { IfOk result (λ said. said.malformed ≡ true) }
    ensures refused { IfOk result (λ said. said.refused ≡ false) }
{
    Ok(Said {
        text: malformed_line(alloc, line, column)?,
        refused: false,
        malformed: true,
    })
}

/// Executes a command, and says its reply.
fn say_command<D: Disk>(
    alloc: Global,
    cluster: &mut Option<Cluster>,
    disk: &mut D,
    number: u32,
    command: &Command,
) -> Result<Said, DiskFault>
    requires stepped { HasStepped cluster.old number }
    requires first { 0 < number }
    requires few { number ≤ SCRIPT_BYTES_MAX }
    ensures said { (worlds : List World) (began : Objects) (m end : Option Machine) → MayGo began cluster.old m (machine_in (command_step worlds m command.now)) end (D.view disk.old) → IfOk result (λ said. SaysLine (machine_in (command_step worlds m command.now)) said.malformed said.refused said.text.items
        (λ (o : Outcome). reply_before number (response_of (command_step worlds m command.now)) o) (λ o. o)) }
    ensures at { (worlds : List World) (began : Objects) (m end : Option Machine) → MayGo began cluster.old m (machine_in (command_step worlds m command.now)) end (D.view disk.old) → OnOk result (IsAt began cluster.new (machine_in (command_step worlds m command.now)) end (D.view disk.new)) }
    ensures leads { (worlds : List World) (began : Objects) (m end : Option Machine) → MayGo began cluster.old m (machine_in (command_step worlds m command.now)) end (D.view disk.old) → Leads end began (D.view disk.old) (D.view disk.new) }
    ensures changes { ChangesOnly NamesObject NamesObject (D.view disk.old) (D.view disk.new) }
    ensures stepped { IfOk result (λ _. HasStepped cluster.new (number + 1)) }
    ensures cause { DiskHasCause (D.view disk.old).faults (D.view disk.new).faults result }
    ensures disk { IfErr result (λ e. e ≡ outage.Failed → (is_none cluster.old ≡ false) × (is_of_disk command.now ≡ true)) }
{
    match execute(alloc, cluster, disk, number, command)? {
        Some(reply) => Ok(say_reply(reply)),
        None => Ok(say_malformed(alloc, number, 1)?),
    }
}

pub fn say_nothing(alloc: Global) -> Said
    ensures text { result.text.items ≡ [] }
    ensures malformed { result.malformed ≡ false }
    ensures refused { result.refused ≡ false }
{
    Said {
        text: Vec::new(alloc),
        refused: false,
        malformed: false,
    }
}

/// Whether no command came before.
fn is_first(cluster: &Option<Cluster>) -> bool
    ensures { result ≡ is_none cluster.now }
{
    cluster.is_none()
}

/// Reads a line and executes it.
pub fn say_line<D: Disk>(
    alloc: Global,
    cluster: &mut Option<Cluster>,
    disk: &mut D,
    number: u32,
    line: &[u8],
) -> Result<Said, DiskFault>
    requires stepped { HasStepped cluster.old number }
    requires first { 0 < number }
    requires few { number ≤ SCRIPT_BYTES_MAX }
    ensures said { (worlds : List World) (began : Objects) (m end : Option Machine) → MayGo began cluster.old m (machine_after worlds m (read_at m line.now)) end (D.view disk.old) → IfOk result (λ said. SaysLine (machine_after worlds m (read_at m line.now)) said.malformed said.refused said.text.items
        (λ (o : Outcome). reading_before worlds number m (read_at m line.now) o) (λ o. o)) }
    ensures at { (worlds : List World) (began : Objects) (m end : Option Machine) → MayGo began cluster.old m (machine_after worlds m (read_at m line.now)) end (D.view disk.old) → OnOk result (IsAt began cluster.new (machine_after worlds m (read_at m line.now)) end (D.view disk.new)) }
    ensures leads { (worlds : List World) (began : Objects) (m end : Option Machine) → MayGo began cluster.old m (machine_after worlds m (read_at m line.now)) end (D.view disk.old) → Leads end began (D.view disk.old) (D.view disk.new) }
    ensures changes { ChangesOnly NamesObject NamesObject (D.view disk.old) (D.view disk.new) }
    ensures stepped { IfOk result (λ _. HasStepped cluster.new (number + 1)) }
    ensures cause { DiskHasCause (D.view disk.old).faults (D.view disk.new).faults result }
    ensures disk { IfErr result (λ e. e ≡ outage.Failed → IsLineOfDisk line.now) }
{
    let first = is_first(cluster);
    match parse_line(alloc, line, first) {
        Ok(None) => Ok(say_nothing(alloc)),
        Ok(Some(command)) => say_command(alloc, cluster, disk, number, &command),
        Err(LineFault::Wrong { column }) => Ok(say_malformed(alloc, number, column)?),
        Err(LineFault::Memory) => Err(DiskFault::Memory),
    }
}
