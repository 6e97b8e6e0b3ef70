//! Runs of clusters of given limits and of a given clock: what no script comes to.
ghost use Rattle.std.specs.Prelude.{◌≡◌, ◌<◌, ◌≤◌, false, IfOk};
ghost use Rattle.machine_model.specs.Machine.{Machine};
ghost use Rattle.cluster_core.specs.Standing.{StandsFor};

use crate::plan::Plan;
use cluster_core::{Cluster, Limits, RunFault};
use command_lang::parse_line;
use mvcc_keys::{Hlc, Memory};
use outside_world::MemoryDisk;
use reply_texts::Reply;
use std::alloc::Global;
use table_descriptors::Name;

/// The number at a place of a list, or another where the list ends before it.
fn number_at(numbers: &[u64], place: usize, other: u64) -> u32 {
    let number = numbers.get(place).copied().unwrap_or(other);
    u32::try_from(number).unwrap_or(u32::MAX)
}

/// The limits of a plan, of events and of tables; those of the program where it has none.
fn limits_of(plan: &Plan) -> Limits
    ensures tables { result.tables ≤ 4096 }
    ensures events { result.events ≤ 1000000 }
{
    Limits {
        events: number_at(&plan.limits, 0, 1_000_000).min(1_000_000),
        tables: number_at(&plan.limits, 1, 4_096).min(4_096),
    }
}

/// The clock of a plan: its wall and its counter.
fn clock_of(plan: &Plan) -> Hlc {
    let wall = plan.clock.get(0).copied().unwrap_or(0);
    Hlc::new(wall, number_at(&plan.clock, 1, 0)).unwrap_or(Hlc::zero())
}

fn cluster_of(alloc: Global, plan: &Plan) -> Result<Cluster, Memory>
    ensures stands { IfOk result (λ c. (m : Machine) × StandsFor c m) }
{
    let name = Name::parse(alloc, b"a")?.ok_or(Memory)?;
    Cluster::new(alloc, name, clock_of(plan), limits_of(plan))
}

/// What a run is so far.
#[derive(Drop)]
struct Answered {
    code: u8,
    text: Vec<u8>,
}

impl Answered {
    fn put(&mut self, code: u8, text: &[u8]) -> Result<(), Memory> {
        self.code = self.code.max(code);
        Ok(self.text.extend_from_slice(text)?)
    }

    fn put_reply(&mut self, reply: &Reply) -> Result<(), Memory> {
        let code = if reply.refusal.is_some() { 1 } else { 0 };
        self.put(code, reply.text.as_slice())
    }

    fn put_fault(&mut self, fault: RunFault) -> Result<(), Memory> {
        match fault {
            RunFault::Disk => self.put(6, b"no reply: the disk failed\n"),
            RunFault::Ended => self.put(6, b"no reply: an earlier command gave none\n"),
            RunFault::Memory => Err(Memory),
        }
    }
}

/// Executes a line, unless it is no command.
fn answer_line(
    alloc: Global,
    cluster: &mut Cluster,
    disk: &mut MemoryDisk,
    line: &[u8],
    answered: &mut Answered,
) -> Result<(), Memory>
    requires few { cluster.old.steps < 67108864 }
    requires stands { cluster.old.ended ≡ false → (m : Machine) × StandsFor cluster.old m }
    ensures stays { cluster.new.ended ≡ false → (m : Machine) × StandsFor cluster.new m }
{
    let Ok(Some(command)) = parse_line(alloc, line, false) else {
        return Ok(());
    };
    match cluster.step(&command, disk) {
        Ok(reply) => answered.put_reply(&reply),
        Err(fault) => answered.put_fault(fault),
    }
}

/// Runs a script without its first line, by a cluster `a` of the plan's limits and clock. It goes on
/// after a command that gave no reply.
pub fn run_lines(
    alloc: Global,
    plan: &Plan,
    script: &[u8],
    disk: &mut MemoryDisk,
) -> Result<(u8, Vec<u8>), Memory> {
    let mut cluster = cluster_of(alloc, plan)?;
    let mut answered = Answered {
        code: 0,
        text: Vec::new(alloc),
    };
    for line in str::from_utf8(script).unwrap_or("").split('\n') {
        if cluster.steps() >= 10_000 {
            return Err(Memory);
        }
        answer_line(alloc, &mut cluster, disk, line.as_bytes(), &mut answered)?;
    }
    Ok((answered.code, answered.text))
}
