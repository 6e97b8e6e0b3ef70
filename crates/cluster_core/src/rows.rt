//! The commands on rows.
ghost use Rattle.std.specs.Prelude.{◌≡◌, ◌≤◌, ◌+◌, nat_lt, None, length, OnOk, IfOk, IfErr, List};
ghost use Rattle.table_descriptors.specs.Descriptors.{Schema};
ghost use Rattle.reply_texts.specs.declared.refusals.Refusal.TheVariants.{TooManyEvents};
ghost use Rattle.history_model.specs.Histories.{Table};
ghost use Rattle.machine_model.specs.Machine.{refusal_if};
ghost use Rattle.machine_model.specs.TableRows.{upsert, delete, delete_range, select, collect};
ghost use Rattle.cluster_core.specs.Halting.{halt_of_select};
ghost use Rattle.cluster_core.specs.Standing.{Does, LeavesRest, RefusedBy};

use crate::cluster::Cluster;
use crate::finding::{check_past, check_public, draw_time, find_table};
use crate::halts::Halt;
use mvcc_keys::{Hlc, Items};
use reply_texts::{Answer, Refusal};
use row_codec::Row;
use table_descriptors::Name;
use table_rows::SelectFault;
use version_store::Versions;

/// Refuses more facts than may be accepted.
pub(crate) fn check_room(most: u32, events: u32, more: usize) -> Result<(), Halt>
    requires { events ≤ most }
    ensures passed { OnOk result (refusal_if (nat_lt most (events + more)) TooManyEvents ≡ None) }
    ensures fits { OnOk result (events + more ≤ most) }
    ensures refused { IfErr result (λ e. RefusedBy e (refusal_if (nat_lt most (events + more)) TooManyEvents)) }
{
    if more > (most - events) as usize {
        return Err(Halt::Refused(Refusal::TooManyEvents));
    }
    Ok(())
}

fn halt_of_select(table: u32, fault: SelectFault) -> Halt
    ensures { result ≡ halt_of_select table fault }
{
    let SelectFault::Collected { threshold } = fault else {
        return Halt::Memory;
    };
    Halt::Refused(Refusal::Collected { table, threshold })
}

impl Cluster {
    #[tactic(auto, unfolding(machine_model::specs::TableRows::upsert))]
    pub(crate) fn upsert(&mut self, name: &(Name, Name), rows: &[Row]) -> Result<Answer, Halt>
        ensures step { Does self.old self.new (λ m. upsert m name.now rows.now) result }
        ensures rest { LeavesRest self.old self.new }
    {
        let at = draw_time(self.clock)?;
        let (_, d) = find_table(self.alloc, &self.catalog, name, at)?;
        check_public(self.alloc, name, d)?;
        self.rows.check_rows(d, rows)?;
        check_room(self.most_events, self.events, rows.len())?;
        self.rows.upsert(d, rows, at)?;
        self.events += rows.len() as u32;
        self.clock = at;
        Ok(Answer::RowsWritten {
            rows: rows.len(),
            at,
        })
    }

    #[tactic(auto, unfolding(machine_model::specs::TableRows::delete))]
    pub(crate) fn delete(&mut self, name: &(Name, Name), keys: &[Row]) -> Result<Answer, Halt>
        ensures step { Does self.old self.new (λ m. delete m name.now keys.now) result }
        ensures rest { LeavesRest self.old self.new }
    {
        let at = draw_time(self.clock)?;
        let (_, d) = find_table(self.alloc, &self.catalog, name, at)?;
        check_public(self.alloc, name, d)?;
        self.rows.check_keys(d, keys)?;
        check_room(self.most_events, self.events, keys.len())?;
        self.rows.delete(d, keys, at)?;
        self.events += keys.len() as u32;
        self.clock = at;
        Ok(Answer::RowsWritten {
            rows: keys.len(),
            at,
        })
    }

    #[tactic(auto, unfolding(machine_model::specs::TableRows::delete_range))]
    pub(crate) fn delete_range(
        &mut self,
        name: &(Name, Name),
        lo: &Row,
        hi: &Row,
    ) -> Result<Answer, Halt>
        ensures step { Does self.old self.new (λ m. delete_range m name.now lo.now hi.now) result }
        ensures rest { LeavesRest self.old self.new }
    {
        let at = draw_time(self.clock)?;
        let (_, d) = find_table(self.alloc, &self.catalog, name, at)?;
        check_public(self.alloc, name, d)?;
        self.rows.check_range(d, lo, hi)?;
        check_room(self.most_events, self.events, 1)?;
        self.rows.delete_range(d, lo, hi, at)?;
        self.events += 1;
        self.clock = at;
        Ok(Answer::RangeDeleted { at })
    }

    #[tactic(auto, unfolding(machine_model::specs::TableRows::select))]
    pub(crate) fn select(&self, name: &(Name, Name), at: Option<Hlc>) -> Result<Answer, Halt>
        ensures { Does self.now self.now (λ m. select m name.now at) result }
    {
        let t = at.unwrap_or(self.clock);
        check_past(self.clock, t)?;
        let (table, d) = find_table(self.alloc, &self.catalog, name, t)?;
        check_public(self.alloc, name, d)?;
        match self.rows.select(d, t) {
            Ok(rows) => Ok(Answer::RowsShown {
                rows: Items::from_vec(rows),
            }),
            Err(fault) => Err(halt_of_select(table, fault)),
        }
    }

    #[tactic(auto, unfolding(machine_model::specs::TableRows::collect))]
    pub(crate) fn collect(&mut self, name: &(Name, Name), g: Hlc) -> Result<Answer, Halt>
        ensures step { Does self.old self.new (λ m. collect m name.now g) result }
        ensures rest { LeavesRest self.old self.new }
    {
        let (table, d) = find_table(self.alloc, &self.catalog, name, self.clock)?;
        check_public(self.alloc, name, d)?;
        check_past(self.clock, g)?;
        self.rows.collect(table, g)?;
        let threshold = self.rows.store().threshold(table);
        Ok(Answer::ThresholdRaised { threshold })
    }
}
