// The replies of steps, and reports of commits. Made by most modules here; read by `runtime`,
// `race` and applications, printed by `script`.
ghost use Rattle.std.specs.Prelude.{◌≡◌};

use crate::refusal::Refusal;
use crate::shared_plan::SharedPlan;
use kv_core::{Bytes, KeyRange};
use metadata::{Cells, State};
use packed_rows::Rows;
use std::marker::Model;

/// What is told of a submitted transaction.
#[derive(Drop)]
pub enum Report {
    /// The client's transaction is committed at the version.
    Committed {
        client: u64,
        version: u64,
    },
    /// The client's transaction is refused: the version `seen` is the newest that wrote in
    /// `range`, which the transaction read.
    Conflict {
        client: u64,
        seen: u64,
        range: KeyRange,
    },
    /// The client isn't told what became of its transaction.
    Unknown {
        client: u64,
    },
}

/// Reports, in version order.
pub struct Reports {
    reports: Vec<Report>,
}

// Written out, so that no proof of a caller has to take its parts apart where one is dropped.
impl Drop for Reports {
    fn drop(self) {
        let Reports { reports } = self;
        drop(reports);
    }
}

impl Model for Reports {
    ghost use Rattle.std.specs.Prelude.{List};
    ghost use Rattle.schedule.specs.declared.reply.Report.{Report};

    ghost Value = { List Report };

    ghost view = { λ r. r.reports.items };
}

impl Reports {
    /// The list of these reports.
    pub fn new(reports: Vec<Report>) -> Reports
        ensures { result ≡ reports.items }
    {
        Reports { reports }
    }

    /// The reports.
    pub fn as_slice(&self) -> &[Report]
        ensures { result.now ≡ self.now }
    {
        self.reports.as_slice()
    }
}

/// What a step replies.
#[derive(Drop)]
pub enum Reply {
    /// A transaction began, which reads at this version.
    Begun(u64),
    /// The step is done.
    Done,
    /// The record is saved, and no other one had its primary key.
    SavedNew,
    /// The record is saved in the place of the one with these cells.
    SavedOver(Cells),
    /// The record's cells.
    Found(Cells),
    /// There is no such record.
    Absent,
    /// The record is taken out.
    Removed,
    /// The rows that answer the query.
    Rows(Rows),
    /// The plan of the query.
    Planned(SharedPlan),
    /// The index is added, in this state.
    Indexed(State),
    /// The state of the index.
    State(State),
    /// The total of the group.
    Total(i64),
    /// So many records of the index's type were built, all those at positions of this range.
    Built { records: usize, range: KeyRange },
    /// Every position of the index was built already.
    Finished,
    /// The transaction is submitted at this version.
    Submitted(u64),
    /// The transaction changed nothing and has ended.
    ReadOnly,
    /// There was nothing to do.
    Nothing,
    /// What became of submitted transactions.
    Reported(Reports),
    /// The step is refused, and changes nothing, but that a refused commit ends its transaction.
    Refused(Refusal),
    /// The command is refused: the pair of this key isn't one that a store has there.
    Corrupt(Bytes),
    /// The command stopped for want of memory, and changed nothing. A schedule ends there; in a
    /// running database the transaction goes on, and has it among its commands.
    Stopped,
}
