// The committed transactions that a schedule lists: as bytes where it hands the list out, and else
// in contracts alone. Kept by `database`.
ghost use Rattle.std.specs.Prelude.{◌≡◌, ◌++◌, List};
ghost use base.Fml.{ftrue};
ghost use Rattle.std.specs.Coded.{codes};
ghost use Rattle.schedule.specs.declared.transcript.CommitEntry.{CommitEntry as Entry};
ghost use Rattle.schedule.specs.contracts.transcript.CommitEntry as one;

use crate::accepted::Accepted;
use crate::transcript::{CommitEntry, Commits};
use record_store::StoreNumber;
use std::alloc::{AllocError, Global};
use std::marker::Model;

// A committed transaction, whose commands may be in contracts alone.
#[derive(Drop)]
pub(crate) struct Listed {
    pub(crate) version: u64,
    pub(crate) client: u64,
    pub(crate) store: StoreNumber,
    pub(crate) read_version: u64,
    pub(crate) commands: Accepted,
}

impl Listed {
    ghost use Rattle.std.specs.Prelude.{IfErr, IfOk};
    ghost use Rattle.schedule.specs.Running.{listed_entry};

    // What is handed out of it, where bytes of its commands are kept; else it stays as it is.
    fn into_entry(self) -> Result<CommitEntry, Listed>
        ensures whole { IfOk result (λ entry. entry ≡ listed_entry self) }
        ensures gone { IfErr result (λ same. same ≡ self) }
    {
        let Listed {
            version,
            client,
            store,
            read_version,
            commands,
        } = self;
        match commands.into_commands() {
            Ok(commands) => Ok(CommitEntry {
                version,
                client,
                store,
                read_version,
                commands,
            }),
            Err(commands) => Err(Listed {
                version,
                client,
                store,
                read_version,
                commands,
            }),
        }
    }
}

// Transactions, as clauses see them: no bytes of them are kept.
#[derive(Drop)]
pub(crate) struct GoneCommits {
    pub ghost entries: { List Entry } by { Prim.hlevel (codes, one.the_row.coded) },
}

impl Model for GoneCommits {
    ghost also_owns = { λ _. ftrue };
}

impl GoneCommits {
    ghost use Rattle.std.specs.Prelude.{[], ◌∷◌};
    ghost use Rattle.schedule.specs.Running.{listed_entry};

    // None.
    fn none() -> GoneCommits
        ensures { result.entries ≡ [] }
    {
        GoneCommits {}
    }

    // These, and then others.
    fn and(&self, _others: &Vec<CommitEntry>) -> GoneCommits
        ensures { result.entries ≡ self.now.entries ++ _others.now.items }
    {
        GoneCommits {}
    }

    // These, and then one more.
    fn then(&self, _one: &Listed) -> GoneCommits
        ensures { result.entries ≡ self.now.entries ++ listed_entry _one.now ∷ [] }
    {
        GoneCommits {}
    }
}

// Transactions in version order.
#[derive(Drop)]
pub(crate) struct CommitLog {
    gone: GoneCommits,
    kept: Vec<CommitEntry>,
    is_whole: bool,
}

impl Model for CommitLog {
    ghost use Rattle.std.specs.Prelude.{◌≡◌, ◌++◌, List, [], true};
    ghost use Rattle.schedule.specs.declared.transcript.CommitEntry.{CommitEntry as Entry};
    ghost use Rattle.schedule.specs.contracts.transcript.CommitEntry as one;
    ghost use Rattle.std.specs.Coded.{codes};

    ghost Value = { List Entry };

    ghost coded = { Prim.hlevel (codes, one.the_row.coded) };

    ghost view = { λ l. l.gone.entries ++ l.kept.items };

    ghost invariant = { λ l. l.is_whole ≡ true → l.gone.entries ≡ [] };
}

impl CommitLog {
    ghost use Rattle.std.specs.Prelude.{[], ◌∷◌, OnOk, IfSome};
    ghost use Rattle.schedule.specs.Running.{listed_entry};

    // No transaction. Bytes of those to come are kept where the list is wanted whole.
    pub(crate) fn new(alloc: Global, is_whole: bool) -> CommitLog
        ensures { result ≡ [] }
    {
        CommitLog {
            gone: GoneCommits::none(),
            kept: Vec::new(alloc),
            is_whole,
        }
    }

    // Whether bytes of the list are kept.
    pub(crate) fn is_whole(&self) -> bool {
        self.is_whole
    }

    // Lists one more.
    pub(crate) fn push(&mut self, one: Listed) -> Result<(), AllocError>
        ensures { OnOk result (self.new ≡ self.old ++ listed_entry one ∷ []) }
    {
        match one.into_entry() {
            Ok(entry) => self.kept.push(entry)?,
            Err(one) => {
                self.is_whole = false;
                self.gone = self.gone.and(&self.kept).then(&one);
                self.kept.clear();
            }
        }
        Ok(())
    }

    // The list, where bytes of all of it are kept.
    pub(crate) fn into_commits(self) -> Option<Commits>
        ensures { IfSome result (λ commits. commits ≡ self) }
    {
        if self.is_whole {
            Some(Commits::new(self.kept))
        } else {
            None
        }
    }
}
