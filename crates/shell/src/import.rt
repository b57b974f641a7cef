// Records that are saved one after another, so many in a transaction. Used by `importing`.
ghost use Rattle.std.specs.Prelude.{◌≡◌, IfOk};
ghost use Rattle.shell.specs.Further.{IsFurther};

use crate::database::Database;
use crate::error::ShellError;
use metadata::Cells;
use record_store::StoreNumber;
use schedule::{Command, Refusal, Reply, Report, Step};
use script::push_reply;
use std::alloc::{AllocError, Global};
use tuple_codec::Text;

// How many records a transaction saves at most.
const RECORDS: u64 = 500;

/// Whose transactions they are, and in which store.
#[derive(Clone, Copy, Debug, PartialEq, Eq, Drop)]
pub(crate) struct Importer {
    pub client: u64,
    pub store: StoreNumber,
}

/// A schedule, who saves, how many records were saved by it and how many of these aren't committed
/// yet, whether a transaction for them is open, and why it doesn't go on, where it doesn't.
#[derive(Drop)]
pub(crate) struct Import {
    pub schedule: Database,
    importer: Importer,
    pub saved: u64,
    pub uncommitted: u64,
    pub is_open: bool,
    pub stop: Option<String>,
}

// Whether a step did what it was to do.
fn is_done(reply: &Reply) -> bool {
    match reply {
        Reply::Begun(_) | Reply::SavedNew | Reply::SavedOver(_) => true,
        Reply::Submitted(_) | Reply::ReadOnly | Reply::Nothing => true,
        Reply::Reported(reports) => reports
            .as_slice()
            .iter()
            .all(|report| matches!(report, Report::Committed { .. })),
        _ => false,
    }
}

// Why it doesn't go on after a reply, where it doesn't.
fn stop_of(alloc: Global, client: u64, reply: &Reply) -> Result<Option<String>, AllocError> {
    match reply {
        Reply::Refused(Refusal::Busy) => {
            let why = format!(in alloc;
                "the client {client} has a transaction: commit or abandon it first"
            )?;
            Ok(Some(why))
        }
        _ if is_done(reply) => Ok(None),
        _ => {
            let mut why = String::new(alloc);
            push_reply(alloc, &mut why, reply)?;
            Ok(Some(why))
        }
    }
}

// Whether a record doesn't fit beside the others of its transaction.
fn is_too_much(reply: &Reply) -> bool {
    matches!(reply, Reply::Refused(Refusal::TransactionTooLarge))
}

// The step that saves a record.
fn save_step(alloc: Global, client: u64, name: &str, cells: Cells) -> Result<Step, AllocError> {
    let name = Text::from_str(alloc, name)?;
    Ok(Step::Perform(client, Command::Save(name, cells)))
}

impl Import {
    // Does a step. Where it doesn't do what it was to do, it is told why it doesn't go on.
    fn step(self, alloc: Global, step: &Step) -> Result<Import, ShellError>
        ensures { IfOk result (λ after. IsFurther self.schedule after.schedule) }
    {
        let (schedule, reply) = self.schedule.step(alloc, step)?;
        let stop = stop_of(alloc, self.importer.client, &reply)?;
        Ok(Import {
            schedule,
            importer: self.importer,
            saved: self.saved,
            uncommitted: self.uncommitted,
            is_open: self.is_open,
            stop,
        })
    }

    // Begins a transaction.
    fn open(self, alloc: Global) -> Result<Import, ShellError>
        ensures { IfOk result (λ after. IsFurther self.schedule after.schedule) }
    {
        let importer = self.importer;
        let begin = Step::Begin(importer.client, importer.store.get());
        let mut import = self.step(alloc, &begin)?;
        let is_open = import.stop.is_none();
        import.is_open = is_open;
        Ok(import)
    }

    /// Begins the first transaction.
    pub(crate) fn begin(
        alloc: Global,
        schedule: Database,
        importer: Importer,
    ) -> Result<Import, ShellError>
        ensures { IfOk result (λ after. IsFurther schedule after.schedule) }
    {
        let import = Import {
            schedule,
            importer,
            saved: 0,
            uncommitted: 0,
            is_open: false,
            stop: None,
        };
        import.open(alloc)
    }

    // Submits the open transaction, and has all roles do what there is to do.
    fn submit(self, alloc: Global) -> Result<Import, ShellError>
        ensures { IfOk result (λ after. IsFurther self.schedule after.schedule) }
    {
        let client = self.importer.client;
        let submitted = self.step(alloc, &Step::Commit(client))?;
        if submitted.stop.is_some() {
            return Ok(submitted);
        }
        submitted.step(alloc, &Step::Settle)
    }

    // Commits the open transaction. Where that can't be, its records aren't saved.
    fn commit(self, alloc: Global) -> Result<Import, ShellError>
        ensures { IfOk result (λ after. IsFurther self.schedule after.schedule) }
    {
        let Import {
            schedule,
            importer,
            saved,
            uncommitted,
            is_open: _,
            stop,
        } = self.submit(alloc)?;
        let lost = if stop.is_some() { uncommitted } else { 0 };
        Ok(Import {
            schedule,
            importer,
            saved: saved.saturating_sub(lost),
            uncommitted: 0,
            is_open: false,
            stop,
        })
    }

    // Saves a record in the open transaction; with false it doesn't fit there.
    fn save_here(self, alloc: Global, save: &Step) -> Result<(Import, bool), ShellError>
        ensures { IfOk result (λ after. IsFurther self.schedule after.0.schedule) }
    {
        let is_first = self.uncommitted == 0;
        let (schedule, reply) = self.schedule.step(alloc, save)?;
        let fits = is_first || !is_too_much(&reply);
        let stop = if fits {
            stop_of(alloc, self.importer.client, &reply)?
        } else {
            None
        };
        let more = u64::from(fits && stop.is_none());
        let import = Import {
            schedule,
            importer: self.importer,
            saved: self.saved.saturating_add(more),
            uncommitted: self.uncommitted.saturating_add(more),
            is_open: self.is_open,
            stop,
        };
        Ok((import, fits))
    }

    // Commits what is saved so far, and saves a record in the next transaction.
    fn save_next(self, alloc: Global, save: &Step) -> Result<Import, ShellError>
        ensures { IfOk result (λ after. IsFurther self.schedule after.schedule) }
    {
        let import = self.commit(alloc)?;
        if import.stop.is_some() {
            return Ok(import);
        }
        let import = import.open(alloc)?;
        let (import, _) = import.save_here(alloc, save)?;
        Ok(import)
    }

    // Saves the record of a step, in the open transaction or in the next one.
    fn save_by(self, alloc: Global, save: &Step) -> Result<Import, ShellError>
        ensures { IfOk result (λ after. IsFurther self.schedule after.schedule) }
    {
        if self.uncommitted >= RECORDS {
            return self.save_next(alloc, save);
        }
        let (import, fits) = self.save_here(alloc, save)?;
        if fits {
            Ok(import)
        } else {
            import.save_next(alloc, save)
        }
    }

    /// Saves a record of the type of this name.
    pub(crate) fn save(self, alloc: Global, name: &str, cells: Cells) -> Result<Import, ShellError>
        ensures { IfOk result (λ after. IsFurther self.schedule after.schedule) }
    {
        let save = save_step(alloc, self.importer.client, name, cells)?;
        self.save_by(alloc, &save)
    }

    /// The same, which doesn't go on for this reason.
    pub(crate) fn stopped(self, reason: String) -> Import
        ensures { result.schedule ≡ self.schedule }
    {
        let mut import = self;
        import.stop = Some(reason);
        import
    }

    /// Commits what is saved, also where it doesn't go on.
    pub(crate) fn end(self, alloc: Global) -> Result<Import, ShellError>
        ensures { IfOk result (λ after. IsFurther self.schedule after.schedule) }
    {
        if !self.is_open {
            return Ok(self);
        }
        let Import {
            schedule,
            importer,
            saved,
            uncommitted,
            is_open,
            stop,
        } = self;
        let import = Import {
            schedule,
            importer,
            saved,
            uncommitted,
            is_open,
            stop: None,
        };
        let Import {
            schedule,
            importer,
            saved,
            uncommitted,
            is_open,
            stop: uncommitted_why,
        } = import.commit(alloc)?;
        Ok(Import {
            schedule,
            importer,
            saved,
            uncommitted,
            is_open,
            stop: uncommitted_why.or(stop),
        })
    }
}
