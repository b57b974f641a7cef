// The commands of a race's transactions, and what performs them. Called by `racing`.
ghost use Rattle.std.specs.Prelude.{◌≡◌, IfOk};

use metadata::Cells;
use runtime::{Body, CommandError, End, Txn};
use schedule::Command;
use script::Race;
use std::alloc::{AllocError, Global};
use tuple_codec::Text;

/// The command that saves a record.
pub(crate) fn save(record_type: &Text, cells: &Cells) -> Result<Command, AllocError>
    ensures { IfOk result (λ command. command ≡ Command.Save record_type.now cells.now) }
{
    Ok(Command::Save(record_type.copy()?, cells.copy()?))
}

/// The commands that make the store, and save the records that are there before the race.
pub(crate) fn filling(alloc: Global, race: &Race) -> Result<Vec<Command>, AllocError> {
    let mut commands = Vec::new(alloc);
    commands.push(Command::Create(race.schema.copy()?))?;
    for cells in race.before.as_slice() {
        commands.push(save(&race.record_type, cells)?)?;
    }
    Ok(commands)
}

/// The commands that add the index, and mark it write-only.
pub(crate) fn indexing(alloc: Global, race: &Race) -> Result<Vec<Command>, AllocError> {
    let index = Command::Index(race.index.copy()?);
    let mark = Command::WriteOnly(race.index.name.copy()?);
    Ok(vec![in alloc; index, mark]?)
}

/// Commands that a transaction performs in turn, each of which is to be accepted.
#[derive(Drop)]
pub(crate) struct InTurn<'a> {
    pub(crate) commands: &'a [Command],
}

impl<E: End> Body<E> for InTurn<'_> {
    type Answer = ();

    ghost use Rattle.race.specs.Runs.{DoesEach};

    ghost did = { DoesEach };

    fn attempt(&mut self, tx: &mut Txn<'_, E>) -> Result<(), CommandError> {
        for command in self.commands {
            tx.call(command)?;
        }
        Ok(())
    }
}
