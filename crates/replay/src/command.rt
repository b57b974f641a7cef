// The commands that changes are, and the changes that commands are. Called by `image`, and by who
// writes a log of what was performed.
ghost use Rattle.std.specs.Prelude.{◌≡◌, IfOk};
ghost use Rattle.replay.specs.Commands.{change_of, command_of, commands_of};

use command_log::{Change, Changes};
use schedule::Command;
use std::alloc::{AllocError, Global};

/// The command that a change is.
pub fn command_of(change: Change) -> Command
    ensures { result ≡ command_of change }
{
    match change {
        Change::Create(request) => Command::Create(request),
        Change::Type(request) => Command::Type(request),
        Change::Field(name, field) => Command::Field(name, field),
        Change::Index(request) => Command::Index(request),
        Change::Save(name, cells) => Command::Save(name, cells),
        Change::Remove(name, cells) => Command::Remove(name, cells),
        Change::Drop(name) => Command::Drop(name),
        Change::Disable(name) => Command::Disable(name),
        Change::WriteOnly(name) => Command::WriteOnly(name),
        Change::Readable(name) => Command::Readable(name),
        Change::Build(name, limit) => Command::Build(name, limit),
    }
}

/// The change that a command is, copied. None where the command only looks at what is there.
pub fn change_of(command: &Command) -> Result<Option<Change>, AllocError>
    ensures { IfOk result (λ change. change ≡ change_of command.now) }
{
    match command {
        Command::Create(request) => Ok(Some(Change::Create(request.copy()?))),
        Command::Type(request) => Ok(Some(Change::Type(request.copy()?))),
        Command::Field(name, field) => { Ok(Some(Change::Field(name.copy()?, field.copy()?))) }
        Command::Index(request) => Ok(Some(Change::Index(request.copy()?))),
        Command::Save(name, cells) => Ok(Some(Change::Save(name.copy()?, cells.copy()?))),
        Command::Remove(name, cells) => Ok(Some(Change::Remove(name.copy()?, cells.copy()?))),
        Command::Drop(name) => Ok(Some(Change::Drop(name.copy()?))),
        Command::Disable(name) => Ok(Some(Change::Disable(name.copy()?))),
        Command::WriteOnly(name) => Ok(Some(Change::WriteOnly(name.copy()?))),
        Command::Readable(name) => Ok(Some(Change::Readable(name.copy()?))),
        Command::Build(name, limit) => Ok(Some(Change::Build(name.copy()?, *limit))),
        Command::Load(_, _)
        | Command::Query(_)
        | Command::Plan(_)
        | Command::Execute(_)
        | Command::State(_)
        | Command::Aggregate(_, _) => Ok(None),
    }
}

// The commands that changes are, in order.
pub(crate) fn commands_of(alloc: Global, changes: Changes) -> Result<Vec<Command>, AllocError>
    ensures { IfOk result (λ commands. commands.items ≡ commands_of changes) }
{
    let changes = changes.into_vec();
    changes.into_iter().map(command_of).collect(alloc)
}
