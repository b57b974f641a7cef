// The commands that a transaction accepted: as bytes where the transactions are listed in the end,
// and else in contracts alone. Kept by `database`, for `clients` and `commit_log`.
ghost use Rattle.std.specs.Prelude.{◌≡◌, ◌++◌, List};
ghost use base.Fml.{ftrue};
ghost use Rattle.std.specs.Coded.{codes};
ghost use Rattle.schedule.specs.declared.step.Command.{Command as Asked};
ghost use Rattle.schedule.specs.contracts.step.Command as one;

use crate::step::Command;
use crate::transcript::Commands;
use std::alloc::{AllocError, Global};
use std::marker::Model;

// Commands, as clauses see them: no bytes of them are kept.
#[derive(Drop)]
pub(crate) struct GoneCommands {
    pub ghost list: { List Asked } by { Prim.hlevel (codes, one.the_row.coded) },
}

impl Model for GoneCommands {
    ghost also_owns = { λ _. ftrue };
}

impl GoneCommands {
    ghost use Rattle.std.specs.Prelude.{[], ◌∷◌};

    // None.
    fn none() -> GoneCommands
        ensures { result.list ≡ [] }
    {
        GoneCommands {}
    }

    // These, and then one more.
    fn then(&self, _command: &Command) -> GoneCommands
        ensures { result.list ≡ self.now.list ++ _command.now ∷ [] }
    {
        GoneCommands {}
    }
}

// Commands in the order in which they were accepted.
#[derive(Drop)]
pub(crate) struct Accepted {
    gone: GoneCommands,
    kept: Vec<Command>,
    is_whole: bool,
}

impl Model for Accepted {
    ghost use Rattle.std.specs.Prelude.{◌≡◌, ◌⊎◌, ◌++◌, List, [], true, false};
    ghost use Rattle.schedule.specs.declared.step.Command.{Command as Asked};
    ghost use Rattle.schedule.specs.contracts.step.Command as one;
    ghost use Rattle.std.specs.Coded.{codes};

    ghost Value = { List Asked };

    ghost coded = { Prim.hlevel (codes, one.the_row.coded) };

    ghost view = { λ a. a.gone.list ++ a.kept.items };

    ghost invariant = { λ a. (a.is_whole ≡ true → a.gone.list ≡ [])
        × (a.is_whole ≡ false → a.kept.items ≡ []) };
}

impl Accepted {
    ghost use Rattle.std.specs.Prelude.{[], ◌∷◌, OnOk, IfErr, IfOk};

    // No command. Bytes of those to come are kept where the list is wanted whole.
    pub(crate) fn new(alloc: Global, is_whole: bool) -> Accepted
        ensures { result ≡ [] }
    {
        Accepted {
            gone: GoneCommands::none(),
            kept: Vec::new(alloc),
            is_whole,
        }
    }

    // One command more.
    pub(crate) fn push(&mut self, command: &Command) -> Result<(), AllocError>
        ensures { OnOk result (self.new ≡ self.old ++ command.now ∷ []) }
    {
        if self.is_whole {
            let command = command.copy()?;
            self.kept.push(command)?;
        } else {
            self.gone = self.gone.then(command);
        }
        Ok(())
    }

    // The list, where its bytes were kept; else it stays as it is.
    pub(crate) fn into_commands(self) -> Result<Commands, Accepted>
        ensures whole { IfOk result (λ commands. commands ≡ self) }
        ensures gone { IfErr result (λ same. same ≡ self) }
    {
        if !self.is_whole {
            return Err(self);
        }
        Ok(Commands::new(self.kept))
    }
}
