// The database over which steps are done. Called by `run` and `shelling`.
ghost use Rattle.std.specs.Prelude.{◌≡◌, ℕ, [], IfOk, IsNone};
ghost use Rattle.schedule.specs.Stepwise.{HasDone};
ghost use Rattle.shell.specs.Further.{IsOfStepsOver};

use cluster_core::Config;
use shell::{Database, FolderError, open_folder};
use std::fs::File;
use std::rt::Files;

/// The database of a configuration in a folder, or without one the empty one that is given.
pub fn database_in<H: Files<File = File> + AllocGlobal>(
    rt: &H,
    folder: Option<&str>,
    config: Config,
    empty: Database,
) -> Result<Database, FolderError>
    ensures over { IfOk result (λ database. HasDone config [] [] empty →
        (start : ℕ) × IsOfStepsOver config start database) }
    ensures empty { IfOk result (λ database. IsNone folder.entry → database ≡ empty) }
{
    match folder {
        Some(folder) => open_folder(rt, rt.alloc(), folder, config),
        None => Ok(empty),
    }
}
