// A schedule that begins over what a log comes to. Called by `opening` and `reopening`.
ghost use Rattle.std.specs.Prelude.{◌≡◌, true, List, IfErr, IfOk, IsNone, OnOk};
ghost use Rattle.cluster_core.specs.Configuration.{config_refusal};
ghost use Rattle.command_log.specs.declared.entry.Entry.{Entry as EntryValue};
ghost use Rattle.journal.specs.Sinks.{kept_entries};
ghost use Rattle.replay.specs.Replaying.{IsLogged};
ghost use Rattle.replay.specs.Continuing.{config_after};
ghost use Rattle.logged_schedule.specs.Opening.{IsBegunAgain};
ghost use Rattle.logged_schedule.specs.Refusals.{IsNotBegun, IsNotBegunAgain};
ghost use Rattle.logged_schedule.specs.Reopening.{IsBegunOverSome};
ghost use Rattle.logged_schedule.specs.Standing.{BeginsFollowed};

use crate::error::OpenError;
use crate::followed::Followed;
use cluster_core::Config;
use journal::Kept;
use replay::{Image, replay};
use std::alloc::Global;

// The schedule of this configuration over a database, from its last version on. Where that is known
// to be what a lawful log comes to (`of_stores`) its stores stay open.
pub(crate) fn begun_over(
    alloc: Global,
    config: Config,
    image: Image,
    of_stores: bool,
) -> Result<Followed, OpenError>
    requires { of_stores ≡ true → (entries : List EntryValue) × IsLogged entries image }
    ensures begun { IfOk result (λ followed. (entries : List EntryValue) → IsLogged entries image
        → BeginsFollowed entries (config_after entries config) followed) }
    ensures over_some { IfOk result (λ followed. IsBegunOverSome config followed.schedule) }
    ensures allowed { OnOk result (IsNone (config_refusal config)) }
    ensures refused { IfErr result (IsNotBegun config) }
{
    let last = image.version();
    let mut config = config;
    config.start = config.start.max(last);
    if last == 0 {
        // Nothing is logged, and a base has no version 0.
        return Followed::new(alloc, &config);
    }
    Followed::over(alloc, &config, image, of_stores)
}

// The schedule of this configuration over what the entries of a log come to, whose bytes were kept,
// from the version of the last one on.
pub(crate) fn begun_again(alloc: Global, config: Config, log: Kept) -> Result<Followed, OpenError>
    ensures done { IfOk result (IsBegunAgain config (kept_entries log)) }
    ensures allowed { OnOk result (IsNone (config_refusal config)) }
    ensures undone { IfErr result (IsNotBegunAgain config (kept_entries log)) }
{
    let image = replay(alloc, log.entries())?;
    drop(log); // Its memory is for the pairs.
    begun_over(alloc, config, image, true)
}
