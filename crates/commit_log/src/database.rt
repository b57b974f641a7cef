// Opens a running database from the device that has its log.
ghost use Rattle.std.specs.Prelude.{IfErr, IfOk, IsNone, OnOk};
ghost use Rattle.cluster_core.specs.Configuration.{config_refusal};
ghost use Rattle.commit_log.specs.Databases.{AreClientsOver, IsNoneMade, IsOpenedOn, IsUnopenedOn};
ghost use Rattle.commit_log.specs.Standing.{device_of_log};
ghost use Rattle.durable.specs.Keeping.{HasOnDisk, no_base};
ghost use Rattle.replay.specs.Replaying.{IsLogged};

use crate::device_log::DeviceLog;
use crate::opening::{OpenedLog, open_log};
use cluster_core::Config;
use durable::OpenError as LogError;
use journal::Device;
use runtime::{Base, Client, OpenError, open_kept_over};
use std::alloc::Global;
use std::sync::Wait;
use thiserror::Error;

/// Why a database isn't opened from its log.
#[derive(Debug, Drop, Error)]
pub enum NotOpened {
    /// The log isn't opened, or isn't that of a database.
    #[error("{0}")]
    Log(LogError),
    /// The database isn't made over what the log comes to.
    #[error("{0}")]
    Database(OpenError),
}

/// The clients of a database that goes on from a log.
#[tactic(auto, using(crate::proofs::Databases::databases))]
fn gone_on<D: Device + Drop, E: Wait + Drop, R: Wait>(
    rt: &R,
    alloc: Global,
    opened: OpenedLog<D, E>,
    config: Config,
) -> Result<Vec<Client<DeviceLog<D, E>>>, OpenError>
    requires file { HasOnDisk D.seen D.may_leave no_base opened.entries.items
        (device_of_log opened.log) }
    requires logged { IsLogged opened.entries.items opened.image }
    ensures clients { IfOk result (λ clients.
        AreClientsOver config opened.entries.items clients.items) }
    ensures allowed { OnOk result (IsNone (config_refusal config)) }
    ensures refused { IfErr result (IsNoneMade config) }
{
    let OpenedLog {
        log,
        entries,
        image,
    } = opened;
    let mut config = config;
    config.start = config.start.max(image.version());
    open_kept_over(rt, alloc, log, &config, &Base { entries, image })
}

/// Opens the database of this configuration whose log a device has, which a crash may have left, as
/// `open_log` says, and gives as many clients as the configuration has places, numbered from 0. A
/// device that has nothing has the log of a new database. Each committed transaction is kept after
/// those of the log, before it is shown and answered.
///
/// Its first version is that of the configuration, or that of the last transaction of the log, if
/// that is later. Where it is refused, the device is let go.
#[tactic(auto, using(crate::proofs::Databases::databases))]
pub fn open_kept_on<'a, D: Device + Drop, R: Wait>(
    rt: &'a R,
    alloc: Global,
    device: D,
    config: Config,
) -> Result<Vec<Client<DeviceLog<D, &'a R>>>, NotOpened>
    // The database goes on from the entries of the file, whose log goes on after them.
    ensures opened { IfOk result (λ clients.
        IsOpenedOn D.seen D.may_leave D.moment D.left_since config device clients.items) }
    ensures allowed { OnOk result (IsNone (config_refusal config)) }

    // The log of a database is never refused, but where memory runs out or the device fails.
    ensures refused { IfErr result (λ error.
        IsUnopenedOn D.seen D.may_leave D.moment D.left_since D.faults config device error) }
{
    match open_log(rt, alloc, device) {
        Ok(opened) => match gone_on(rt, alloc, opened, config) {
            Ok(clients) => Ok(clients),
            Err(error) => Err(NotOpened::Database(error)),
        },
        Err(unopened) => Err(NotOpened::Log(unopened.error)),
    }
}
