//! A schedule whose commits are in a log on a disk before they are told, and performed again where
//! it is opened.
#![tactic(auto)]

mod again;
mod error;
mod followed;
mod following;
mod laws;
mod logged;
mod opening;
mod reopening;
mod twofold;
mod whole;

pub use error::{
    Failed, OpenError, OpenTwoError, StepError, Stopped, StoppedTwo, Unmade, Unopened, UnopenedTwo,
};
pub use laws::{commits_are_logged, entries_tell_of_commits, logs_go_on};
pub use logged::LoggedSchedule;
pub use opening::open;
pub use reopening::open_two;
pub use twofold::TwofoldSchedule;
