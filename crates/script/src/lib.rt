//! Scripts: the configuration and the steps that a text of JSON stands for, and the lines that say
//! what the steps reply. Races: what two clients save while an index is built.
#![tactic(auto)]

mod error;
mod in_turn;
mod print;
mod race;
mod script;
mod step_json;

pub use error::ScriptError;
pub use print::{make_line, push_reply, push_report};
pub use race::{Race, RaceRows, Racers, race_of};
pub use script::{Script, script_of, script_with};
