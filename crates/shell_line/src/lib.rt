//! The lines that a person types at `recordctl shell`: what each stands for.
#![tactic(auto)]

mod defining;
mod flaw;
mod forms;
mod lexing;
mod line;
mod querying;
mod topics;
mod word;
mod writing;

pub use flaw::{Flaw, LineError};
pub use line::{Line, Show, line_of, place_in_line};
pub use topics::{Topic, all_topics, topic_of};
