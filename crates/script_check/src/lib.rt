//! What is wrong with the text of a script, a race or a query whose plan is asked for, each place
//! by itself.
//!
//! `check` asks the readers that `run`, `race` and `explain` read such a text with, and looks for
//! places only where they refuse it.
#![tactic(auto)]

mod checking;
mod configs;
mod file_form;
mod filters;
mod finder;
mod leaves;
mod names;
mod parts;
mod places;
mod printed;
mod shapes;
mod steps;
mod verdict;

pub use file_form::FileForm;
pub use finder::Problem;
pub use places::check;
pub use printed::problem_lines;
