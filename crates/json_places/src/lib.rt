//! Texts of JSON with the place of each value, and each place where a text is none.
#![tactic(auto)]

mod cursor;
mod flaw;
mod line;
mod looking;
mod mending;
mod values;
mod written;

pub use cursor::{Cursor, Place};
pub use flaw::{Flaw, FlawKind};
pub use line::on_one_line;
pub use mending::{Reading, read};
pub use written::{Form, Member, Written};
