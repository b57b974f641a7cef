//! Drawings as SVG: of the plan of a query as a tree, and of a schedule as lanes of clients and
//! roles.
#![tactic(auto)]

mod boxes;
mod escaping;
mod event;
mod lanes;
mod layout;
mod links;
mod schedule;
mod tree;

pub use event::{Act, Event, Lane, Outcome};
pub use schedule::schedule_svg;
pub use tree::tree_svg;
