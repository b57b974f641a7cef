//! Tests of the journal: a device that fails in each call of a run, files that are cut short at
//! each length, files of which each byte in turn is another one, and what a crash may leave of an
//! append.
#![tactic(auto)]

#[cfg(test)]
mod damage;
#[cfg(test)]
mod failing;
#[cfg(test)]
mod files;
#[cfg(test)]
mod parts;
#[cfg(test)]
mod torn;
