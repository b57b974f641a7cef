//! Tests of a durable database: a device that fails in each call of a run, logs that a database
//! doesn't write, and a database over a file of the operating system.
#![tactic(auto)]

#[cfg(test)]
mod bytes;
#[cfg(test)]
mod checkpoints;
#[cfg(test)]
mod failing;
#[cfg(test)]
mod files;
#[cfg(test)]
mod parts;
#[cfg(test)]
mod refusals;
#[cfg(test)]
mod run;
