//! Tests of the running database's public calls: clients on threads beside one another.
#![tactic(auto)]

#[cfg(test)]
mod again;
#[cfg(test)]
mod asking;
#[cfg(test)]
mod beside;
#[cfg(test)]
mod in_turn;
#[cfg(test)]
mod refusing;
#[cfg(test)]
mod rounds;
#[cfg(test)]
mod stores;
#[cfg(test)]
mod transactions;
