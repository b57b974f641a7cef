// The stores in which clients are. Kept by `session`, told by `stepping`.
use record_store::StoreNumber;
use schedule::{CLIENTS, Reply, Step};
use std::alloc::{AllocError, Global};

/// The store in which each client began last: the first one where it hasn't begun yet.
#[derive(Drop)]
pub(crate) struct Stores {
    numbers: Vec<StoreNumber>,
}

impl Stores {
    /// No client has begun.
    pub(crate) fn new(alloc: Global) -> Result<Stores, AllocError> {
        let mut numbers = Vec::with_capacity(alloc, CLIENTS)?;
        for _ in 0..CLIENTS {
            numbers.push(StoreNumber::first())?;
        }
        Ok(Stores { numbers })
    }

    /// The store in which a client began last.
    pub(crate) fn of(&self, client: u64) -> StoreNumber {
        let found = self.numbers.get(client as usize).copied();
        found.unwrap_or(StoreNumber::first())
    }

    /// Keeps in which store a step began a transaction, where it did.
    pub(crate) fn note(&mut self, step: &Step, reply: &Reply) {
        if let (Step::Begin(client, number), Reply::Begun(_)) = (step, reply) {
            let place = self.numbers.get_mut(*client as usize);
            if let (Some(place), Some(store)) = (place, StoreNumber::new(*number)) {
                *place = store;
            }
        }
    }
}
