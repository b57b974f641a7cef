//! The numbers of stores, by which many stores stand in one database. Used by `schedule`, `runtime`
//! and applications.
ghost use Rattle.std.specs.Prelude.{◌≡◌, ◌++◌, true, ℕ, List, SomeIff, IfOk, IsTrue};
ghost use Rattle.std.specs.FinMap.{get as value_at};
ghost use Rattle.tuple_codec.specs.Subspace.{BeginsWith};
ghost use Rattle.kv_core.specs.Bytes.{end_of_keys, key_lt};
ghost use Rattle.kv_core.specs.Map.{Map};
ghost use Rattle.record_store.specs.Holds.{Holds};
ghost use Rattle.record_store.specs.Layout.{first_prefix, is_store_number, store_prefix};
ghost use Rattle.record_store.specs.Store.{Serial};

use crate::layout::number_tuple;
use std::alloc::{AllocError, Global};
use std::marker::Model;
use tuple_codec::pack;

/// The highest number of a store; the lowest is 1.
const HIGHEST: u64 = 65_535;

/// The number of a store: 1 to 65,535. The keys of each store of a database are its own.
#[derive(Clone, Copy, Debug, PartialEq, Eq)]
pub struct StoreNumber {
    number: u64,
}

impl Model for StoreNumber {
    ghost use Rattle.std.specs.Prelude.{◌≡◌, true, ℕ};
    ghost use Rattle.record_store.specs.Layout.{is_store_number};

    ghost Value = { ℕ };

    ghost view = { λ s. s.number };

    ghost invariant = { λ s. is_store_number s.number ≡ true };

    ghost inverse = { λ n. record { number = n } };
}

impl StoreNumber {
    /// The store of this number, where there is one, and else None. It takes no memory.
    pub fn new(number: u64) -> Option<StoreNumber>
        ensures { SomeIff result (is_store_number number ≡ true) number }
    {
        if 1 <= number && number <= HIGHEST {
            Some(StoreNumber { number })
        } else {
            None
        }
    }

    /// The store of number 1: that of a program which names none.
    pub fn first() -> StoreNumber
        ensures { result ≡ 1 }
    {
        StoreNumber { number: 1 }
    }

    /// The number, which is one of a store.
    pub fn get(self) -> u64
        ensures value { result ≡ self }
        ensures lawful { is_store_number result ≡ true }
    {
        self.number
    }

    /// What each key of the store begins with, which doesn't begin with the byte FF.
    pub fn prefix(self, alloc: Global) -> Result<Vec<u8>, AllocError>
        ensures prefix { IfOk result (λ prefix. prefix.items ≡ store_prefix self) }
        ensures below { IfOk result (λ prefix. IsTrue (key_lt prefix.items end_of_keys)) }
    {
        let number = self.get();
        let tuple = number_tuple(alloc, number)?;
        let prefix = pack(alloc, &tuple)?;
        Ok(prefix)
    }
}

/// No key is under the prefixes of two stores. What a map holds under a prefix depends on what it
/// has at the keys there alone. The bytes of the prefix of store 1, which a program may know.
pub fn stores_are_apart()
    ensures apart { (m n : ℕ) (key : List ℕ) → is_store_number m ≡ true → is_store_number n ≡ true
        → BeginsWith (store_prefix m) key → BeginsWith (store_prefix n) key → m ≡ n }
    ensures within { (prefix : List ℕ) (m n : Map) (serial : Serial)
        → ((bytes : List ℕ) → value_at n (prefix ++ bytes) ≡ value_at m (prefix ++ bytes))
        → Holds prefix m serial → Holds prefix n serial }
    ensures first { store_prefix 1 ≡ first_prefix }
{}
