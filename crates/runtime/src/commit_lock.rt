// The lock, over a slot of `atomic_table`. Used by `db`, `client`, `group_commit` and
// `critical_section`.
ghost use Rattle.std.specs.Prelude.{◌≡◌, [], ◌∷◌, IfOk, None, MatchOption, ℕ, ◌+◌, slice_index};
ghost use Rattle.runtime.specs.CommitLocks.{MayReturn, number_for, opener, returned_with, taken_by};
ghost use Rattle.runtime.specs.CommitLocks.{with_client, with_one_more};

use crate::arrivals::Arrivals;
use atomic_table::{Play, Seat, Split, Table, TableRule};
use std::alloc::{AllocError, Global};
use std::marker::PhantomData;
use std::snapshot::Snapshot;
use std::sync::{Mutex, MutexGuard, Wait};
use std::thread;

/// A value that is of one database, and has each client's last number.
pub trait Lockable: Drop {
    ghost use Rattle.std.specs.Prelude.{ℕ, List};
    ghost use Rattle.runtime.specs.History.{Name};

    /// Which database it is.
    ghost name: { Self → Name };

    /// The last number of each client.
    ghost last: { Self → List ℕ };
}

/// What a holder of a key knows. No value of it is made.
pub struct KeyHolder<T> {
    /// A value of the lock's database.
    pub about: Snapshot<T>,
    /// For which client it speaks. None at the opener's.
    pub client: Option<u64>,
    /// The last number of that client.
    pub last: u64,
    /// The next client to get a key, at the opener's.
    pub next: u64,
    /// The value as it was taken, until it is put back.
    pub taken: Option<Snapshot<T>>,
}

/// The rule: the value at home is of the lock's database, and has the numbers that the holders
/// know.
pub struct LockRule<T> {
    of: PhantomData<T>,
}

impl<T: Lockable> TableRule<Option<T>, KeyHolder<T>, Snapshot<T>> for LockRule<T> {
    ghost use Rattle.runtime.specs.CommitLocks.{Locked, opener};

    ghost holds = { Locked T.name T.last };

    ghost first = { λ key. opener key };
}

/// The step that takes the value, where it is at home.
pub struct Take<T> {
    of: PhantomData<T>,
}

impl<T: Lockable> Play<Option<T>, KeyHolder<T>> for Take<T> {
    ghost use Rattle.runtime.specs.CommitLocks.{Taken};

    ghost then = { Taken T.name T.last };
}

/// The step that puts the value back.
pub struct Return<T> {
    of: PhantomData<T>,
}

impl<T: Lockable> Play<Option<T>, KeyHolder<T>> for Return<T> {
    ghost use Rattle.runtime.specs.CommitLocks.{Returned};

    ghost then = { Returned T.last };
}

/// A key for one client more.
pub struct Again;

impl<T> Split<KeyHolder<T>> for Again {
    ghost use Rattle.runtime.specs.CommitLocks.{with_client, with_one_more};

    ghost left = { with_one_more };

    ghost right = { with_client };
}

/// What a thread has of a lock. It has no bytes.
pub type LockKey<T> = Seat<Option<T>, KeyHolder<T>>;

/// A lock whose value is known to be of one database by every thread that has a key to it. A
/// client's key knows that client's last number.
#[derive(Drop)]
pub struct CommitLock<T: Lockable> {
    critical_section: Mutex<()>,
    arrivals: Arrivals,
    table: Table<Option<T>, KeyHolder<T>, Snapshot<T>, LockRule<T>, Global>,
    ghost sized: { (table.shared.table_id.words ≡ 1) × (table.shared.table_id.slots ≡ 1) },
}

impl<T: Lockable> CommitLock<T> {
    /// Locks a value up in which no client has a number yet, and gives the opener's key. Where
    /// memory runs out the value is dropped.
    pub fn new(alloc: Global, value: T) -> Result<(CommitLock<T>, LockKey<T>), AllocError>
        requires { (client : ℕ) → slice_index (T.last value) client ≡ 0 }
        ensures { IfOk result (λ r. (r.1.table_id ≡ r.0.table.shared.table_id)
            × (r.1.me ≡ (opener r.1.me.0.about, [])) × (r.1.me.0.about.value ≡ value)) }
    {
        let about = Snapshot::of(&value);
        let mut slots = Vec::with_capacity(alloc, 1)?;
        slots.push_reserved(Some(value));
        match Table::new(alloc, &[0], slots, &about) {
            Ok((table, key)) => Ok((
                CommitLock {
                    critical_section: Mutex::new(()),
                    arrivals: Arrivals::new(),
                    table,
                },
                key,
            )),
            Err(_) => Err(AllocError),
        }
    }

    /// A key for one client more, by the opener's key.
    pub fn another(&self, key: &mut LockKey<T>) -> LockKey<T>
        requires { (key.old.table_id ≡ self.now.table.shared.table_id) × (key.old.me.1 ≡ [])
            × (key.old.me.0.client ≡ None) }
        ensures { (key.new.table_id ≡ key.old.table_id)
            × (key.new.me ≡ (with_one_more key.old.me.0, []))
            × (result.table_id ≡ key.old.table_id) × (result.me ≡ (with_client key.old.me.0, [])) }
    {
        self.table.shared.split_seat::<Again>(key)
    }

    /// Waits for the lock, which is held as long as the guard.
    pub fn wait<R: Wait>(&self, rt: &R) -> MutexGuard<'_, ()> {
        self.critical_section.lock(rt)
    }

    /// Who comes to the lock, and who waits there.
    pub fn arrivals(&self) -> &Arrivals {
        &self.arrivals
    }

    /// Takes the value, unless another thread has it.
    pub fn try_take(&self, key: &mut LockKey<T>) -> Option<T>
        requires { (key.old.table_id ≡ self.now.table.shared.table_id) × (key.old.me.1 ≡ []) }
        ensures table { key.new.table_id ≡ key.old.table_id }
        ensures value { MatchOption result (key.new.me ≡ key.old.me)
            (λ x. (key.new.me ≡ (taken_by x key.old.me.0, (0, None) ∷ []))
            × (T.name x ≡ T.name key.old.me.0.about.value)
            × (number_for (T.last x) key.old.me.0.client key.old.me.0.last ≡ key.old.me.0.last)) }
    {
        let shared = &self.table.shared;
        let found = shared.compare_exchange::<Take<T>>(key, 0, 0, 1);
        if found != 0 {
            return None;
        }
        shared.exchange(key, 0, None)
    }

    /// Takes the value. It waits while another thread has it.
    pub fn take<R: Wait>(&self, rt: &R, key: &mut LockKey<T>) -> T
        requires { (key.old.table_id ≡ self.now.table.shared.table_id) × (key.old.me.1 ≡ []) }
        ensures key { (key.new.table_id ≡ key.old.table_id)
            × (key.new.me ≡ (taken_by result key.old.me.0, (0, None) ∷ [])) }
        ensures name { T.name result ≡ T.name key.old.me.0.about.value }
        ensures number { number_for (T.last result) key.old.me.0.client key.old.me.0.last
            ≡ key.old.me.0.last }
    {
        for _ in rt.forever() {
            if let Some(value) = self.try_take(key) {
                return value;
            }
            thread::yield_now();
        }
        unreachable!()
    }

    /// Puts the value back, with the numbers that it had, but for that of the holder's client.
    pub fn put(&self, key: &mut LockKey<T>, value: T)
        requires key { (key.old.table_id ≡ self.now.table.shared.table_id)
            × (key.old.me.1 ≡ (0, None) ∷ []) }
        requires name { T.name value ≡ T.name key.old.me.0.about.value }
        requires numbers { MayReturn T.last key.old.me.0 (T.last value) }
        ensures { (key.new.table_id ≡ key.old.table_id)
            × (key.new.me ≡ (returned_with (T.last value) key.old.me.0, [])) }
    {
        let shared = &self.table.shared;
        shared.exchange(key, 0, Some(value));
        shared.store::<Return<T>>(key, 0, 0);
    }
}
