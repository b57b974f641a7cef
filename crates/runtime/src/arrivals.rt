// Who is about to come to the commit lock with something to be kept, and who waits there until it is.
// Nothing that is proved rests on it: it lets those that come together be kept by one call. Used by
// `critical_section` and `group_commit`.
use std::hint::spin_loop;
use std::sync::atomic::{AtomicU64, Ordering};
use std::sync::{Condvar, MutexGuard, Wait};

// How often whoever is to keep what waits looks before whether as many have come as the last time.
// It takes some 50 microseconds, and lets go no processor, so that it is no more on a busy machine.
const PATIENCE: u32 = 2_000;

/// How many are about to come, how many have come since what waited was kept, how many had the time
/// before, and those that wait.
#[derive(Drop)]
pub struct Arrivals {
    coming: AtomicU64,
    there: AtomicU64,
    expected: AtomicU64,
    waiting: Condvar,
}

impl Arrivals {
    /// Nobody comes or waits.
    pub fn new() -> Arrivals {
        Arrivals {
            coming: AtomicU64::new(0),
            there: AtomicU64::new(0),
            expected: AtomicU64::new(0),
            waiting: Condvar::new(),
        }
    }

    /// One more is about to come.
    pub fn announce(&self) {
        self.coming.fetch_add(1, Ordering::SeqCst);
    }

    /// One of those that were to come is there.
    pub fn arrive(&self) {
        self.coming.fetch_sub(1, Ordering::SeqCst);
        self.there.fetch_add(1, Ordering::SeqCst);
    }

    /// Whether nobody is about to come.
    pub fn are_over(&self) -> bool {
        self.coming.load(Ordering::SeqCst) == 0
    }

    /// Whether as many are there as the last time.
    fn are_all_there(&self) -> bool {
        self.expected.load(Ordering::SeqCst) <= self.there.load(Ordering::SeqCst)
    }

    /// Whether nobody is about to come, also after those that came the last time had some time to.
    pub fn are_gathered(&self) -> bool {
        for _ in 0..PATIENCE {
            if !self.are_over() || self.are_all_there() {
                break;
            }
            spin_loop();
        }
        self.are_over()
    }

    /// Lets the lock go, waits to be woken, and waits for the lock again.
    pub fn sleep<'a, R: Wait>(&self, rt: &R, guard: MutexGuard<'a, ()>) -> MutexGuard<'a, ()> {
        self.waiting.wait(rt, guard)
    }

    /// Wakes all that wait, once what waited was kept.
    pub fn wake(&self) {
        let there = self.there.swap(0, Ordering::SeqCst);
        self.expected.store(there, Ordering::SeqCst);
        self.waiting.notify_all();
    }
}
