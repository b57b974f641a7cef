// A transaction on one thread beside a commit on another. Run as tests.
use crate::in_turn::parted;
use crate::transactions::{alone, are_told, joined, over, two_clients};
use runtime::{Built, Client, End, Gate, GatePoint, begin, build_worker};
use std::alloc::Global;
use std::sync::Wait;
use std::sync::atomic::{AtomicBool, Ordering};
use std::test::Fail;
use std::thread;
use std::thread::Threads;
use tuple_codec::Text;

/// How often a thread looks for the other one's sign.
const LOOKS: u64 = 1_000_000_000;

/// Makes the store, with the record that both transactions change.
const MADE: &str = r#"{"steps":[
    ["create",0,{"types":[{"name":"t","fields":[["k","int"],["a","int"],["b","int"]],"key":["k"]}]}],
    ["save",0,"t",[1,0,0]]
]}"#;

const EARLY: &str = r#"{"steps":[["save",0,"t",[1,2,0]]]}"#;

const LATE: &str = r#"{"steps":[["load",0,"t",[1]],["save",0,"t",[1,1,0]]]}"#;

/// Makes the store with two records, and an index that counts them, of which nothing is built.
const UNBUILT: &str = r#"{"steps":[
    ["create",0,{"types":[{"name":"t","fields":[["k","int"],["a","int"],["b","int"]],"key":["k"]}]}],
    ["save",0,"t",[1,0,0]],
    ["save",0,"t",[2,0,0]],
    ["index",0,{"name":"cnt","kind":"count","type":"t","columns":[]}],
    ["write_only",0,"cnt"]
]}"#;

const THIRD: &str = r#"{"steps":[["save",0,"t",[3,0,0]]]}"#;

const TOTAL: &str = r#"{"steps":[["aggregate",0,"cnt",[]]]}"#;

/// Waits for a sign.
fn wait_for(sign: &AtomicBool) -> bool {
    for _ in 0..LOOKS {
        if sign.load(Ordering::SeqCst) {
            return true;
        }
        thread::yield_now();
    }
    false
}

/// Begins, lets the other thread commit, and changes what that one has changed.
fn late<E: End, R: Wait>(
    rt: &R,
    alloc: Global,
    client: &mut Client<E>,
    begun: &AtomicBool,
    written: &AtomicBool,
) -> Option<String> {
    let tx = begin(client).ok()?;
    begun.store(true, Ordering::SeqCst);
    if !wait_for(written) {
        return None;
    }
    over(rt, alloc, tx, LATE).lines
}

/// Commits once the other thread has begun.
fn early<E: End, R: Wait>(
    rt: &R,
    alloc: Global,
    client: &mut Client<E>,
    script: &str,
    begun: &AtomicBool,
    written: &AtomicBool,
) -> Option<String> {
    if !wait_for(begun) {
        return None;
    }
    let told = alone(rt, alloc, client, script);
    written.store(true, Ordering::SeqCst);
    told.lines
}

/// A transaction on one thread, with a commit of another client in the middle of it.
fn late_beside_early<E: End + Send, R: Threads + Wait + Sync>(
    rt: &R,
    alloc: Global,
    one: &mut Client<E>,
    other: &mut Client<E>,
) -> (Option<String>, Option<String>) {
    let begun = AtomicBool::new(false);
    let written = AtomicBool::new(false);
    thread::join(
        rt,
        || late(rt, alloc, one, &begun, &written),
        || early(rt, alloc, other, EARLY, &begun, &written),
    )
}

/// What the two clients of a new store are told: where it is made, of the early commit, and of the
/// late one.
fn transactions<R: Threads + Wait + Sync>(rt: &R, alloc: Global) -> Option<String> {
    let (mut one, mut other) = two_clients(rt, alloc)?;
    let made = alone(rt, alloc, &mut one, MADE).lines;
    let (late, early) = late_beside_early(rt, alloc, &mut one, &mut other);
    parted(alloc, parted(alloc, made, early), late)
}

#[test]
fn a_transaction_beside_a_commit(rt: HostRuntime) -> Result<(), Fail> {
    are_told(
        transactions(&rt, rt.alloc()),
        "0 ok\n1 saved new\ncommitted 1; 0 saved over [1,0,0]\ncommitted 2; \
         0 found [1,0,0]\n1 saved over [1,0,0]\nconflict 2",
    )
}

/// Holds a builder before each of its commits until the other thread has written.
#[derive(Drop)]
struct Held<'a> {
    begun: &'a AtomicBool,
    written: &'a AtomicBool,
}

impl Gate for Held<'_> {
    ghost passed = { λ old place new. Unit {0} };

    fn pass(&mut self, place: GatePoint) {
        if place == GatePoint::BeforeCommit {
            self.begun.store(true, Ordering::SeqCst);
            let _ = wait_for(self.written);
        }
    }
}

/// Builds the index.
fn built<E: End, R: Wait>(
    rt: &R,
    alloc: Global,
    client: &mut Client<E>,
    begun: &AtomicBool,
    written: &AtomicBool,
) -> Option<Built> {
    let index = Text::from_str(alloc, "cnt").ok()?;
    build_worker(rt, client, index, 5, 10, Held { begun, written }).ok()
}

/// A builder on one thread, with a commit of another client before its own.
fn built_beside_early<E: End + Send, R: Threads + Wait + Sync>(
    rt: &R,
    alloc: Global,
    one: &mut Client<E>,
    other: &mut Client<E>,
) -> (Option<Built>, Option<String>) {
    let begun = AtomicBool::new(false);
    let written = AtomicBool::new(false);
    thread::join(
        rt,
        || built(rt, alloc, one, &begun, &written),
        || early(rt, alloc, other, THIRD, &begun, &written),
    )
}

/// What is built, in words.
pub(crate) fn built_line(alloc: Global, built: Option<Built>) -> Option<String> {
    let Built { records, steps } = built?;
    format!(in alloc; "built {records} in {steps}\n").ok()
}

/// What was built, what the commit was told, and the total then, once the store is made.
fn builder<R: Threads + Wait + Sync>(rt: &R, alloc: Global) -> Option<String> {
    let (mut one, mut other) = two_clients(rt, alloc)?;
    alone(rt, alloc, &mut one, UNBUILT).lines?;
    let (built, saved) = built_beside_early(rt, alloc, &mut one, &mut other);
    let total = alone(rt, alloc, &mut other, TOTAL).lines;
    parted(alloc, joined(built_line(alloc, built), saved), total)
}

#[test]
fn a_builder_beside_a_commit(rt: HostRuntime) -> Result<(), Fail> {
    are_told(
        builder(&rt, rt.alloc()),
        "built 3 in 1\n0 saved new\ncommitted 2; 0 total 3\nread only",
    )
}
