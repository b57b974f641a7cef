// One client that commits again and again. Run as a test.
use crate::in_turn::parted;
use crate::transactions::{alone, are_told, two_clients};
use runtime::{Client, End};
use std::alloc::Global;
use std::sync::Wait;
use std::test::Fail;

/// How often the client commits.
const COMMITS: u32 = 2_000;

/// Makes the store, with a record.
const MADE: &str = r#"{"steps":[
    ["create",0,{"types":[{"name":"t","fields":[["k","int"],["a","int"],["b","int"]],"key":["k"]}]}],
    ["save",0,"t",[1,0,0]]
]}"#;

const SAVED: &str = r#"{"steps":[["save",0,"t",[1,2,0]]]}"#;

const LOADED: &str = r#"{"steps":[["load",0,"t",[1]]]}"#;

/// What the last of many commits of a client is told.
fn last_of_many<E: End, R: Wait>(rt: &R, alloc: Global, client: &mut Client<E>) -> Option<String> {
    let mut last = None;
    for _ in 0..COMMITS {
        last = alone(rt, alloc, client, SAVED).lines;
    }
    last
}

/// That, and what another client finds then.
fn told<E: End, R: Wait>(
    rt: &R,
    alloc: Global,
    one: &mut Client<E>,
    other: &mut Client<E>,
) -> Option<String> {
    alone(rt, alloc, one, MADE).lines?;
    let last = last_of_many(rt, alloc, one);
    parted(alloc, last, alone(rt, alloc, other, LOADED).lines)
}

/// The same of two clients of a new store.
fn again<R: Wait>(rt: &R, alloc: Global) -> Option<String> {
    let (mut one, mut other) = two_clients(rt, alloc)?;
    told(rt, alloc, &mut one, &mut other)
}

#[test]
fn a_client_commits_again_and_again(rt: HostRuntime) -> Result<(), Fail> {
    are_told(
        again(&rt, rt.alloc()),
        "0 saved over [1,2,0]\ncommitted 2001; 0 found [1,2,0]\nread only",
    )
}
