// Clients that take turns on one thread. Run as tests.
ghost use Rattle.std.specs.Prelude.{◌≡◌, IfSome};
ghost use Rattle.test_threads.specs.Turns.{AreOf};

use crate::transactions::{Told, alone, are_told, joined};
use cluster_core::Config;
use runtime::{Client, End, Seen, Waits, open};
use std::alloc::Global;
use std::sync::Wait;
use std::test::Fail;

/// Makes the store, with an index of each field and one that counts all records.
const INDEXED: &str = r#"{"steps":[
    ["create",0,{"types":[{"name":"t","fields":[["k","int"],["a","int"],["b","int"]],"key":["k"]}],
        "indexes":[{"name":"by_a","kind":"value","type":"t","columns":["a"]},
            {"name":"by_b","kind":"value","type":"t","columns":["b"]},
            {"name":"cnt","kind":"count","type":"t","columns":[]}]}]
]}"#;

/// Saves two records and takes one out, and asks for what is left.
const CHANGED: &str = r#"{"steps":[
    ["save",0,"t",[1,1,2]],
    ["save",0,"t",[2,1,3]],
    ["remove",0,"t",[2]],
    ["plan",0,{"type":"t","filter":["=","a",1]}],
    ["execute",0],
    ["aggregate",0,"cnt",[]]
]}"#;

/// Two clients ask for what others left.
static TAUGHT: [&str; 4] = [
    INDEXED,
    CHANGED,
    r#"{"steps":[["load",0,"t",[1]]]}"#,
    r#"{"steps":[["load",0,"t",[2]]]}"#,
];

const LEARNT: &str = "; 0 ok\ncommitted 1; 0 saved new\n1 saved new\n2 removed\n\
    3 plan Fetch(IndexScan(by_a,1501..1501ff))\n4 rows [[1,1,2]]\n5 total 1\ncommitted 2; \
    0 found [1,1,2]\nread only; 0 none\nread only";

/// Makes the store.
const PLAIN: &str = r#"{"steps":[
    ["create",0,{"types":[{"name":"t","fields":[["k","int"],["a","int"],["b","int"]],"key":["k"]}]}]
]}"#;

/// What each of the clients does in turn.
static SAVED: [&str; 4] = [
    PLAIN,
    r#"{"steps":[["save",1,"t",[1,0,0]]]}"#,
    r#"{"steps":[["save",2,"t",[2,0,0]]]}"#,
    r#"{"steps":[["save",3,"t",[3,0,0]]]}"#,
];

/// A transaction of a client, which learns before it what another one has seen.
pub(crate) fn taught<E: End, R: Wait>(
    rt: &R,
    alloc: Global,
    client: &mut Client<E>,
    seen: Option<Seen>,
    script: &str,
) -> Told
    requires { IfSome seen (λ it. it.prefix.name ≡ client.old.name) }
    ensures same { client.new.name ≡ client.old.name }
    ensures seen { IfSome result.seen (λ it. it.prefix.name ≡ client.old.name) }
{
    if let Some(seen) = seen {
        client.learn(seen);
    }
    alone(rt, alloc, client, script)
}

/// A text with another one after it.
pub(crate) fn parted(alloc: Global, lines: Option<String>, more: Option<String>) -> Option<String> {
    joined(joined(lines, String::from_str(alloc, "; ").ok()), more)
}

/// A transaction of the next client, after what was told so far.
fn next<E: End, R: Wait>(
    rt: &R,
    alloc: Global,
    clients: &mut Vec<Client<E>>,
    told: Told,
    script: &str,
) -> Told
    requires { AreOf clients.old.items told.seen }
    ensures { AreOf clients.new.items result.seen }
{
    let Told { lines, seen } = told;
    match clients.pop() {
        Some(client) => {
            let mut client = client;
            let next = taught(rt, alloc, &mut client, seen, script);
            Told {
                lines: parted(alloc, lines, next.lines),
                seen: next.seen,
            }
        }
        None => Told {
            lines: None,
            seen: None,
        },
    }
}

/// Each of four clients in turn, which learns what the one before has seen.
fn four_turns<E: End, R: Wait>(
    rt: &R,
    alloc: Global,
    clients: &mut Vec<Client<E>>,
    told: Told,
    scripts: &[&str; 4],
) -> Option<String>
    requires { AreOf clients.old.items told.seen }
{
    let told = next(rt, alloc, clients, told, scripts[0]);
    let told = next(rt, alloc, clients, told, scripts[1]);
    let told = next(rt, alloc, clients, told, scripts[2]);
    next(rt, alloc, clients, told, scripts[3]).lines
}

/// The same with the clients of a new store.
fn opened<R: Wait>(rt: &R, alloc: Global, config: &Config, scripts: &[&str; 4]) -> Option<String> {
    let told = Told {
        lines: Some(String::new(alloc)),
        seen: None,
    };
    match open(rt, alloc, Waits { rt }, config) {
        Ok(clients) => {
            let mut clients = clients;
            four_turns(rt, alloc, &mut clients, told, scripts)
        }
        Err(_) => None,
    }
}

fn in_turn<R: Wait>(rt: &R, alloc: Global, scripts: &[&str; 4]) -> Option<String> {
    opened(rt, alloc, &Config::single(alloc), scripts)
}

#[test]
fn a_client_learns_of_a_commit(rt: HostRuntime) -> Result<(), Fail> {
    are_told(in_turn(&rt, rt.alloc(), &TAUGHT), LEARNT)
}

#[test]
fn clients_commit_in_turn(rt: HostRuntime) -> Result<(), Fail> {
    are_told(
        in_turn(&rt, rt.alloc(), &SAVED),
        "; 0 ok\ncommitted 1; 0 saved new\ncommitted 2; 0 saved new\ncommitted 3; 0 saved new\ncommitted 4",
    )
}
