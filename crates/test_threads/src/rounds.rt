// Two clients that commit round after round, each of which learns before a transaction what the
// other one has seen. Run as a test.
ghost use Rattle.std.specs.Prelude.{◌≡◌, IfSome};

use crate::in_turn::{parted, taught};
use crate::transactions::{Told, are_told, two_clients};
use runtime::{Client, End};
use std::alloc::Global;
use std::sync::Wait;
use std::test::Fail;

/// What each of them does in the first round.
static MADE: [&str; 2] = [
    r#"{"steps":[
        ["create",0,{"types":[{"name":"t","fields":[["k","int"],["a","int"]],"key":["k"]}]}]
    ]}"#,
    r#"{"steps":[["save",0,"t",[1,0]]]}"#,
];

/// In the second one.
static SAVED: [&str; 2] = [
    r#"{"steps":[["save",0,"t",[1,1]]]}"#,
    r#"{"steps":[["load",0,"t",[1]],["save",0,"t",[1,2]]]}"#,
];

/// And in the third.
static READ: [&str; 2] = [
    r#"{"steps":[["save",0,"t",[1,3]]]}"#,
    r#"{"steps":[["load",0,"t",[1]]]}"#,
];

/// A transaction of a client, which learns what was seen so far, after what was told so far.
fn turn<E: End, R: Wait>(
    rt: &R,
    alloc: Global,
    client: &mut Client<E>,
    told: Told,
    script: &str,
) -> Told
    requires { IfSome told.seen (λ it. it.prefix.name ≡ client.old.name) }
    ensures same { client.new.name ≡ client.old.name }
    ensures seen { IfSome result.seen (λ it. it.prefix.name ≡ client.old.name) }
{
    let Told { lines, seen } = told;
    let next = taught(rt, alloc, client, seen, script);
    Told {
        lines: parted(alloc, lines, next.lines),
        seen: next.seen,
    }
}

/// A transaction of each.
fn round<E: End, R: Wait>(
    rt: &R,
    alloc: Global,
    one: &mut Client<E>,
    other: &mut Client<E>,
    told: Told,
    scripts: &[&str; 2],
) -> Told
    requires named { one.old.name ≡ other.old.name }
    requires seen { IfSome told.seen (λ it. it.prefix.name ≡ one.old.name) }
    ensures same { one.new.name ≡ one.old.name }
    ensures other { other.new.name ≡ other.old.name }
    ensures seen { IfSome result.seen (λ it. it.prefix.name ≡ one.old.name) }
{
    let told = turn(rt, alloc, one, told, scripts[0]);
    turn(rt, alloc, other, told, scripts[1])
}

/// What both are told in three rounds.
fn rounds<E: End, R: Wait>(
    rt: &R,
    alloc: Global,
    one: &mut Client<E>,
    other: &mut Client<E>,
) -> Option<String>
    requires { one.old.name ≡ other.old.name }
{
    let told = Told {
        lines: Some(String::new(alloc)),
        seen: None,
    };
    let told = round(rt, alloc, one, other, told, &MADE);
    let told = round(rt, alloc, one, other, told, &SAVED);
    round(rt, alloc, one, other, told, &READ).lines
}

/// The same with the clients of a new store.
fn told_in_rounds<R: Wait>(rt: &R, alloc: Global) -> Option<String> {
    let (mut one, mut other) = two_clients(rt, alloc)?;
    rounds(rt, alloc, &mut one, &mut other)
}

#[test]
fn clients_learn_between_their_commits(rt: HostRuntime) -> Result<(), Fail> {
    are_told(
        told_in_rounds(&rt, rt.alloc()),
        "; 0 ok\ncommitted 1; 0 saved new\ncommitted 2; 0 saved over [1,0]\ncommitted 3; \
         0 found [1,1]\n1 saved over [1,1]\ncommitted 4; 0 saved over [1,2]\ncommitted 5; \
         0 found [1,3]\nread only",
    )
}
