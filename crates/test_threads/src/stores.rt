// Clients in two stores of one database, whose types and indexes have the same names. Run as a test.
use crate::beside::built_line;
use crate::transactions::{are_told, joined, over, two_clients};
use metadata::{Cell, Cells};
use record_store::StoreNumber;
use runtime::{
    Body, Built, Client, CommandError, End, Gate, GatePoint, RunError, Txn, begin_in, build_worker,
    build_worker_in,
};
use schedule::Reply;
use script::make_line;
use std::alloc::Global;
use std::sync::Wait;
use std::test::Fail;
use tuple_codec::Text;
use txn::Retry;

/// Makes store 2, with a record.
const SECOND: &str = r#"{"steps":[
    ["create",0,{"types":[{"name":"t","fields":[["k","int"],["a","int"],["b","int"]],"key":["k"]}]}],
    ["save",0,"t",[1,2,2]]
]}"#;

/// Makes store 1, with other fields, two records and an index that counts them.
const FIRST: &str = r#"{"steps":[
    ["create",0,{"types":[{"name":"t","fields":[["k","int"],["s","text"]],"key":["k"]}],
        "indexes":[{"name":"cnt","kind":"count","type":"t","columns":[]}]}],
    ["save",0,"t",[1,"x"]],
    ["save",0,"t",[2,"y"]]
]}"#;

/// Adds an index of that name to store 2, of which nothing is built.
const UNBUILT: &str = r#"{"steps":[
    ["index",0,{"name":"cnt","kind":"count","type":"t","columns":[]}],
    ["write_only",0,"cnt"]
]}"#;

const TOTAL: &str = r#"{"steps":[["aggregate",0,"cnt",[]]]}"#;

/// What is told of these, one after another, of the worker, and of the totals then.
const TOLD: &str = "0 ok\n1 saved new\ncommitted 1
0 found [1,2,2]
0 refused NoStore
0 ok\n1 saved new\n2 saved new\ncommitted 2
0 found [1,\"x\"]
0 found [1,2,2]
0 disabled\n1 ok\ncommitted 3
built 1 in 1
0 total 2\nread only
0 total 1\nread only
";

/// What is asked in a store.
enum Ask {
    /// These commands, in a transaction of their own.
    Commands(&'static str),
    /// The record 1, in a run.
    Record,
}

/// The number of a store, and what is asked there.
type Asked = (u64, Ask);

/// Both stores are made, one after the other.
static ASKED: [Asked; 7] = [
    (2, Ask::Commands(SECOND)),
    (2, Ask::Record),
    (1, Ask::Record),
    (1, Ask::Commands(FIRST)),
    (1, Ask::Record),
    (2, Ask::Record),
    (2, Ask::Commands(UNBUILT)),
];

/// The totals of both, once the index of store 2 is built.
static BUILT: [Asked; 2] = [(1, Ask::Commands(TOTAL)), (2, Ask::Commands(TOTAL))];

/// Loads the record 1.
#[derive(Drop)]
struct Load {
    alloc: Global,
}

impl<E: End> Body<E> for Load {
    type Answer = Option<Cells>;

    ghost did = { λ body old result new after. Unit {0} };

    fn attempt(&mut self, tx: &mut Txn<'_, E>) -> Result<Option<Cells>, CommandError> {
        let key = Cells::new(vec![in self.alloc; Cell::Int(1)]?);
        let type_name = Text::from_str(self.alloc, "t")?;
        tx.load(type_name, key)
    }
}

/// A gate that holds nobody.
#[derive(Drop)]
struct Unheld;

impl Gate for Unheld {
    ghost passed = { λ old place new. Unit {0} };

    fn pass(&mut self, _place: GatePoint) {}
}

/// The line of a reply.
fn line(alloc: Global, reply: &Reply) -> Option<String> {
    let mut line = String::new(alloc);
    make_line(alloc, &mut line, 0, reply).ok()?;
    Some(line)
}

/// What a client is told of these commands, in a transaction in this store.
fn told_in<E: End, R: Wait>(
    rt: &R,
    alloc: Global,
    client: &mut Client<E>,
    store: StoreNumber,
    script: &str,
) -> Option<String> {
    let tx = begin_in(client, store).ok()?;
    let mut lines = over(rt, alloc, tx, script).lines?;
    lines.push_str("\n").ok()?;
    Some(lines)
}

/// The reply that says what was found.
fn found_reply(found: Option<Cells>) -> Reply {
    match found {
        Some(cells) => Reply::Found(cells),
        None => Reply::Absent,
    }
}

/// What a run in this store finds of the record 1.
fn found_in<E: End, R: Wait>(
    rt: &R,
    alloc: Global,
    client: &mut Client<E>,
    store: StoreNumber,
) -> Option<String> {
    let mut body = Load { alloc };
    match client.run_in(rt, store, Retry { limit: 10 }, false, &mut body) {
        Ok((found, _)) => line(alloc, &found_reply(found)),
        Err(RunError::Refused(CommandError::Refused(refusal))) => {
            line(alloc, &Reply::Refused(refusal))
        }
        Err(_) => None,
    }
}

/// What a client is told that asks this in the store of this number.
fn told<E: End, R: Wait>(
    rt: &R,
    alloc: Global,
    client: &mut Client<E>,
    asked: &Asked,
) -> Option<String> {
    let (number, ask) = asked;
    let store = StoreNumber::new(*number)?;
    match ask {
        Ask::Commands(script) => told_in(rt, alloc, client, store, script),
        Ask::Record => found_in(rt, alloc, client, store),
    }
}

/// What it is told of all that it asks, one after another.
fn told_each<E: End, R: Wait>(
    rt: &R,
    alloc: Global,
    client: &mut Client<E>,
    asked: &[Asked],
) -> Option<String> {
    let mut lines = Some(String::new(alloc));
    for asked in asked {
        lines = joined(lines, told(rt, alloc, client, asked));
    }
    lines
}

/// What a worker builds in this store.
fn built_in<E: End, R: Wait>(
    rt: &R,
    alloc: Global,
    client: &mut Client<E>,
    store: StoreNumber,
) -> Option<Built> {
    let index = Text::from_str(alloc, "cnt").ok()?;
    build_worker_in(rt, client, store, index, 5, 10, Unheld).ok()
}

/// Whether a worker in store 1 is refused, where nothing is to be built.
fn is_refused_there<E: End, R: Wait>(rt: &R, alloc: Global, client: &mut Client<E>) -> bool {
    match Text::from_str(alloc, "cnt") {
        Ok(index) => matches!(
            build_worker(rt, client, index, 5, 10, Unheld),
            Err(RunError::Refused(_))
        ),
        Err(_) => false,
    }
}

/// What a client is told of all of it. The worker in store 1 is refused, that in store 2 builds.
fn told_of_both<E: End, R: Wait>(
    rt: &R,
    alloc: Global,
    client: &mut Client<E>,
    second: StoreNumber,
) -> Option<String> {
    let told = told_each(rt, alloc, client, &ASKED);
    if !is_refused_there(rt, alloc, client) {
        return None;
    }
    let built = built_line(alloc, built_in(rt, alloc, client, second));
    joined(joined(told, built), told_each(rt, alloc, client, &BUILT))
}

/// The same of a client of a new database.
fn in_two_stores<R: Wait>(rt: &R, alloc: Global) -> Option<String> {
    let (mut one, _other) = two_clients(rt, alloc)?;
    told_of_both(rt, alloc, &mut one, StoreNumber::new(2)?)
}

#[test]
fn two_stores_have_the_same_names(rt: HostRuntime) -> Result<(), Fail> {
    are_told(in_two_stores(&rt, rt.alloc()), TOLD)
}
