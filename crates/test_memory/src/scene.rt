// The store that is asked, what the transaction writes before it asks, and the queries; commands of
// scripts. Called by `main` and `worked`.
use kv_core::KvMap;
use record_store::StoreNumber;
use schedule::{Command, Step, perform};
use script::script_of;
use std::alloc::Global;
use std::test::Fail;
use txn::Transaction;

/// Makes the store that stands.
const MADE: &str = r#"{"steps":[
    ["create",0,{"types":[{"name":"t","fields":[["k","int"],["a","int"],["b","int"]],"key":["k"]}],
        "indexes":[{"name":"by_a","kind":"value","type":"t","columns":["a"]},
            {"name":"by_b","kind":"value","type":"t","columns":["b"]}]}],
    ["save",0,"t",[1,1,2]],
    ["save",0,"t",[2,1,3]],
    ["save",0,"t",[3,9,2]]
]}"#;

/// What the transaction writes before it asks.
pub(crate) const OWN: &str = r#"{"steps":[["save",0,"t",[4,1,2]],["remove",0,"t",[2]]]}"#;

/// What it asks: a scan of the type, of an index each way, a union, an intersection, a filter.
pub(crate) const QUERIES: &str = r#"{"steps":[
    ["query",0,{"type":"t"}],
    ["query",0,{"type":"t","filter":["=","a",1]}],
    ["query",0,{"type":"t","filter":["<","a",5],"sort":["a"],"reverse":true}],
    ["query",0,{"type":"t","filter":["or",["=","a",9],["=","b",2]]}],
    ["query",0,{"type":"t","filter":["and",["=","a",1],["=","b",2]]}],
    ["query",0,{"type":"t","filter":["and",["=","a",1],["!=","k",1]]}]
]}"#;

/// What it has written then: the record 4 with its entries, and that 2 goes with its own.
pub(crate) const WRITTEN: &str = "1501150115011504=150415011502 150115021501150115011504= \
    150115021502150215011504= 1501150115011502-150115011501150200 \
    150115021501150115011502-15011502150115011501150200 \
    150115021502150315011502-15011502150215031501150200";

/// The commands of a script.
pub(crate) fn commands(alloc: Global, script: &str) -> Result<Vec<Command>, Fail> {
    let mut commands = Vec::new(alloc);
    for step in script_of(alloc, script.as_bytes())?.steps {
        if let Step::Perform(_, command) = step {
            commands.push(command)?;
        }
    }
    Ok(commands)
}

/// The command of a script's step.
pub(crate) fn command_of(alloc: Global, step: &str) -> Result<Command, Fail> {
    let script = format!(in alloc; "{{\"steps\":[{step}]}}")?;
    Ok(commands(alloc, script.as_str())?.pop().ok_or("no command")?)
}

/// Performs the commands of a script, whatever they reply: what they wrote is compared later.
pub(crate) fn perform_all(
    alloc: Global,
    db: &KvMap,
    tx: &mut Transaction,
    script: &str,
) -> Result<(), Fail> {
    for command in commands(alloc, script)? {
        let _reply = perform(alloc, &command, StoreNumber::first(), tx, db)?;
    }
    Ok(())
}

/// The store that stands.
pub(crate) fn stored(alloc: Global) -> Result<KvMap, Fail> {
    let db = KvMap::new(alloc);
    let mut tx = Transaction::begin(alloc, 0);
    perform_all(alloc, &db, &mut tx, MADE)?;
    let request = tx.into_request();
    Ok(db.with_all(request.mutations.as_slice())?)
}
