// Commands in a transaction that has put a pair there which isn't of the written form: each that
// opens the store tells its key, and so does each that reads it later. Run as a test.
use crate::scene::Step::{New, Perform, Set};
use crate::scene::{CREATE, Row, begun, take};
use std::alloc::Global;
use std::test::Fail;

/// A store with the VALUE index by_a, and one with the COUNT index cnt.
const INDEXED: &str = r#"["create",0,{"types":[
    {"name":"t","fields":[["k","int"],["a","int"],["b","int"]],"key":["k"]}
],"indexes":[{"name":"by_a","kind":"value","type":"t","columns":["a"]}]}]"#;

const COUNTED: &str = r#"["create",0,{"types":[
    {"name":"t","fields":[["k","int"],["a","int"],["b","int"]],"key":["k"]}
],"indexes":[{"name":"cnt","kind":"count","type":"t","columns":[]}]}]"#;

/// What opening a store reads: a schema without its last byte, a state of no index, and one that
/// there isn't. How the store is made, the pair, and what is told.
static OPENED: [(&str, &str, &str); 3] = [
    (
        CREATE,
        "150114=15011501140505150102740005\
         05026b00150100050261001501000502620015010000051400000005",
        "refused Corrupt 150114",
    ),
    (CREATE, "150115051509=1501", "refused Corrupt 150115051509"),
    (INDEXED, "150115051501=1503", "refused Corrupt 150115051501"),
];

/// The commands that open a store.
static OPENING: [&str; 14] = [
    r#"["load",0,"t",[1]]"#,
    r#"["save",0,"t",[1,2,3]]"#,
    r#"["remove",0,"t",[1]]"#,
    r#"["query",0,{"type":"t"}]"#,
    r#"["plan",0,{"type":"t"}]"#,
    r#"["type",0,{"name":"u","fields":[["k","int"]],"key":["k"]}]"#,
    r#"["state",0,"by_a"]"#,
    r#"["index",0,{"name":"by_b","kind":"value","type":"t","columns":["b"]}]"#,
    r#"["write_only",0,"by_a"]"#,
    r#"["readable",0,"by_a"]"#,
    r#"["build",0,"by_a",1]"#,
    r#"["disable",0,"by_a"]"#,
    r#"["drop",0,"by_a"]"#,
    r#"["aggregate",0,"by_a",[]]"#,
];

/// What commands read after that: an entry that isn't one, a total of seven bytes, and a built
/// range that ends before it begins.
static READ: [Row; 13] = [
    (New, "", "", ""),
    (Perform, INDEXED, "", "ok"),
    (Set, "150115021501150515011509=", "", ""),
    (
        Perform,
        r#"["query",0,{"type":"t","filter":["=","a",5]}]"#,
        "",
        "refused Corrupt 150115021501150515011509",
    ),
    (New, "", "", ""),
    (Perform, COUNTED, "", "ok"),
    (Set, "150115021501=00000000000000", "", ""),
    (
        Perform,
        r#"["aggregate",0,"cnt",[]]"#,
        "",
        "refused Corrupt 150115021501",
    ),
    (New, "", "", ""),
    (Perform, COUNTED, "", "ok"),
    (Perform, r#"["write_only",0,"cnt"]"#, "", "ok"),
    (Set, "15011506150101150500=1503", "", ""),
    (
        Perform,
        r#"["build",0,"cnt",1]"#,
        "",
        "refused Corrupt 15011506150101150500",
    ),
];

fn take_all(alloc: Global, rows: &[Row]) -> Result<(), Fail> {
    let mut scene = begun(alloc)?;
    for row in rows {
        take(alloc, &mut scene, row)?;
    }
    Ok(())
}

/// Each command that opens a store tells the damaged pair, and one that makes a store that there is
/// something.
fn each_opens(
    alloc: Global,
    damaged: &(&'static str, &'static str, &'static str),
) -> Result<(), Fail> {
    let (create, pair, told) = *damaged;
    for command in &OPENING {
        take_all(
            alloc,
            &[
                (New, "", "", ""),
                (Perform, create, "", "ok"),
                (Set, pair, "", ""),
                (Perform, command, "", told),
                (Perform, create, "", "refused AlreadyThere"),
            ],
        )?;
    }
    Ok(())
}

#[test]
fn what_opens_tells_damage(rt: HostRuntime) -> Result<(), Fail> {
    for damaged in &OPENED {
        each_opens(rt.alloc(), damaged)?;
    }
    Ok(())
}

#[test]
fn what_reads_tells_damage(rt: HostRuntime) -> Result<(), Fail> {
    take_all(rt.alloc(), &READ)
}
