// Transactions whose commands cover what commands can be refused at: reads in each kind of plan,
// entries, totals, and parts of an index that are built beside writers. Used by `test_stores` and
// `test_memory`, which refuse the reads and the growths of each command in turn.

/// What a client does.
#[derive(Clone, Copy)]
pub enum Action {
    /// Nothing: the database is a new one from here on.
    Open,
    /// Begins a transaction.
    Begin,
    /// Performs the command of a script's step.
    Ask,
    /// Commits its transaction.
    Commit,
}

use Action::{Ask, Begin, Commit, Open};

/// What which client does, and what it is told: the reply to a command, or what is reported of its
/// commit.
pub type Worked = (Action, usize, &'static str, &'static str);

/// A store of the type t without an index, with a COUNT index, and with two VALUE indexes.
const CREATE: &str = r#"["create",0,{"types":[
    {"name":"t","fields":[["k","int"],["a","int"],["b","int"]],"key":["k"]}
]}]"#;

const CREATE_SUM: &str = r#"["create",0,{"types":[
    {"name":"t","fields":[["k","int"],["a","int"],["b","int"]],"key":["k"]}
],"indexes":[{"name":"tot","kind":"sum","type":"t","columns":[],"summed":"b"}]}]"#;

const CREATE_TWO: &str = r#"["create",0,{"types":[
    {"name":"t","fields":[["k","int"],["a","int"],["b","int"]],"key":["k"]}
],"indexes":[
    {"name":"by_a","kind":"value","type":"t","columns":["a"]},
    {"name":"by_b","kind":"value","type":"t","columns":["b"]}
]}]"#;

/// What is done in each of these databases.
pub static WORKED: [Worked; 89] = [
    // A record's fields are read as they were saved, rows come by primary key, and a removed record
    // is none.
    (Open, 0, "", ""),
    (Ask, 0, CREATE, "ok"),
    (Ask, 0, r#"["save",0,"t",[2,5,null]]"#, "saved new"),
    (Ask, 0, r#"["save",0,"t",[1,6,0]]"#, "saved new"),
    (Ask, 0, r#"["load",0,"t",[2]]"#, "found [2,5,null]"),
    (
        Ask,
        0,
        r#"["query",0,{"type":"t"}]"#,
        "rows [[1,6,0],[2,5,null]]",
    ),
    (Ask, 0, r#"["remove",0,"t",[1]]"#, "removed"),
    (Ask, 0, r#"["load",0,"t",[1]]"#, "none"),
    (Commit, 0, "", "committed 1"),
    (Begin, 0, "", ""),
    (Ask, 0, r#"["query",0,{"type":"t"}]"#, "rows [[2,5,null]]"),
    // A client reads its own writes, and another what was committed when it began.
    (Open, 0, "", ""),
    (Ask, 0, CREATE, "ok"),
    (Commit, 0, "", "committed 1"),
    (Begin, 1, "", ""),
    (Begin, 0, "", ""),
    (Ask, 0, r#"["query",0,{"type":"t"}]"#, "rows []"),
    (Ask, 0, r#"["save",0,"t",[1,5,null]]"#, "saved new"),
    (Ask, 0, r#"["query",0,{"type":"t"}]"#, "rows [[1,5,null]]"),
    (Commit, 0, "", "committed 2"),
    (Ask, 1, r#"["query",1,{"type":"t"}]"#, "rows []"),
    // Two VALUE indexes serve a union and an intersection.
    (Open, 0, "", ""),
    (Ask, 0, CREATE_TWO, "ok"),
    (Ask, 0, r#"["save",0,"t",[1,1,2]]"#, "saved new"),
    (Ask, 0, r#"["save",0,"t",[2,1,3]]"#, "saved new"),
    (Ask, 0, r#"["save",0,"t",[3,9,2]]"#, "saved new"),
    (
        Ask,
        0,
        r#"["plan",0,{"type":"t","filter":["or",["=","a",1],["=","b",2]]}]"#,
        "plan Union(Fetch(IndexScan(by_a,1501..1501ff)),Fetch(IndexScan(by_b,1502..1502ff)))",
    ),
    (
        Ask,
        0,
        r#"["query",0,{"type":"t","filter":["or",["=","a",1],["=","b",2]]}]"#,
        "rows [[1,1,2],[2,1,3],[3,9,2]]",
    ),
    (
        Ask,
        0,
        r#"["plan",0,{"type":"t","filter":["and",["=","a",1],["=","b",2]]}]"#,
        "plan Fetch(Intersection(IndexScan(by_a,1501..1501ff),IndexScan(by_b,1502..1502ff)))",
    ),
    (
        Ask,
        0,
        r#"["query",0,{"type":"t","filter":["and",["=","a",1],["=","b",2]]}]"#,
        "rows [[1,1,2]]",
    ),
    // A builder and a writer of a record in the range that it builds: the later one conflicts.
    (Open, 0, "", ""),
    (Ask, 0, CREATE, "ok"),
    (Ask, 0, r#"["save",0,"t",[1,7,0]]"#, "saved new"),
    (Ask, 0, r#"["save",0,"t",[2,7,0]]"#, "saved new"),
    (
        Ask,
        0,
        r#"["index",0,{"name":"cnt","kind":"count","type":"t","columns":["a"]}]"#,
        "disabled",
    ),
    (Ask, 0, r#"["write_only",0,"cnt"]"#, "ok"),
    (Commit, 0, "", "committed 1"),
    (Begin, 1, "", ""),
    (Begin, 2, "", ""),
    (Ask, 1, r#"["save",1,"t",[3,7,0]]"#, "saved new"),
    (Ask, 2, r#"["build",2,"cnt",5]"#, "built 2 ..ff"),
    (Commit, 2, "", "committed 2"),
    (
        Commit,
        1,
        "",
        "conflict 2 15011506150100-1501150615010115030000",
    ),
    (Begin, 1, "", ""),
    (Ask, 1, r#"["save",1,"t",[3,7,0]]"#, "saved new"),
    (Commit, 1, "", "committed 4"),
    (Begin, 0, "", ""),
    (Ask, 0, r#"["readable",0,"cnt"]"#, "ok"),
    (Ask, 0, r#"["aggregate",0,"cnt",[7]]"#, "total 3"),
    // Sums are taken modulo 2 ^ 64, and a total that returns to 0 is 0.
    (Open, 0, "", ""),
    (Ask, 0, CREATE_SUM, "ok"),
    (
        Ask,
        0,
        r#"["save",0,"t",[1,0,9223372036854775807]]"#,
        "saved new",
    ),
    (Ask, 0, r#"["save",0,"t",[2,0,1]]"#, "saved new"),
    (
        Ask,
        0,
        r#"["aggregate",0,"tot",[]]"#,
        "total -9223372036854775808",
    ),
    (Ask, 0, r#"["remove",0,"t",[1]]"#, "removed"),
    (Ask, 0, r#"["remove",0,"t",[2]]"#, "removed"),
    (Ask, 0, r#"["remove",0,"t",[1]]"#, "none"),
    (Ask, 0, r#"["remove",0,"t",[2]]"#, "none"),
    (Ask, 0, r#"["aggregate",0,"tot",[]]"#, "total 0"),
    // A COUNT index is built by three records a step, while another client changes records.
    (Open, 0, "", ""),
    (Ask, 0, CREATE, "ok"),
    (Ask, 0, r#"["save",0,"t",[1,0,0]]"#, "saved new"),
    (Ask, 0, r#"["save",0,"t",[2,0,0]]"#, "saved new"),
    (Ask, 0, r#"["save",0,"t",[3,0,0]]"#, "saved new"),
    (Ask, 0, r#"["save",0,"t",[4,0,0]]"#, "saved new"),
    (Ask, 0, r#"["save",0,"t",[5,0,0]]"#, "saved new"),
    (Ask, 0, r#"["save",0,"t",[6,0,0]]"#, "saved new"),
    (Ask, 0, r#"["save",0,"t",[7,0,0]]"#, "saved new"),
    (
        Ask,
        0,
        r#"["index",0,{"name":"cnt","kind":"count","type":"t","columns":[]}]"#,
        "disabled",
    ),
    (Ask, 0, r#"["write_only",0,"cnt"]"#, "ok"),
    (Commit, 0, "", "committed 1"),
    (Begin, 1, "", ""),
    (Ask, 1, r#"["build",1,"cnt",3]"#, "built 3 ..150300"),
    (Commit, 1, "", "committed 2"),
    (Begin, 0, "", ""),
    (Ask, 0, r#"["remove",0,"t",[2]]"#, "removed"),
    (Ask, 0, r#"["save",0,"t",[8,0,0]]"#, "saved new"),
    (Ask, 0, r#"["readable",0,"cnt"]"#, "refused NotBuilt"),
    (Commit, 0, "", "committed 3"),
    (Begin, 1, "", ""),
    (Ask, 1, r#"["build",1,"cnt",3]"#, "built 3 150300..150600"),
    (Commit, 1, "", "committed 4"),
    (Begin, 1, "", ""),
    (Ask, 1, r#"["build",1,"cnt",3]"#, "built 2 150600..ff"),
    (Commit, 1, "", "committed 5"),
    (Begin, 1, "", ""),
    (Ask, 1, r#"["build",1,"cnt",3]"#, "finished"),
    (Ask, 1, r#"["readable",1,"cnt"]"#, "ok"),
    (Ask, 1, r#"["aggregate",1,"cnt",[]]"#, "total 7"),
];
