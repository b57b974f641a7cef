// Schedules run: what stands in the cluster afterwards, and what is committed. Run as tests.
use cluster_core::Cluster;
use schedule::{Transcript, run_schedule};
use script::script_of;
use std::alloc::Global;
use std::fmt::Write;
use std::test::Fail;
use test_parts::{are_pairs, range_of, same};

/// A store with an index over the column a is made; the record 1 is saved twice and 2 once, whose a is null.
const THREE_SAVES: &str = r#"{"steps":[
    ["begin",0],
    ["create",0,{"types":[{"name":"t","fields":[["k","int"],["a","int"],["b","int"]],"key":["k"]}],
        "indexes":[{"name":"by_a","kind":"value","type":"t","columns":["a"]}]}],
    ["save",0,"t",[1,5,0]],
    ["save",0,"t",[1,6,0]],
    ["save",0,"t",[2,null,0]],
    ["commit",0],
    ["settle"]
]}"#;

/// After those saves an index is added over the records and the first one is disabled; then that one is dropped and
/// added again.
const DISABLED: &str = r#"{"steps":[
    ["begin",0],
    ["create",0,{"types":[{"name":"t","fields":[["k","int"],["a","int"],["b","int"]],"key":["k"]}],
        "indexes":[{"name":"by_a","kind":"value","type":"t","columns":["a"]}]}],
    ["save",0,"t",[1,5,0]],
    ["save",0,"t",[1,6,0]],
    ["save",0,"t",[2,null,0]],
    ["commit",0],
    ["settle"],
    ["begin",0],
    ["index",0,{"name":"by_b","kind":"value","type":"t","columns":["b"]}],
    ["disable",0,"by_a"],
    ["save",0,"t",[3,7,0]],
    ["commit",0],
    ["settle"],
    ["begin",0],
    ["drop",0,"by_a"],
    ["index",0,{"name":"by_a","kind":"value","type":"t","columns":["a"]}],
    ["commit",0],
    ["settle"]
]}"#;

/// A COUNT index over seven records is built in steps of three. Between two of them a record at a
/// built position is removed, and one is saved behind all others.
const BUILT: &str = r#"{"steps":[
    ["begin",0],
    ["create",0,{"types":[{"name":"t","fields":[["k","int"]],"key":["k"]}]}],
    ["save",0,"t",[1]],["save",0,"t",[2]],["save",0,"t",[3]],["save",0,"t",[4]],["save",0,"t",[5]],
    ["save",0,"t",[6]],["save",0,"t",[7]],
    ["index",0,{"name":"cnt","kind":"count","type":"t","columns":[]}],["write_only",0,"cnt"],
    ["commit",0],["settle"],
    ["begin",1],["build",1,"cnt",3],["commit",1],["settle"],
    ["begin",0],["remove",0,"t",[2]],["save",0,"t",[8]],["commit",0],["settle"],
    ["begin",1],["build",1,"cnt",3],["commit",1],["settle"],
    ["begin",1],["build",1,"cnt",3],["commit",1],["settle"]
]}"#;

/// The keys of its built ranges.
const RANGES: &str = "15011506150100-150115061501ff";

/// Two clients change what both have read, and the second one commits first.
const TWO_CLIENTS: &str = r#"{"steps":[
    ["begin",0],
    ["create",0,{"types":[{"name":"t","fields":[["k","int"],["a","int"],["b","int"]],"key":["k"]}]}],
    ["commit",0],
    ["settle"],
    ["begin",1],
    ["load",1,"t",[7]],
    ["save",1,"t",[7,0,0]],
    ["begin",2],
    ["load",2,"t",[7]],
    ["save",2,"t",[7,0,0]],
    ["commit",2],
    ["commit",1],
    ["settle"]
]}"#;

/// Two stores of one type each, of the same name, whose keys follow one another.
const TWO_STORES: &str = r#"{"steps":[
    ["begin",0,256],
    ["create",0,{"types":[{"name":"t","fields":[["k","int"]],"key":["k"]}]}],
    ["save",0,"t",[1]],
    ["begin",1,255],
    ["create",1,{"types":[{"name":"t","fields":[["k","int"]],"key":["k"]}]}],
    ["save",1,"t",[2]],
    ["commit",0],
    ["commit",1],
    ["settle"]
]}"#;

/// A script, and what is listed of it: how many requests there are, and of each committed transaction its version, its
/// client, its store, the version that it read and the number of its commands.
static LISTED: [(&str, &str); 4] = [
    (THREE_SAVES, "1 requests: 1 by 0 in 1 from 0 with 4,"),
    (
        DISABLED,
        "3 requests: 1 by 0 in 1 from 0 with 4, 2 by 0 in 1 from 1 with 3, 3 by 0 in 1 from 2 with 2,",
    ),
    (
        TWO_CLIENTS,
        "3 requests: 1 by 0 in 1 from 0 with 1, 2 by 2 in 1 from 1 with 2,",
    ),
    (
        TWO_STORES,
        "2 requests: 1 by 0 in 256 from 0 with 2, 2 by 1 in 255 from 0 with 2,",
    ),
];

type Row = (&'static str, &'static str, u64, usize, bool, &'static str);

/// A script, a range of the cluster that it leaves, a version, a limit, reverse or not, and the pairs there. Disabled
/// and dropped indexes have none. What steps of a builder have built is one range.
static ENTRIES: [Row; 17] = [
    (
        THREE_SAVES,
        "150115021501-150115021501ff",
        1,
        10,
        false,
        "1501150215010015011502= 150115021501150615011501=",
    ),
    (
        THREE_SAVES,
        "150115021501-150115021501ff",
        1,
        1,
        true,
        "150115021501150615011501=",
    ),
    (THREE_SAVES, "150115021501-150115021501ff", 0, 10, false, ""),
    (DISABLED, "150115021501-150115021501ff", 2, 10, false, ""),
    (DISABLED, "150115021501-150115021501ff", 3, 10, false, ""),
    (DISABLED, "150115021502-150115021502ff", 2, 10, false, ""),
    (DISABLED, "150115021502-150115021502ff", 3, 10, false, ""),
    (DISABLED, "150115021503-150115021503ff", 2, 10, false, ""),
    (DISABLED, "150115021503-150115021503ff", 3, 10, false, ""),
    (BUILT, RANGES, 2, 10, false, "1501150615010100=150300"),
    (BUILT, RANGES, 4, 10, false, "1501150615010100=150600"),
    (BUILT, RANGES, 5, 10, false, "1501150615010100=ff"),
    (
        TWO_STORES,
        "160100-160101",
        1,
        1,
        true,
        "160100150115011501=1501",
    ),
    (TWO_STORES, "15ff-15ffff", 1, 1, true, ""),
    (
        TWO_STORES,
        "15ff-15ffff",
        2,
        1,
        true,
        "15ff150115011502=1502",
    ),
    (
        TWO_STORES,
        "15ff15-16010014",
        2,
        10,
        false,
        "15ff150115011502=1502",
    ),
    (
        TWO_STORES,
        "16010015-17",
        2,
        10,
        false,
        "160100150115011501=1501",
    ),
];

fn run(alloc: Global, text: &str) -> Result<Transcript, Fail> {
    let script = script_of(alloc, text.as_bytes())?;
    Ok(run_schedule(alloc, &script.config, script.steps.as_slice())?)
}

fn listed(alloc: Global, transcript: &Transcript) -> Result<String, Fail> {
    let requests = transcript.cluster.requests().len();
    let mut told = format!(in alloc; "{requests} requests:")?;
    for commit in transcript.commits.as_slice() {
        let (version, client, from) = (commit.version, commit.client, commit.read_version);
        let (store, count) = (commit.store.get(), commit.commands.as_slice().len());
        write!(
            told,
            " {version} by {client} in {store} from {from} with {count},"
        )?;
    }
    Ok(told)
}

fn listed_of(alloc: Global, script: &str) -> Result<String, Fail> {
    let transcript = run(alloc, script)?;
    listed(alloc, &transcript)
}

#[test]
fn what_is_committed_is_listed(rt: HostRuntime) -> Result<(), Fail> {
    for (script, told) in &LISTED {
        same(listed_of(rt.alloc(), script)?.as_str(), told)?;
    }
    Ok(())
}

fn has_entries(alloc: Global, cluster: &Cluster, row: &Row) -> Result<(), Fail> {
    let (_, range, version, limit, reverse, told) = row;
    let range = range_of(alloc, range)?;
    let pairs = cluster.read(&range, *version, *limit, *reverse)?;
    are_pairs(alloc, &pairs, told)
}

fn leaves_entries(alloc: Global, row: &Row) -> Result<(), Fail> {
    let transcript = run(alloc, row.0)?;
    has_entries(alloc, &transcript.cluster, row)
}

#[test]
fn entries_stand_in_the_cluster(rt: HostRuntime) -> Result<(), Fail> {
    for row in &ENTRIES {
        leaves_entries(rt.alloc(), row)?;
    }
    Ok(())
}
