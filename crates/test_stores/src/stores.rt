// Calls on stores, over pairs put there by hand, and commands performed there; what is told of
// bytes that no store has. Run as a test.
use crate::scene::Step::{At, Counts, Create, New, Pair, Perform, Records, Save, Set, Written};
use crate::scene::{CREATE, REQUEST, Row, begun, take};
use std::test::Fail;

/// The pair of the schema of a store that is made by `CREATE`.
const SCHEMA: &str =
    "150114=1501150114050515010274000505026b0015010005026100150100050262001501000005140000000500";

static STEPS: [Row; 141] = [
    // What was asked is written, byte by byte.
    (New, "", "", ""),
    (Perform, CREATE, "", "ok"),
    (Perform, r#"["save",0,"t",[1,5,null]]"#, "", "saved new"),
    (Perform, r#"["remove",0,"t",[1]]"#, "", "removed"),
    (Perform, r#"["remove",0,"t",[1]]"#, "", "none"),
    (
        Written,
        "",
        "",
        "150114=1501150114050515010274000505026b0015010005026100150100050262001501000005140000000500 \
         1501150115011501=1501150500 1501150115011501-150115011501150100",
    ),
    // What is there is answered: pairs of the database, under the transaction's own writes.
    (New, "", "", ""),
    (Pair, SCHEMA, "", ""),
    (Pair, "1501150115011502=1502150600", "", ""),
    (Perform, r#"["state",0,"no"]"#, "", "refused UnknownIndex"),
    (Perform, r#"["save",0,"t",[300,9,null]]"#, "", "saved new"),
    (
        Perform,
        r#"["save",0,"t",[2,9,null]]"#,
        "",
        "saved over [2,6,null]",
    ),
    (Perform, r#"["save",0,"t",[-1,9,null]]"#, "", "saved new"),
    (
        Perform,
        r#"["save",0,"t",[2,9,null]]"#,
        "",
        "saved over [2,9,null]",
    ),
    (Perform, r#"["save",0,"t",[1,9,null]]"#, "", "saved new"),
    (Perform, r#"["load",0,"t",[-1]]"#, "", "found [-1,9,null]"),
    (Perform, r#"["load",0,"t",[0]]"#, "", "none"),
    (Perform, r#"["remove",0,"t",[1]]"#, "", "removed"),
    (Perform, r#"["load",0,"t",[1]]"#, "", "none"),
    (
        Perform,
        r#"["query",0,{"type":"t"}]"#,
        "",
        "rows [[-1,9,null],[2,9,null],[300,9,null]]",
    ),
    // Calls are refused before they read: the transaction has read what opening the store reads, its schema and the
    // states.
    (New, "", "", ""),
    (Pair, SCHEMA, "", ""),
    (
        Perform,
        r#"["load",0,"u",[null,null]]"#,
        "",
        "refused UnknownType",
    ),
    (
        Perform,
        r#"["remove",0,"u",[null,null]]"#,
        "",
        "refused UnknownType",
    ),
    (
        Perform,
        r#"["load",0,"t",[null,null]]"#,
        "",
        "refused WrongKind",
    ),
    (
        Perform,
        r#"["remove",0,"t",[null,null]]"#,
        "",
        "refused WrongKind",
    ),
    (Perform, r#"["load",0,"t",[]]"#, "", "refused WrongKind"),
    (Perform, r#"["remove",0,"t",[]]"#, "", "refused WrongKind"),
    (Perform, r#"["load",0,"t",[null]]"#, "", "refused NullKey"),
    (Perform, r#"["remove",0,"t",[null]]"#, "", "refused NullKey"),
    (
        Save,
        r#"{"types":[{"name":"t","fields":[["k","int"],["a","int"],["c","int"]],"key":["k"]}]}"#,
        "[1,2,null]",
        "OtherSchema",
    ),
    (
        Save,
        r#"{"types":[{"name":"t","fields":[["k","int"],["a","int"],["b","text"]],"key":["k"]}]}"#,
        "[1,2,null]",
        "OtherSchema",
    ),
    (Counts, "", "", "(0, 2)"),
    // A store is opened where a schema stands whole, and made where nothing stands at the schema's key.
    (New, "", "", ""),
    (Perform, r#"["state",0,"no"]"#, "", "refused NoStore"),
    (Perform, CREATE, "", "ok"),
    // A record alone.
    (New, "", "", ""),
    (Pair, "1501150115011501=1501150500", "", ""),
    (Perform, r#"["state",0,"no"]"#, "", "refused NoStore"),
    (Perform, CREATE, "", "ok"),
    // A schema without its last byte, and then a state of an index beside it.
    (New, "", "", ""),
    (
        Pair,
        "150114=1501150114050515010274000505026b00150100050261001501000502620015010000051400000005",
        "",
        "",
    ),
    (Perform, r#"["state",0,"no"]"#, "", "refused Corrupt 150114"),
    (Perform, CREATE, "", "refused AlreadyThere"),
    (At, "1501", "", ""),
    (Pair, "1501150515011400=", "", ""),
    (Perform, r#"["state",0,"no"]"#, "", "refused Corrupt 150114"),
    (Perform, CREATE, "", "refused AlreadyThere"),
    // A schema with a COUNT index, and one whose COUNT index sums a field.
    (New, "", "", ""),
    (
        Pair,
        "150114=150115011501\
         050515010274000505026b00150100050261001501000502620015010000051400000005051501027600150215010515010000ff0000",
        "",
        "",
    ),
    (Perform, r#"["state",0,"no"]"#, "", "refused UnknownIndex"),
    (Perform, r#"["state",0,"v"]"#, "", "readable"),
    (New, "", "", ""),
    (
        Pair,
        "150114=150115011501\
         050515010274000505026b0015010005026100150100050262001501000005140000000505150102760015021501051501\
         0015020000",
        "",
        "",
    ),
    (Perform, r#"["state",0,"no"]"#, "", "refused Corrupt 150114"),
    (Perform, CREATE, "", "refused AlreadyThere"),
    // Built ranges of a write-only COUNT index: one that ends before it begins, and one that begins in another.
    (New, "", "", ""),
    (
        Pair,
        "150114=150115011501\
         050515010274000505026b00150100050261001501000502620015010000051400000005051501027600150215010515010000ff0000",
        "",
        "",
    ),
    (Pair, "150115051501=1501", "", ""),
    (Pair, "15011506150101150500=1503", "", ""),
    (Perform, r#"["state",0,"v"]"#, "", "write-only"),
    (
        Perform,
        r#"["build",0,"v",1]"#,
        "",
        "refused Corrupt 15011506150101150500",
    ),
    (
        Perform,
        r#"["readable",0,"v"]"#,
        "",
        "refused Corrupt 15011506150101150500",
    ),
    (
        Perform,
        r#"["save",0,"t",[6,1,null]]"#,
        "",
        "refused Corrupt 15011506150101150500",
    ),
    (Perform, r#"["save",0,"t",[1,1,null]]"#, "", "saved new"),
    (Written, "", "", "1501150115011501=1501150100"),
    (New, "", "", ""),
    (
        Pair,
        "150114=150115011501\
         050515010274000505026b00150100050261001501000502620015010000051400000005051501027600150215010515010000ff0000",
        "",
        "",
    ),
    (Pair, "150115051501=1501", "", ""),
    (Pair, "1501150615010100=1503", "", ""),
    (Pair, "15011506150101150200=1505", "", ""),
    (
        Perform,
        r#"["build",0,"v",1]"#,
        "",
        "refused Corrupt 15011506150101150200",
    ),
    (
        Perform,
        r#"["readable",0,"v"]"#,
        "",
        "refused Corrupt 15011506150101150200",
    ),
    // A whole schema, and then a state of no index beside it.
    (New, "", "", ""),
    (Pair, SCHEMA, "", ""),
    (Perform, r#"["state",0,"no"]"#, "", "refused UnknownIndex"),
    (Perform, CREATE, "", "refused AlreadyThere"),
    (At, "1501", "", ""),
    (Pair, "1501150515011400=", "", ""),
    (
        Perform,
        r#"["state",0,"no"]"#,
        "",
        "refused Corrupt 1501150515011400",
    ),
    (Perform, CREATE, "", "refused AlreadyThere"),
    // Of a record that isn't of the written form the key is told: not a pack, another record's cells, too few cells,
    // none.
    (New, "", "", ""),
    (Pair, SCHEMA, "", ""),
    (Pair, "15011501150114=141400", "", ""),
    (Pair, "1501150115011502=1500", "", ""),
    (Pair, "1501150115011501=1500", "", ""),
    (
        Perform,
        r#"["load",0,"t",[1]]"#,
        "",
        "refused Corrupt 1501150115011501",
    ),
    (
        Perform,
        r#"["remove",0,"t",[1]]"#,
        "",
        "refused Corrupt 1501150115011501",
    ),
    (
        Perform,
        r#"["query",0,{"type":"t"}]"#,
        "",
        "refused Corrupt 1501150115011501",
    ),
    (At, "1501", "", ""),
    (Pair, "1501150115011501=1502150500", "", ""),
    (
        Perform,
        r#"["load",0,"t",[1]]"#,
        "",
        "refused Corrupt 1501150115011501",
    ),
    (
        Perform,
        r#"["remove",0,"t",[1]]"#,
        "",
        "refused Corrupt 1501150115011501",
    ),
    (
        Perform,
        r#"["query",0,{"type":"t"}]"#,
        "",
        "refused Corrupt 1501150115011501",
    ),
    (At, "1501", "", ""),
    (Pair, "1501150115011501=15011505", "", ""),
    (
        Perform,
        r#"["load",0,"t",[1]]"#,
        "",
        "refused Corrupt 1501150115011501",
    ),
    (
        Perform,
        r#"["remove",0,"t",[1]]"#,
        "",
        "refused Corrupt 1501150115011501",
    ),
    (
        Perform,
        r#"["query",0,{"type":"t"}]"#,
        "",
        "refused Corrupt 1501150115011501",
    ),
    (At, "1501", "", ""),
    (Pair, "1501150115011501=", "", ""),
    (
        Perform,
        r#"["load",0,"t",[1]]"#,
        "",
        "refused Corrupt 1501150115011501",
    ),
    (
        Perform,
        r#"["remove",0,"t",[1]]"#,
        "",
        "refused Corrupt 1501150115011501",
    ),
    (
        Perform,
        r#"["query",0,{"type":"t"}]"#,
        "",
        "refused Corrupt 1501150115011501",
    ),
    // What was read and written is counted: a store is made and a record is saved.
    (New, "", "", ""),
    (Perform, CREATE, "", "ok"),
    (Perform, r#"["save",0,"t",[1,2,3]]"#, "", "saved new"),
    (Counts, "", "", "(2, 3)"),
    // Damage by the transaction's own writes is told by its key: of the schema, of a state, and of a record.
    (New, "", "", ""),
    (Perform, CREATE, "", "ok"),
    (Set, "150114=ff", "", ""),
    (
        Perform,
        r#"["load",0,"t",[0]]"#,
        "",
        "refused Corrupt 150114",
    ),
    (
        Perform,
        r#"["query",0,{"type":"t"}]"#,
        "",
        "refused Corrupt 150114",
    ),
    (Perform, CREATE, "", "refused AlreadyThere"),
    (New, "", "", ""),
    (Perform, CREATE, "", "ok"),
    (Set, "150115051501=ff", "", ""),
    (
        Perform,
        r#"["load",0,"t",[0]]"#,
        "",
        "refused Corrupt 150115051501",
    ),
    (
        Perform,
        r#"["query",0,{"type":"t"}]"#,
        "",
        "refused Corrupt 150115051501",
    ),
    (Perform, CREATE, "", "refused AlreadyThere"),
    (New, "", "", ""),
    (Perform, CREATE, "", "ok"),
    (Set, "15011501150114=ff", "", ""),
    (
        Perform,
        r#"["load",0,"t",[0]]"#,
        "",
        "refused Corrupt 15011501150114",
    ),
    (
        Perform,
        r#"["query",0,{"type":"t"}]"#,
        "",
        "refused Corrupt 15011501150114",
    ),
    (Perform, CREATE, "", "refused AlreadyThere"),
    // Stores stand beside each other, and within one whose prefix is empty.
    (New, "", "", ""),
    (
        Pair,
        "150214=1501150114050515010274000505026b0015010005026100150100050262001501000005140000000500",
        "",
        "",
    ),
    (Pair, "1502150115011501=1501150500", "", ""),
    (At, "", "", ""),
    (Create, "", "", "done"),
    (Save, REQUEST, "[3,null,null]", "none"),
    (
        Written,
        "",
        "",
        "14=1501150114050515010274000505026b0015010005026100150100050262001501000005140000000500 150115011503=15030000",
    ),
    (
        Pair,
        "14=1501150114050515010274000505026b0015010005026100150100050262001501000005140000000500",
        "",
        "",
    ),
    (Pair, "1501150114=141400", "", ""),
    (Records, "", "", "[[0,0,null]]"),
    (At, "1502", "", ""),
    (Records, "", "", "[[1,5,null]]"),
    (At, "1503", "", ""),
    (Create, "", "", "done"),
    (Records, "", "", "[]"),
];

#[test]
fn stores_take_steps(rt: HostRuntime) -> Result<(), Fail> {
    let mut scene = begun(rt.alloc())?;
    for row in &STEPS {
        take(rt.alloc(), &mut scene, row)?;
    }
    Ok(())
}
