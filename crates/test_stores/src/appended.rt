// What appended fields and totals cleared at zero write, byte by byte, and records and schemas of
// the second form that are read. Run as a test.
use crate::scene::Step::{At, New, Pair, Perform, Written};
use crate::scene::{Row, begun, take};
use std::test::Fail;

/// The schema of the type t of whole numbers k, a and b.
const SCHEMA: &str =
    "150114=1501150114050515010274000505026b0015010005026100150100050262001501000005140000000500";

/// The same with a whole number c appended.
const APPENDED: &str =
    "150114=1502150114050515010274000505026b0015010005026100150100050262001501000502630015010000051400150300000500";

static STEPS: [Row; 48] = [
    // A field is appended: the schema is written in its second form, and no record.
    (New, "", "", ""),
    (Pair, SCHEMA, "", ""),
    (Pair, "1501150115011501=1501150500", "", ""),
    (Perform, r#"["field",0,"t",["c","int"]]"#, "", "ok"),
    (
        Perform,
        r#"["load",0,"t",[1]]"#,
        "",
        "found [1,5,null,null]",
    ),
    (Perform, r#"["save",0,"t",[2,6,0,9]]"#, "", "saved new"),
    (Perform, r#"["remove",0,"t",[1]]"#, "", "removed"),
    (
        Written,
        "",
        "",
        "150114=1502150114050515010274000505026b0015010005026100150100050262001501000502630015010000051400150300000500 \
         1501150115011502=15021506141509 1501150115011501-150115011501150100",
    ),
    // Records of before the field was appended, and behind it; one with fewer cells than its type began with, and one
    // with more than its type has.
    (New, "", "", ""),
    (Pair, APPENDED, "", ""),
    (Pair, "1501150115011501=1501150500", "", ""),
    (Pair, "1501150115011502=15021506141509", "", ""),
    (
        Perform,
        r#"["query",0,{"type":"t"}]"#,
        "",
        "rows [[1,5,null,null],[2,6,0,9]]",
    ),
    (
        Perform,
        r#"["save",0,"t",[1,5,null,null]]"#,
        "",
        "saved over [1,5,null,null]",
    ),
    (Written, "", "", "1501150115011501=150115050000"),
    (At, "1501", "", ""),
    (Pair, "1501150115011503=15031507", "", ""),
    (Pair, "1501150115011504=1504150714001501", "", ""),
    (
        Perform,
        r#"["load",0,"t",[3]]"#,
        "",
        "refused Corrupt 1501150115011503",
    ),
    (
        Perform,
        r#"["load",0,"t",[4]]"#,
        "",
        "refused Corrupt 1501150115011504",
    ),
    (Perform, r#"["load",0,"t",[2]]"#, "", "found [2,6,0,9]"),
    // The second form where none is needed, and of a type that began without a field, or with more than it has.
    (New, "", "", ""),
    (
        Pair,
        "150114=1502150114050515010274000505026b00150100050261001501000502620015010000051400150300000500",
        "",
        "",
    ),
    (Perform, r#"["state",0,"no"]"#, "", "refused Corrupt 150114"),
    (New, "", "", ""),
    (
        Pair,
        "150114=1502150114050515010274000505026b00150100050261001501000502620015010005026300150100000514001400000500",
        "",
        "",
    ),
    (Perform, r#"["state",0,"no"]"#, "", "refused Corrupt 150114"),
    (New, "", "", ""),
    (
        Pair,
        "150114=1502150114050515010274000505026b0015010005026100150100050262001501000502630015010000051400150500000500",
        "",
        "",
    ),
    (Perform, r#"["state",0,"no"]"#, "", "refused Corrupt 150114"),
    // A total that comes back to 0 is taken out, where its index is cleared at zero, and else stands.
    (New, "", "", ""),
    (
        Perform,
        r#"["create",0,{
            "types":[{"name":"t","fields":[["k","int"],["a","int"],["b","int"]],"key":["k"]}],
            "indexes":[{"name":"cnt","kind":"count","type":"t","columns":["a"],"clear_when_zero":true}]}]"#,
        "",
        "ok",
    ),
    (Perform, r#"["save",0,"t",[1,7,null]]"#, "", "saved new"),
    (Perform, r#"["remove",0,"t",[1]]"#, "", "removed"),
    (
        Written,
        "",
        "",
        "150114=150215011501050515010274000505026b0015010005026100150100050262001501000005140015030000\
         0505150102636e7400150215010515010000ff270000 \
         1501150115011501=1501150700 \
         1501150215011507+0100000000000000 1501150115011501-150115011501150100 \
         1501150215011507+ffffffffffffffff 1501150215011507?0000000000000000",
    ),
    (New, "", "", ""),
    (
        Pair,
        "150114=150115011501050515010274000505026b001501000502610015010005026200150100000514000000\
         0505150102636e7400150215010515010000ff0000",
        "",
        "",
    ),
    (Perform, r#"["save",0,"t",[1,7,null]]"#, "", "saved new"),
    (Perform, r#"["remove",0,"t",[1]]"#, "", "removed"),
    (
        Written,
        "",
        "",
        "1501150115011501=1501150700 \
         1501150215011507+0100000000000000 1501150115011501-150115011501150100 \
         1501150215011507+ffffffffffffffff",
    ),
    (New, "", "", ""),
    (
        Pair,
        "150114=150215011501050515010274000505026b0015010005026100150100050262001501000005140015030000\
         0505150102636e7400150215010515010000ff270000",
        "",
        "",
    ),
    (Pair, "1501150115011501=1501150700", "", ""),
    (Pair, "1501150215011507=0100000000000000", "", ""),
    (
        Perform,
        r#"["save",0,"t",[1,8,null]]"#,
        "",
        "saved over [1,7,null]",
    ),
    (Perform, r#"["aggregate",0,"cnt",[7]]"#, "", "total 0"),
    (Perform, r#"["aggregate",0,"cnt",[8]]"#, "", "total 1"),
    (
        Written,
        "",
        "",
        "1501150115011501=1501150800 1501150215011507+ffffffffffffffff \
         1501150215011507?0000000000000000 1501150215011508+0100000000000000",
    ),
];

#[test]
fn appended_fields_take_steps(rt: HostRuntime) -> Result<(), Fail> {
    let mut scene = begun(rt.alloc())?;
    for row in &STEPS {
        take(rt.alloc(), &mut scene, row)?;
    }
    Ok(())
}
