// Steps of a builder over built ranges that stand there by hand. Run as a test.
use crate::scene::Step::{New, Pair, Perform, Written};
use crate::scene::{Row, Scene, begun, take};
use std::alloc::Global;
use std::test::Fail;

/// The schema of the type t with a COUNT index v, which is write-only.
static SCENE: [Row; 3] = [
    (New, "", "", ""),
    (
        Pair,
        "150114=150115011501050515010274000505026b001501000502610015010005026200150100000514000\
         00005051501027600150215010515010000ff0000",
        "",
        "",
    ),
    (Pair, "150115051501=1501", "", ""),
];

type Joined = (
    &'static [&'static str],
    &'static str,
    &'static str,
    &'static str,
);

/// The built ranges that are there, what a step replies, what it has written, and the reply of the
/// mark as readable then. The step joins what it builds with the range before it and the one behind
/// it; with the one before it alone, which touches another one; with the one behind it alone; with
/// none.
static JOINED: [Joined; 4] = [
    (
        &["1501150615010100=1503", "15011506150101150500=1507"],
        "built 0 1503..1505",
        "1501150615010100=1507 15011506150101150500-1501150615010115050000",
        "refused NotBuilt",
    ),
    (
        &["1501150615010100=1503", "15011506150101150300=1505"],
        "built 0 1505..ff",
        "15011506150101150300=ff",
        "ok",
    ),
    (
        &["15011506150101150300=ff"],
        "built 0 ..1503",
        "1501150615010100=ff 15011506150101150300-1501150615010115030000",
        "ok",
    ),
    (&[], "built 0 ..ff", "1501150615010100=ff", "ok"),
];

/// Begins with the ranges that are there, and takes one step of the builder.
fn built(alloc: Global, scene: &mut Scene, row: &Joined) -> Result<(), Fail> {
    let (ranges, told, _, _) = row;
    for one in &SCENE {
        take(alloc, scene, one)?;
    }
    for range in *ranges {
        take(alloc, scene, &(Pair, *range, "", ""))?;
    }
    take(alloc, scene, &(Perform, r#"["build",0,"v",5]"#, "", *told))
}

#[test]
fn steps_join_ranges(rt: HostRuntime) -> Result<(), Fail> {
    let mut scene = begun(rt.alloc())?;
    for row in &JOINED {
        built(rt.alloc(), &mut scene, row)?;
        take(rt.alloc(), &mut scene, &(Written, "", "", row.2))?;
        built(rt.alloc(), &mut scene, row)?;
        take(
            rt.alloc(),
            &mut scene,
            &(Perform, r#"["readable",0,"v"]"#, "", row.3),
        )?;
    }
    Ok(())
}
