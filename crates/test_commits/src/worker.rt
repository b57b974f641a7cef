// A worker that builds an index while memory may run out for one of its commits. Called by `main`.
use crate::clients::{committed, found};
use runtime::{
    Built, Client, CommandError, End, Gate, GatePoint, RunError, SubmissionStatus, build_worker,
};
use std::alloc::Global;
use std::sync::Wait;
use std::test::Fail;
use tuple_codec::Text;

/// Makes the store with three records, and an index that counts them, of which nothing is built.
const UNBUILT: &str = r#"{"steps":[
    ["create",0,{"types":[{"name":"t","fields":[["k","int"],["a","int"],["b","int"]],"key":["k"]}]}],
    ["save",0,"t",[1,0,0]],
    ["save",0,"t",[2,0,0]],
    ["save",0,"t",[3,0,0]],
    ["index",0,{"name":"cnt","kind":"count","type":"t","columns":[]}],
    ["write_only",0,"cnt"]
]}"#;

const TOTAL: &str = r#"{"steps":[["aggregate",0,"cnt",[]]]}"#;

/// What the aggregate finds: each record is counted once.
const COUNTED: &str = "1 total 3\n";

/// What a worker tells that built all of it: one step is enough, and the mark is none.
const ALL: Built = Built {
    records: 3,
    steps: 1,
};

/// The numbers of the worker's submissions: a step, the mark, and one more where a reply was lost.
const STEP: u64 = 2;

const MARK: u64 = 3;

const THIRD: u64 = 4;

/// What memory ran out for.
#[derive(Clone, Copy, PartialEq)]
pub(crate) enum Wanting {
    /// Nothing.
    Nothing,
    /// A command, or a commit before it was submitted: the work has no answer.
    Work,
    /// The reply to the step.
    Step,
    /// The reply to the mark.
    Mark,
}

/// Lets a worker pass.
#[derive(Drop)]
struct Open;

impl Gate for Open {
    ghost passed = { λ old place new. Unit {0} };

    fn pass(&mut self, _place: GatePoint) {}
}

/// Has the index built.
fn work<E: End, R: Wait>(rt: &R, alloc: Global, client: &mut Client<E>) -> Result<Built, RunError> {
    build_worker(rt, client, Text::from_str(alloc, "cnt")?, 5, 10, Open)
}

/// Has the index built, and once more where memory ran out for the work itself: whether it did.
fn worked<E: End, R: Wait>(rt: &R, alloc: Global, client: &mut Client<E>) -> Result<bool, Fail> {
    match work(rt, alloc, client) {
        Ok(built) if built == ALL => Ok(false),
        Ok(_) => Err(Fail::from("another number of records or steps is told")),
        Err(RunError::GaveUp | RunError::Refused(CommandError::Memory)) => {
            work(rt, alloc, client)?;
            Ok(true)
        }
        Err(error) => Err(error.into()),
    }
}

/// Whether the submission of this number is committed, which must be told.
fn is_committed<E: End>(client: &mut Client<E>, number: u64) -> Result<bool, Fail> {
    match client.outcome(number)? {
        SubmissionStatus::Committed { .. } => Ok(true),
        SubmissionStatus::Refused => Ok(false),
        _ => Err(Fail::from("an outcome isn't told")),
    }
}

/// The reply to which of the worker's submissions was lost, by what became of them. A worker that
/// isn't told of one does the same once more, which conflicts with it: so two are committed, the
/// step and the mark, and there is a third one, a refused one, just where a reply was lost.
fn lost<E: End>(client: &mut Client<E>) -> Result<Wanting, Fail> {
    let step = is_committed(client, STEP)?;
    let next = is_committed(client, MARK)?;
    let last = client.submissions();
    if last == MARK && step && next {
        return Ok(Wanting::Nothing);
    }
    match (last, step, next, is_committed(client, THIRD)?) {
        (THIRD, true, true, false) => Ok(Wanting::Mark),
        (THIRD, true, false, true) => Ok(Wanting::Step),
        _ => Err(Fail::from("other submissions are committed")),
    }
}

/// Has a worker build the index of a new store, and looks that each record is counted there: what
/// memory ran out for.
pub(crate) fn built<E: End, R: Wait>(
    rt: &R,
    alloc: Global,
    client: &mut Client<E>,
) -> Result<Wanting, Fail> {
    committed(rt, alloc, client, UNBUILT)?;
    let is_wanting = worked(rt, alloc, client)?;
    found(alloc, client, TOTAL, COUNTED)?;
    match (lost(client)?, is_wanting) {
        (lost, false) => Ok(lost),
        (Wanting::Nothing, true) => Ok(Wanting::Work),
        _ => Err(Fail::from("memory ran out twice")),
    }
}
