// A program that looks at none of its answers, and saves into a type that isn't there. Run as a
// test.
use crate::in_turn::parted;
use crate::transactions::{alone, are_told, two_clients};
use metadata::{Cell, Cells};
use runtime::{Body, Client, CommandError, End, RunError, Txn};
use schedule::Refusal;
use std::alloc::Global;
use std::sync::Wait;
use std::test::Fail;
use tuple_codec::Text;
use txn::Retry;

/// Makes a store with the type `book`.
const MADE: &str = r#"{"steps":[
    ["create",0,{"types":[{"name":"book","fields":[["k","int"]],"key":["k"]}]}]
]}"#;

/// Asks for two of the records.
const LOADED: &str = r#"{"steps":[["load",0,"book",[0]],["load",0,"book",[19]]]}"#;

/// How many records are saved.
const RECORDS: i64 = 20;

/// Saves the records, each by a call whose answer it passes on and doesn't look at.
#[derive(Drop)]
struct SaveAll<'a> {
    alloc: Global,
    type_name: &'a str,
}

impl<E: End> Body<E> for SaveAll<'_> {
    type Answer = ();

    ghost did = { λ body old result new after. Unit {0} };

    fn attempt(&mut self, tx: &mut Txn<'_, E>) -> Result<(), CommandError> {
        for number in 0..RECORDS {
            let cells = Cells::new(vec![in self.alloc; Cell::Int(number)]?);
            tx.save(Text::from_str(self.alloc, self.type_name)?, cells)?;
        }
        Ok(())
    }
}

/// Whether the run ended since a command was refused for its type.
fn is_of_no_type(error: &RunError) -> bool {
    matches!(
        error,
        RunError::Refused(CommandError::Refused(Refusal::UnknownType))
    )
}

/// How a client's run of that program ends, which saves into this type.
fn ended<E: End, R: Wait>(
    rt: &R,
    alloc: Global,
    client: &mut Client<E>,
    type_name: &str,
) -> Result<(), RunError> {
    let mut body = SaveAll { alloc, type_name };
    client.run(rt, Retry { limit: 10 }, false, &mut body)?;
    Ok(())
}

fn is_refused<E: End, R: Wait>(rt: &R, alloc: Global, client: &mut Client<E>) -> bool {
    ended(rt, alloc, client, "books").is_err_and(|error| is_of_no_type(&error))
}

/// What is told where the store is made, and what another client finds after a run that is refused,
/// and after one that isn't.
fn told<E: End, R: Wait>(
    rt: &R,
    alloc: Global,
    one: &mut Client<E>,
    other: &mut Client<E>,
) -> Option<String> {
    let made = alone(rt, alloc, one, MADE).lines;
    if !is_refused(rt, alloc, one) {
        return None;
    }
    let told = parted(alloc, made, alone(rt, alloc, other, LOADED).lines);
    if ended(rt, alloc, one, "book").is_err() {
        return None;
    }
    parted(alloc, told, alone(rt, alloc, other, LOADED).lines)
}

/// The same of two clients of a new store.
fn told_of_two<R: Wait>(rt: &R, alloc: Global) -> Option<String> {
    let (mut one, mut other) = two_clients(rt, alloc)?;
    told(rt, alloc, &mut one, &mut other)
}

#[test]
fn a_program_ends_with_the_first_refusal(rt: HostRuntime) -> Result<(), Fail> {
    are_told(
        told_of_two(&rt, rt.alloc()),
        "0 ok\ncommitted 1; 0 none\n1 none\nread only; 0 found [0]\n1 found [19]\nread only",
    )
}
