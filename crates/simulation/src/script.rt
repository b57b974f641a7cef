// The whole script. Called by `recordctl`.
use crate::admin::{INDEX_NAMES, push_schema};
use crate::dice::Dice;
use crate::steps::{Act, Turn, drawn_act, push_act, push_role};
use std::alloc::{AllocError, Global};
use std::fmt::Write;

/// What a script is made from.
#[derive(Clone, Copy, Debug, PartialEq, Eq, Drop)]
pub struct Simulation {
    /// What is drawn from.
    pub seed: u64,
    /// How many clients there are.
    pub clients: u8,
    /// How many steps.
    pub steps: u32,
}

static WINDOWS: [&str; 5] = ["1", "3", "10", "1000", "1000"];

// Keys of the first store, of the second one and between the two, at which roles may begin.
static SPLITS: [&str; 6] = [
    "[]",
    "[\"150115011501\"]",
    "[\"1501150115011503\",\"150115021501\"]",
    "[\"150115021502\"]",
    "[\"1502\"]",
    "[\"1501150115011502\",\"150215011501\"]",
];

// Writes the configuration of the database.
fn push_config(dice: &mut Dice, script: &mut String) -> Result<(), AllocError> {
    let (resolvers, servers) = (dice.pick(&SPLITS), dice.pick(&SPLITS));
    let (window, logs) = (dice.pick(&WINDOWS), dice.pick(&["1", "1", "2"]));
    write!(
        script,
        "{{\"config\":{{\"resolver_splits\":{resolvers},\"storage_splits\":{servers},"
    )?;
    write!(
        script,
        "\"logs\":{logs},\"window\":{window}}},\n\"steps\":[\n"
    )
}

// How many steps make a store.
const MAKING: u32 = 4;

// Writes one of the steps by which the first client makes the stores, one after another.
fn push_making(dice: &mut Dice, script: &mut String, step: u32) -> Result<(), AllocError> {
    match step % MAKING {
        0 => {
            let store = step / MAKING + 1;
            write!(script, "[\"begin\",0,{store}]")
        }
        1 => {
            script.push_str("[\"create\",0,")?;
            push_schema(dice, script)?;
            script.push_str("]")
        }
        2 => script.push_str("[\"commit\",0]"),
        _ => script.push_str("[\"settle\"]"),
    }
}

// What a client does: it begins where it has no transaction, mostly.
fn act_of(dice: &mut Dice, is_open: bool) -> Act {
    if is_open || dice.is_one_in(12) {
        drawn_act(dice)
    } else {
        Act::Begin
    }
}

// Whether a client has a transaction after what it does.
fn is_open_after(act: Act, is_open: bool) -> bool {
    match act {
        Act::Begin => true,
        Act::Commit | Act::Abandon => false,
        _ => is_open,
    }
}

// How many stores are made, which index is built now, which clients have a transaction, and whether
// a field may have been appended.
#[derive(Drop)]
struct Course {
    stores: u32,
    index: u32,
    open: Vec<bool>,
    is_longer: bool,
}

impl Course {
    // Writes a step of a client, and keeps what is so then.
    fn push_turn(
        &mut self,
        dice: &mut Dice,
        script: &mut String,
        client: usize,
    ) -> Result<(), AllocError> {
        let is_open = self.open.get(client).copied().unwrap_or(false);
        let act = act_of(dice, is_open);
        if dice.is_one_in(20) {
            self.index = dice.below(INDEX_NAMES);
        }
        let turn = Turn {
            client,
            stores: self.stores,
            index: self.index,
            is_longer: self.is_longer,
        };
        push_act(dice, script, act, turn)?;
        self.is_longer |= act == Act::Append;
        if let Some(is_open) = self.open.get_mut(client) {
            *is_open = is_open_after(act, *is_open);
        }
        Ok(())
    }

    // Writes a step of a client or of a role.
    fn push_any(&mut self, dice: &mut Dice, script: &mut String) -> Result<(), AllocError> {
        let drawn = dice.below(u32::MAX) as usize;
        if self.open.is_empty() || dice.is_one_in(5) {
            return push_role(dice, script);
        }
        let client = drawn % self.open.len();
        self.push_turn(dice, script, client)
    }
}

// Writes the step of this number, from 0.
fn push_step(
    dice: &mut Dice,
    script: &mut String,
    step: u32,
    course: &mut Course,
) -> Result<(), AllocError> {
    if step > 0 {
        script.push_str(",\n")?;
    }
    if step / MAKING < course.stores {
        push_making(dice, script, step)
    } else {
        course.push_any(dice, script)
    }
}

/// The text of a random script of clients, roles and builders, a step a line: always the same of
/// the same simulation.
pub fn script_text(alloc: Global, simulation: Simulation) -> Result<String, AllocError> {
    let mut dice = Dice::new(simulation.seed);
    let mut open = Vec::new(alloc);
    for _ in 0..simulation.clients {
        open.push(false)?;
    }
    let mut course = Course {
        stores: 1 + dice.below(2),
        index: dice.below(INDEX_NAMES),
        open,
        is_longer: false,
    };
    let mut script = String::new(alloc);
    push_config(&mut dice, &mut script)?;
    for step in 0..simulation.steps {
        push_step(&mut dice, &mut script, step, &mut course)?;
    }
    script.push_str("\n]}\n")?;
    Ok(script)
}
