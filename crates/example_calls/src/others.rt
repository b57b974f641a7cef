// Scripts, schedules and hosts: `script`, `schedule` and `drive`. Called by `main`.
use drive::{Driven, Given, drive};
use kv_core::{Coverage, KvMap};
use schedule::{Command, Transcript, run_schedule};
use script::{push_reply, script_of};
use std::alloc::Global;
use tuple_codec::Text;

const STEPS: &str = r#"{"steps":[["begin",0],
    ["create",0,{"types":[{"name":"t","fields":[["k","int"]],"key":["k"]}]}],
    ["save",0,"t",[1]],["commit",0],["settle"]]}"#;

/// Runs a script.
fn ran(alloc: Global) -> Option<Transcript> {
    let script = script_of(alloc, STEPS.as_bytes()).ok()?;
    run_schedule(alloc, &script.config, script.steps.as_slice()).ok()
}

/// The reply to its last step.
pub(crate) fn script_line(alloc: Global) -> Option<String> {
    let ran = ran(alloc)?;
    let mut line = String::from_str(alloc, "script, schedule: ").ok()?;
    push_reply(alloc, &mut line, ran.replies.as_slice().last()?).ok()?;
    Some(line)
}

/// A command that is given to a host, who has read nothing yet.
fn given(alloc: Global) -> Option<Given> {
    let state = Command::State(Text::from_str(alloc, "by_copies").ok()?);
    Some(Given {
        version: 0,
        covered: Coverage::new(alloc),
        pairs: KvMap::new(alloc),
        written: Vec::new(alloc),
        commands: vec![in alloc; state].ok()?,
    })
}

/// How many ranges are to be read before a state can be told, where nothing is read yet.
pub(crate) fn wanted(alloc: Global) -> Option<String> {
    match drive(alloc, &given(alloc)?).ok()? {
        Driven::Wants(ranges) => format!(in alloc; "drive: wants {} ranges", ranges.len()).ok(),
        Driven::Done(_) => None,
    }
}
