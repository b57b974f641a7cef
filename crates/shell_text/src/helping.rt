// What `help` tells. Called by `shell`.
use shell_line::{Topic, all_topics};
use std::alloc::{AllocError, Global};
use std::fmt::Write;

// What stands before and after the list of what can be typed.
const BEFORE: &str =
    "A line is a step, which is done and answered at once. A store is made and filled by begin, create,\n\
     type, save and commit. help save tells more of save.\n";

const AFTER: &str =
    "2: before a line is the client 2, of 16; without it a line is the client 0's. A step in the form\n\
     of a script, as [\"begin\",0], is taken too.\n";

// What stands before some of the words.
static HEADS: [(&str, &str); 7] = [
    ("begin", "Transactions"),
    ("create", "A store and its types"),
    ("index", "Indexes"),
    ("save", "Records"),
    ("settle", "The database's own work"),
    (".schema", "What is committed, and files"),
    ("help", "The shell"),
];

// Writes the head before a word, where it has one.
fn push_head(out: &mut String, word: &str) -> Result<(), AllocError> {
    match HEADS.iter().find(|(first, _)| *first == word) {
        Some((_, head)) => writeln!(out, "{head}:"),
        None => Ok(()),
    }
}

/// What can be typed.
pub fn help_of_all(alloc: Global) -> Result<String, AllocError> {
    let mut out = String::from_str(alloc, BEFORE)?;
    for topic in all_topics() {
        push_head(&mut out, topic.word)?;
        let form = topic.form;
        writeln!(out, "  {form}")?;
    }
    out.push_str(AFTER)?;
    Ok(out)
}

/// What is told of a word.
pub fn help_of(alloc: Global, topic: &Topic) -> Result<String, AllocError> {
    let (form, says) = (topic.form, topic.says);
    format!(in alloc; "{form}\n  {says}\n")
}
