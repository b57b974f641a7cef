// What the words of the command line ask for, by `clap`. Called by `recordctl`.
use crate::commands::command_line;
use clap::error::ErrorKind;
use clap::{ArgMatches, Error};
use std::alloc::{AllocError, Global};

/// What is printed of a run: a line for each reply, or else a drawing.
#[derive(Clone, Copy, Debug, PartialEq, Eq, Drop)]
pub struct RunWords {
    /// Whether each step is printed before its reply.
    pub is_echo: bool,
    /// Whether names are printed in the place of keys.
    pub is_named: bool,
    /// Whether the steps are drawn, and nothing else is printed.
    pub is_drawn: bool,
}

/// How a plan is printed.
#[derive(Clone, Copy, Debug, PartialEq, Eq, Drop)]
pub enum PlanForm {
    /// As its text, on one line.
    Line,
    /// As a tree, a step a line.
    Tree,
    /// As a drawing of this tree.
    Drawing,
}

/// Which random script is asked for, and whether it is to be run or drawn.
#[derive(Clone, Copy, Debug, PartialEq, Eq, Drop)]
pub struct SimulationWords {
    /// What it is made from.
    pub seed: u64,
    /// How many clients there are, from 1 to 16.
    pub clients: u8,
    /// How many steps there are, at most 20,000.
    pub steps: u32,
    /// Whether it is run, or else printed alone.
    pub is_run: bool,
    /// Whether its run is drawn.
    pub is_drawn: bool,
}

/// How a shell tells what its steps reply.
#[derive(Clone, Copy, Debug, PartialEq, Eq, Drop)]
pub struct ShellWords {
    /// Whether each step is printed before its reply.
    pub is_echo: bool,
    /// Whether rows are printed as JSON, a row a line.
    pub is_json: bool,
}

/// What a command line asks for.
#[derive(Debug, Drop)]
pub enum Request {
    /// To run the script in this file, or without one that on standard input, and what is printed:
    /// over the database in this folder, or without one over one in memory.
    Run(RunWords, Option<String>, Option<String>),
    /// To tell what is wrong with the texts in these files, or without any with that on standard
    /// input.
    Check(Vec<String>),
    /// To print the plan that the text in this file asks for, or without one that on standard
    /// input: in this form, or without one in that for whoever reads it.
    Explain(Option<PlanForm>, Option<String>),
    /// To print the pack of the tuple that this text stands for.
    Pack(String),
    /// To print the tuple that the bytes of these hexadecimal digits spell.
    Unpack(String),
    /// To run the race in this file, or without one that on standard input.
    Race(Option<String>),
    /// To print what the program was built from.
    Version,
    /// To print this random script, or to run it.
    Simulate(SimulationWords),
    /// To do the steps that are typed, over the database in this folder, or without one over one in
    /// memory.
    Shell(ShellWords, Option<String>),
    /// To print the log of the database in this folder.
    Log(String),
}

/// Why a command line asks for nothing.
#[derive(Debug, Drop)]
pub enum CommandLineError {
    /// The words aren't taken, which the text says, or they ask for help, which the text is.
    NotTaken(String),
    /// Memory is wanting.
    OutOfMemory,
}

impl From<AllocError> for CommandLineError {
    fn from(_error: AllocError) -> CommandLineError {
        CommandLineError::OutOfMemory
    }
}

// What the words of the command line match.
fn matches_of<'a>(alloc: Global, words: &'a [String]) -> Result<ArgMatches<'a>, Error> {
    command_line(alloc)?.try_get_matches_from(words)
}

// Why the words aren't taken.
fn not_taken(alloc: Global, error: &Error) -> CommandLineError {
    if error.kind() == ErrorKind::OutOfMemory {
        return CommandLineError::OutOfMemory;
    }
    match format!(in alloc; "{error}") {
        Ok(text) => CommandLineError::NotTaken(text),
        Err(_) => CommandLineError::OutOfMemory,
    }
}

// The word of this name among those of a subcommand, if it is there.
fn word_in(alloc: Global, matches: &ArgMatches, name: &str) -> Result<Option<String>, AllocError> {
    match matches.get_str(name) {
        Some(word) => Ok(Some(String::from_str(alloc, word)?)),
        None => Ok(None),
    }
}

// The files that the words of a subcommand name.
fn files_in(alloc: Global, matches: &ArgMatches) -> Result<Vec<String>, AllocError> {
    let mut files = Vec::new(alloc);
    for path in matches.get_strs("FILE").unwrap_or(&[]) {
        files.push(String::from_str(alloc, path)?)?;
    }
    Ok(files)
}

// The form in which the words of `explain` ask for a plan, none where they don't say.
fn form_in(matches: &ArgMatches) -> Option<PlanForm> {
    if matches.get_flag("svg") {
        Some(PlanForm::Drawing)
    } else if matches.get_flag("tree") {
        Some(PlanForm::Tree)
    } else if matches.get_flag("line") {
        Some(PlanForm::Line)
    } else {
        None
    }
}

// What the words of `run` ask to be printed.
fn run_words_in(matches: &ArgMatches) -> RunWords {
    RunWords {
        is_echo: matches.get_flag("echo"),
        is_named: matches.get_flag("names"),
        is_drawn: matches.get_flag("svg"),
    }
}

// How the words of `shell` ask its steps to be told.
fn shell_words_in(matches: &ArgMatches) -> ShellWords {
    ShellWords {
        is_echo: matches.get_flag("echo"),
        is_json: matches.get_flag("json"),
    }
}

// What is printed where the words say nothing of it.
const REPLIES: RunWords = RunWords {
    is_echo: false,
    is_named: false,
    is_drawn: false,
};

// Which random script the words of `simulate` ask for.
fn simulation_in(matches: &ArgMatches) -> SimulationWords {
    SimulationWords {
        seed: matches.get_one::<u64>("seed").unwrap_or(0),
        clients: matches.get_one::<u8>("clients").unwrap_or(1),
        steps: matches.get_one::<u32>("steps").unwrap_or(0),
        is_run: matches.get_flag("run"),
        is_drawn: matches.get_flag("svg"),
    }
}

// What the words ask for where they match `pack`, `unpack` or `log`.
fn word_request_in(alloc: Global, matches: &ArgMatches) -> Result<Option<Request>, AllocError> {
    let pack_words = matches.subcommand_matches("pack");
    if let Some(word) = pack_words.and_then(|words| words.get_str("JSON")) {
        return Ok(Some(Request::Pack(String::from_str(alloc, word)?)));
    }
    let log_words = matches.subcommand_matches("log");
    if let Some(word) = log_words.and_then(|words| words.get_str("DIR")) {
        return Ok(Some(Request::Log(String::from_str(alloc, word)?)));
    }
    let unpack_words = matches.subcommand_matches("unpack");
    match unpack_words.and_then(|words| words.get_str("HEX")) {
        Some(word) => Ok(Some(Request::Unpack(String::from_str(alloc, word)?))),
        None => Ok(None),
    }
}

// What the words that match ask for.
fn request_in(alloc: Global, matches: &ArgMatches) -> Result<Request, AllocError> {
    if let Some(request) = word_request_in(alloc, matches)? {
        return Ok(request);
    }
    if let Some(words) = matches.subcommand_matches("explain") {
        return Ok(Request::Explain(form_in(words), word_in(alloc, words, "FILE")?));
    }
    if let Some(words) = matches.subcommand_matches("check") {
        return Ok(Request::Check(files_in(alloc, words)?));
    }
    if let Some(words) = matches.subcommand_matches("simulate") {
        return Ok(Request::Simulate(simulation_in(words)));
    }
    if let Some(words) = matches.subcommand_matches("shell") {
        return Ok(Request::Shell(shell_words_in(words), word_in(alloc, words, "data")?));
    }
    if let Some(words) = matches.subcommand_matches("race") {
        return Ok(Request::Race(word_in(alloc, words, "FILE")?));
    }
    match matches.subcommand_matches("run") {
        Some(words) => Ok(Request::Run(
            run_words_in(words),
            word_in(alloc, words, "FILE")?,
            word_in(alloc, words, "data")?,
        )),
        None => Ok(Request::Run(REPLIES, None, None)),
    }
}

/// What the words of a command line ask for, the program's name first. It answers `NotTaken` where
/// they aren't taken or ask for help, and `OutOfMemory` where memory is wanting. No contract says
/// which words ask for what.
pub fn request_of(alloc: Global, words: &[String]) -> Result<Request, CommandLineError> {
    let matches = match matches_of(alloc, words) {
        Ok(matches) => matches,
        Err(error) if error.kind() == ErrorKind::DisplayVersion => return Ok(Request::Version),
        Err(error) => return Err(not_taken(alloc, &error)),
    };
    let request = request_in(alloc, &matches)?;
    Ok(request)
}
