// The commands and options that there are, by `clap`. Called by `request`.
use clap::builder::ValueParser;
use clap::{Arg, ArgAction, Command};
use std::alloc::{AllocError, Global};

// The option that names the folder of a database.
fn data_arg<'a>(alloc: Global) -> Arg<'a> {
    Arg::new(alloc, "data").long("data").value_name("DIR").help(
        "Goes on with the database in this folder, where what is committed stays",
    )
}

fn run_command<'a>(alloc: Global) -> Result<Command<'a>, AllocError> {
    let echo = Arg::new(alloc, "echo")
        .long("echo")
        .help("Prints each step before its reply")
        .action(ArgAction::SetTrue);
    let names = Arg::new(alloc, "names")
        .long("names")
        .help("Prints records and entries of indexes in the place of keys")
        .action(ArgAction::SetTrue);
    let svg = Arg::new(alloc, "svg")
        .long("svg")
        .help("Draws the steps in lanes of clients and roles, as SVG")
        .action(ArgAction::SetTrue)
        .conflicts_with("echo")?
        .conflicts_with("names")?
        .conflicts_with("data")?;
    let file = Arg::new(alloc, "FILE").help("The script; without it standard input is read");
    Command::new(alloc, "run")
        .about("Runs the steps of a script and prints what each replies")
        .arg(echo)?
        .arg(names)?
        .arg(svg)?
        .arg(data_arg(alloc))?
        .arg(file)
}

fn check_command<'a>(alloc: Global) -> Result<Command<'a>, AllocError> {
    let files = Arg::new(alloc, "FILE")
        .help("Scripts, races, or schemas with a query; without any standard input is read")
        .num_args(0..);
    Command::new(alloc, "check")
        .about("Tells each place where a script, a race or a query is wrong")
        .arg(files)
}

fn explain_command<'a>(alloc: Global) -> Result<Command<'a>, AllocError> {
    let line = Arg::new(alloc, "line")
        .long("line")
        .help("Prints it on one line, as where the output is no terminal")
        .action(ArgAction::SetTrue);
    let tree = Arg::new(alloc, "tree")
        .long("tree")
        .help("Prints it as a tree, a step a line, as on a terminal")
        .action(ArgAction::SetTrue)
        .conflicts_with("line")?;
    let svg = Arg::new(alloc, "svg")
        .long("svg")
        .help("Draws it as a tree, as SVG")
        .action(ArgAction::SetTrue)
        .conflicts_with("line")?
        .conflicts_with("tree")?;
    let file = Arg::new(alloc, "FILE").help(
        "Schema, states and query; without it standard input is read",
    );
    Command::new(alloc, "explain")
        .about("Prints the plan of a query")
        .arg(line)?
        .arg(tree)?
        .arg(svg)?
        .arg(file)
}

fn pack_command<'a>(alloc: Global) -> Result<Command<'a>, AllocError> {
    let json = Arg::new(alloc, "JSON")
        .help("The tuple, as a list")
        .required(true);
    Command::new(alloc, "pack")
        .about("Prints the pack of a tuple in hexadecimal digits")
        .arg(json)
}

fn unpack_command<'a>(alloc: Global) -> Result<Command<'a>, AllocError> {
    let hex = Arg::new(alloc, "HEX")
        .help("The bytes, in hexadecimal digits")
        .required(true);
    Command::new(alloc, "unpack")
        .about("Prints the tuple that bytes spell")
        .arg(hex)
}

fn race_command<'a>(alloc: Global) -> Result<Command<'a>, AllocError> {
    let file = Arg::new(alloc, "FILE").help("The race; without it standard input is read");
    Command::new(alloc, "race")
        .about(
            "Runs two clients beside the builder of an index, and prints what there is at the end",
        )
        .arg(file)
}

// An option of `simulate` that is a number in these bounds.
fn number_arg<'a>(
    alloc: Global,
    name: &'a str,
    help: &'a str,
    given: &'a str,
    bounds: (u64, u64),
) -> Arg<'a> {
    Arg::new(alloc, name)
        .long(name)
        .help(help)
        .default_value(given)
        .value_parser(ValueParser::unsigned(bounds.0, bounds.1))
}

fn simulate_command<'a>(alloc: Global) -> Result<Command<'a>, AllocError> {
    let seed = number_arg(alloc, "seed", "What it is made from", "0", (0, u64::MAX));
    let clients = number_arg(alloc, "clients", "How many clients there are", "3", (1, 16));
    let steps = number_arg(
        alloc,
        "steps",
        "How many steps there are",
        "40",
        (0, 20_000),
    );
    let run = Arg::new(alloc, "run")
        .long("run")
        .help("Runs it, and prints each step and its reply")
        .action(ArgAction::SetTrue);
    let svg = Arg::new(alloc, "svg")
        .long("svg")
        .help("Runs it, and draws its steps in lanes of clients and roles, as SVG")
        .action(ArgAction::SetTrue)
        .conflicts_with("run")?;
    Command::new(alloc, "simulate")
        .about("Prints a random script, always the same of one seed")
        .arg(seed)?
        .arg(clients)?
        .arg(steps)?
        .arg(run)?
        .arg(svg)
}

fn shell_command<'a>(alloc: Global) -> Result<Command<'a>, AllocError> {
    let echo = Arg::new(alloc, "echo")
        .long("echo")
        .help("Prints each step, as a script has it, before its reply")
        .action(ArgAction::SetTrue);
    let json = Arg::new(alloc, "json")
        .long("json")
        .help("Prints rows as JSON, a row a line")
        .action(ArgAction::SetTrue);
    Command::new(alloc, "shell")
        .about("Does the steps that are typed, each as it comes; help tells what can be typed")
        .arg(echo)?
        .arg(json)?
        .arg(data_arg(alloc))
}

fn log_command<'a>(alloc: Global) -> Result<Command<'a>, AllocError> {
    let folder = Arg::new(alloc, "DIR")
        .help("The folder of the database")
        .required(true);
    Command::new(alloc, "log")
        .about("Prints what was committed in the database of a folder, and verifies its log")
        .arg(folder)
}

/// What the command line may be.
pub(crate) fn command_line<'a>(alloc: Global) -> Result<Command<'a>, AllocError> {
    Command::new(alloc, "recordctl")
        .about(
            "Runs and checks scripts and races over a record store, shows plans of queries, and packs and unpacks tuples",
        )
        .version("")
        .subcommand_required(true)
        .subcommand(run_command(alloc)?)?
        .subcommand(check_command(alloc)?)?
        .subcommand(explain_command(alloc)?)?
        .subcommand(pack_command(alloc)?)?
        .subcommand(unpack_command(alloc)?)?
        .subcommand(race_command(alloc)?)?
        .subcommand(simulate_command(alloc)?)?
        .subcommand(shell_command(alloc)?)?
        .subcommand(log_command(alloc)?)
}
