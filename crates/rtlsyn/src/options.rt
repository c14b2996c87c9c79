//! The options of the program with their help, as clap tells of them.

use clap::{Arg, ArgAction, Command};
use std::alloc::{AllocError, Global};

/// The version of the program.
const VERSION: &str = "2026.12";

const ABOUT: &str =
    "Makes gates of a design in RTLIL, the text form of Yosys. Without FILE the design is read from standard input.";

const AFTER: &str =
    "Exit status: 0 done, 1 an error was answered, 2 the words have no meaning, 3 the input could not be read, 4 the output could not be written, 5 out of memory.";

/// The files, as arguments.
fn with_files<'a>(alloc: Global, command: Command<'a>) -> Result<Command<'a>, AllocError> {
    let input = Arg::new(alloc, "input")
        .value_name("FILE")
        .help("The design, a text of RTLIL");
    let output = Arg::new(alloc, "output")
        .short('o')
        .long("output")
        .value_name("FILE")
        .help("Where the netlist goes, whole or not at all");
    command.arg(input)?.arg(output)
}

/// The options of a run, as arguments.
fn with_run<'a>(alloc: Global, command: Command<'a>) -> Result<Command<'a>, AllocError> {
    let script = Arg::new(alloc, "script")
        .long("script")
        .value_name("WORDS")
        .help("The passes in order, in place of 'proc opt fsm opt memory opt techmap opt'");
    let workers = Arg::new(alloc, "workers")
        .long("workers")
        .value_name("N")
        .help("Builds modules in N threads, 1 to 64 [default: 4]");
    command.arg(script)?.arg(workers)
}

/// The options that read no design from a file, as arguments.
fn with_others<'a>(alloc: Global, command: Command<'a>) -> Result<Command<'a>, AllocError> {
    let session = Arg::new(alloc, "session")
        .long("session")
        .action(ArgAction::SetTrue)
        .help("Answers commands on standard input; the design and what was built stay");
    let desks = Arg::new(alloc, "desks")
        .long("desks")
        .value_name("N")
        .help("With --session: N desks, 1 to 16, beside each other");
    let generate = Arg::new(alloc, "gen").long("gen").value_name("N").help(
        "Makes a design of N modules, 1 to 4096, and tells of its netlist",
    );
    command.arg(session)?.arg(desks)?.arg(generate)
}

/// The command of the program, with its help.
pub(crate) fn people_command<'a>(alloc: Global) -> Result<Command<'a>, AllocError> {
    let command = Command::new(alloc, "rtlsyn")
        .no_binary_name(true)
        .version(VERSION)
        .about(ABOUT)
        .after_help(AFTER);
    let command = with_files(alloc, command)?;
    let command = with_run(alloc, command)?;
    with_others(alloc, command)
}
