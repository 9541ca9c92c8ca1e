// The program for screens in the hall: notice lines from standard input, the outcome of each as a
// sentence to standard output. A garbled line names no event, and keeps its report line. A read or
// write that fails is said on standard error, and is the exit status.
#![tactic(auto)]

mod usage;

use feeding::{Asked, Names};
use narration::Sentences;
use std::process::ExitCode;

fn main(rt: HostRuntime) -> ExitCode {
    let names = Names {
        input: b"narrate: standard input",
        output: b"narrate: standard output",
    };
    match feeding::read_arguments(&rt) {
        Asked::Nothing => feeding::run(&rt, &mut Sentences::new(), names),
        Asked::Help => feeding::print_usage(&rt, usage::TEXT, names.output),
        Asked::Other => feeding::refuse_usage(&rt, usage::LINE),
    }
}
