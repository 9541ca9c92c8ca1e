// The program: notice lines from standard input, a report line for each to standard output. A read or
// write that fails is said on standard error, and is the exit status.
#![tactic(auto)]

mod usage;

use feeding::{Asked, Names};
use line_buffer::Reports;
use std::process::ExitCode;

fn main(rt: HostRuntime) -> ExitCode {
    let names = Names {
        input: b"follow: standard input",
        output: b"follow: standard output",
    };
    match feeding::read_arguments(&rt) {
        Asked::Nothing => feeding::run(&rt, &mut Reports::new(), names),
        Asked::Help => feeding::print_usage(&rt, usage::TEXT, names.output),
        Asked::Other => feeding::refuse_usage(&rt, usage::LINE),
    }
}
