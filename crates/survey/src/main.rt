// The program: the network report of each notice file that is named as an argument, a line for
// each, and a last line that totals them. A file that cannot be read is said on standard error, and
// counts as far as it was read; a write that fails is said too, and ends the run. Both are the exit
// status.
#![tactic(auto)]

mod files;
mod usage;

use feeding::Asked;
use files::Named;
use std::io;
use std::process::ExitCode;

const OUTPUT: &[u8] = b"survey: standard output";

// Says how many files are not reported on, if any.
fn say_left(rt: &HostRuntime, left: usize) {
    let to = rt.stderr();
    let _ = match left {
        0 => Ok(()),
        1 => println!(to; "survey: 1 file past the first 1,000 is not reported on"),
        _ => println!(to; "survey: {left} files past the first 1,000 are not reported on"),
    };
}

fn main(rt: HostRuntime) -> ExitCode {
    if let Asked::Help = feeding::read_arguments(&rt) {
        return feeding::print_usage(&rt, usage::TEXT, OUTPUT);
    }
    let arguments = files::count_arguments(&rt);
    let count = summaries::files_read(arguments);
    let surveyed = surveys::survey(&Named { rt: &rt }, count, &mut io::writer(&rt));
    say_left(
        &rt,
        arguments.saturating_sub(1).saturating_sub(count as usize),
    );
    match surveyed {
        Ok(true) => ExitCode::SUCCESS,
        Ok(false) => ExitCode::FAILURE,
        Err(why) => {
            feeding::system::say(&rt, OUTPUT, why);
            ExitCode::FAILURE
        }
    }
}
