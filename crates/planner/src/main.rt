#![tactic(auto)]

// The planner's program: files and commands in, a report out. What it performs is in the libraries.
use failure::Failure;
use std::env;
use std::process::ExitCode;

mod commands;
mod failure;
mod files;
mod join;
mod linefile;
mod show;

fn main(rt: HostRuntime) -> ExitCode {
    match run(&rt) {
        Ok(()) => ExitCode::SUCCESS,
        Err(failure) => {
            let _ = eprintln!(rt; "planner: {failure}");
            ExitCode::FAILURE
        }
    }
}

// `do` is told apart from the commands that a file may hold, so that no file performs itself.
fn run(rt: &HostRuntime) -> Result<(), Failure> {
    let owned: Vec<String> = env::args(rt)?.skip(1).collect(rt.alloc())?;
    let words: Vec<&str> = owned.iter().map(|word| word.as_str()).collect(rt.alloc())?;
    match words.as_slice() {
        ["do", name] => commands::perform_file(rt, name),
        words => commands::perform(rt, words),
    }
}
