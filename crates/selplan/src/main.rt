#![tactic(auto)]
// Carries out a script, call by call, on one plan.
mod bench;
mod help;
mod hex;
mod line_error;
mod script;

use crate::help::{HELP, USAGE};
use crate::script::run_script;
use std::io::{IsTerminal, Read};
use std::process::ExitCode;
use std::{env, fs, io};

// The script in a file.
fn run_file(rt: &HostRuntime, name: &str) -> io::Result<ExitCode> {
    match fs::read(rt, name) {
        Ok(script) => run_script(rt, &script),
        Err(error) => {
            eprintln!(rt; "selplan: {name}: {error}")?;
            Ok(ExitCode::FAILURE)
        }
    }
}

// The script from standard input, unless that is a terminal.
fn run_input(rt: &HostRuntime) -> io::Result<ExitCode> {
    if rt.stdin().is_terminal() {
        print!(rt; "{USAGE}")?;
        return Ok(ExitCode::SUCCESS);
    }
    let mut script = Vec::new(rt.alloc());
    rt.stdin().read_to_end(&mut script)?;
    run_script(rt, &script)
}

fn run(rt: &HostRuntime) -> io::Result<ExitCode> {
    let mut words = env::args(rt)?;
    words.next();
    match (words.next(), words.next()) {
        (None, _) => run_input(rt),
        (Some(word), None) => {
            if word.as_str() == "--help" {
                print!(rt; "{HELP}")?;
                Ok(ExitCode::SUCCESS)
            } else {
                run_file(rt, word.as_str())
            }
        }
        (Some(_), Some(_)) => {
            eprint!(rt; "{USAGE}")?;
            Ok(ExitCode::FAILURE)
        }
    }
}

fn main(rt: HostRuntime) -> ExitCode {
    match run(&rt) {
        Ok(code) => code,
        Err(error) => {
            let _ = eprintln!(rt; "selplan: {error}");
            ExitCode::FAILURE
        }
    }
}
