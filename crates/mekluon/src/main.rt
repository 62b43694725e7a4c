//! Reads a job from standard input, performs it line by line, and prints the answers.
#![tactic(auto)]

ghost use Rattle.std.specs.Prelude.{◌≡◌, ◌+◌, ◌-◌, ◌^◌, min};

use console::problem::Problem;
use console::session::Session;
use std::io::{self, BufRead, BufReader, Read};
use std::process::ExitCode;
use thiserror::Error;

#[cfg(test)]
mod tests;

/// Why a job ends before its last line.
#[derive(Drop, Debug, Error)]
enum Stop {
    #[error("line {0}: {1}")]
    BadLine(usize, Problem),
    #[error("line {0}: {1}")]
    UnreadLine(usize, io::Error),
    #[error("an answer could not be written: {0}")]
    UnwrittenAnswer(#[from] io::Error),
}

// The number of the line with that many lines before it; the count stops at the highest number.
fn line_number(lines_before: usize) -> usize
    ensures { result ≡ min (lines_before + 1) (2 ^ 64 - 1) }
{
    lines_before.saturating_add(1)
}

// Performs a line, and prints its answer if it has one.
fn perform(
    rt: &(impl Print + AllocGlobal),
    session: &mut Session,
    line: usize,
    text: &str,
) -> Result<(), Stop> {
    let answer = session
        .take_line(rt.alloc(), text)
        .map_err(|problem| Stop::BadLine(line, problem))?;
    if let Some(answer) = answer {
        println!(rt; "{answer}")?;
    }
    Ok(())
}

// Performs all lines of an input, up to the first bad one.
fn run(rt: &(impl Print + AllocGlobal), input: impl Read + Drop) -> Result<(), Stop> {
    let mut session = Session::new();
    let input = BufReader::new(rt.alloc(), input).map_err(|error| Stop::UnreadLine(1, error))?;
    for (lines_before, text) in input.lines(rt.alloc()).enumerate() {
        let line = line_number(lines_before);
        let text = text.map_err(|error| Stop::UnreadLine(line, error))?;
        perform(rt, &mut session, line, text.as_str())?;
    }
    Ok(())
}

fn main(rt: HostRuntime) -> ExitCode {
    match run(&rt, rt.stdin()) {
        Ok(()) => ExitCode::SUCCESS,
        Err(stop) => {
            let _ = eprintln!(rt; "{stop}");
            ExitCode::FAILURE
        }
    }
}
