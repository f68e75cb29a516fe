//! Searches for combinatorial specifications of permutation classes. The command words, the printed
//! lines and the statuses are those of docs/FORMATS.md.
#![tactic(auto)]

mod answer;
mod by_pack;
mod crew_answer;
mod made;
mod none_line;
mod root;
mod run;
mod run_crew;
mod sample;
mod sample_lines;
mod stream;
mod usage;
mod verdict;

use css_crew::NoGate;
use outside::{StdSink, StdSource};
use run_crew::run;
use std::env;
use std::io::{self, ErrorKind};
use std::process::ExitCode;

/// The words after the program's name.
fn command_words(rt: &HostRuntime) -> io::Result<Vec<String>> {
    let mut words = Vec::new(rt.alloc());
    for word in env::args(rt)?.skip(1) {
        words.push(word)?;
    }
    Ok(words)
}

fn main(rt: HostRuntime) -> io::Result<ExitCode> {
    // Arguments that are no text are refused like words that have no form.
    let words = match command_words(&rt) {
        Ok(words) => words,
        Err(error) => match error.kind() {
            ErrorKind::OutOfMemory => return Ok(ExitCode::from(6)),
            _ => Vec::new(rt.alloc()),
        },
    };
    let mut source = StdSource::new(rt.stdin());
    let mut sink = StdSink::new(rt.stdout());
    let ended = run(
        &rt,
        rt.alloc(),
        words.as_slice(),
        &mut source,
        &mut sink,
        &NoGate,
    );
    Ok(ExitCode::from(ended.status))
}

#[cfg(test)]
mod crew_tests;
#[cfg(test)]
mod search_tests;
#[cfg(test)]
mod stream_tests;
#[cfg(test)]
mod tests;
#[cfg(test)]
mod text_tests;
#[cfg(test)]
mod word_tests;
