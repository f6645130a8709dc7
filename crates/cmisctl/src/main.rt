//! `cmisctl`: manages pluggable optical modules through their memory map.
#![tactic(auto)]

use command_line::{CountedReader, StoppingWriter, allows_colors, run};
use std::io::IsTerminal;
use std::process::ExitCode;
use std::{env, io};

/// The words of the command line, of which the first is the program's name.
fn words(rt: &HostRuntime) -> io::Result<Vec<String>> {
    // Word by word, since `collect` tries again if its first allocation is refused.
    let mut words = Vec::new(rt.alloc());
    for word in env::args(rt)? {
        words.push(word)?;
    }
    Ok(words)
}

/// Whether standard output is a terminal that shows colors.
fn shows_colors(rt: &HostRuntime) -> bool {
    rt.stdout().is_terminal() && allows_colors(&env::var(rt, "NO_COLOR"), &env::var(rt, "TERM"))
}

fn main(rt: HostRuntime) -> ExitCode {
    let mut reader = CountedReader::new(rt.reader());
    let mut writer = StoppingWriter::new(io::writer(&rt));
    let stderr = rt.stderr();
    let mut errors = StoppingWriter::new(io::writer(&stderr));
    ExitCode::from(run(
        rt.alloc(),
        words(&rt),
        shows_colors(&rt),
        &mut reader,
        &mut writer,
        &mut errors,
    ))
}
