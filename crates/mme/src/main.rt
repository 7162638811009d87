//! The program `mme`: plays a trace, or simulates a script, from a file or standard input to standard output.
#![tactic(auto)]

use mme_main::{Choice, CommandFault, PlayFault, Watched, command, run_play, run_sim};
use std::alloc::{AllocError, Global};
use std::env;
use std::fs::File;
use std::io::{BufWriter, ErrorKind, Read, Write};
use std::process::ExitCode;

/// The first word of each command line, as usage texts show it.
const NAME: &str = "mme";

/// The octets that are kept back, at most, before they are written.
const KEPT_BACK: usize = 65_536;

fn main(rt: HostRuntime) -> ExitCode {
    let alloc = rt.alloc();
    let args = match env::args(&rt) {
        Ok(args) => args,
        Err(error) if error.kind() == ErrorKind::OutOfMemory => return out_of_memory(&rt),
        Err(_) => return not_a_text(&rt),
    };
    let Ok(given) = args.collect::<Vec<String>>(alloc) else {
        return out_of_memory(&rt);
    };
    let Ok(words) = words_of(alloc, given.as_slice()) else {
        return out_of_memory(&rt);
    };
    match command(alloc, words.as_slice()) {
        Ok(choice) => done(&rt, choice),
        Err(CommandFault::Usage(error)) => {
            let _ = rt.eprint(&error);
            ExitCode::from(2)
        }
        Err(CommandFault::NoMemory) => out_of_memory(&rt),
    }
}

/// The words of a command line, with the program's name as the first.
fn words_of(alloc: Global, given: &[String]) -> Result<Vec<&str>, AllocError> {
    let mut words: Vec<&str> = Vec::new(alloc);
    words.push(NAME)?;
    for word in given.iter().skip(1) {
        words.push(word.as_str())?;
    }
    Ok(words)
}

/// A word of the command line that isn't UTF-8 can't be had as a path, so the command line is refused.
fn not_a_text(rt: &impl Eprint) -> ExitCode {
    let _ = rt.eprintln(format_args!("{NAME}: a word of the command line isn't UTF-8"));
    ExitCode::from(2)
}

fn out_of_memory(rt: &impl Eprint) -> ExitCode {
    ended(rt, Err(PlayFault::NoMemory))
}

/// Does what is asked, with the file that is named or with standard input.
fn done(rt: &HostRuntime, choice: Choice<'_>) -> ExitCode {
    let (Choice::Play(path) | Choice::Sim(path)) = choice;
    match path {
        Some(path) => match File::open(rt, path) {
            Ok(file) => run(rt, choice, file),
            Err(_) => ended(rt, Err(PlayFault::Read)),
        },
        None => run(rt, choice, rt.stdin()),
    }
}

/// Plays or simulates what the reader gives to standard output, in large pieces.
fn run<R: Read + Drop>(rt: &HostRuntime, choice: Choice<'_>, reader: R) -> ExitCode {
    let Ok(writer) = BufWriter::with_capacity(rt.alloc(), KEPT_BACK, rt.stdout()) else {
        return out_of_memory(rt);
    };
    let mut reader = Watched::new(reader);
    let mut writer = Watched::new(writer);
    let result = match choice {
        Choice::Play(_) => run_play(rt.alloc(), &mut reader, &mut writer),
        Choice::Sim(_) => run_sim(rt.alloc(), &mut reader, &mut writer),
    };
    ended(rt, result)
}

/// The exit status, with a text on standard error unless it is 0.
fn ended(rt: &impl Eprint, outcome: Result<(), PlayFault>) -> ExitCode {
    let Err(fault) = outcome else {
        return ExitCode::SUCCESS;
    };
    let _ = rt.eprintln(format_args!("{NAME}: {fault}"));
    ExitCode::from(fault.status())
}
