//! The command line.

ghost use Rattle.std.specs.Prelude.{◌≡◌, ◌≢◌, [], map, option_map, codes, false, IfOk, IfErr, OnOk, Some, IsErr};
ghost use Rattle.clap.specs.Words.{FailsBy, app_of, kind_of, subcommand_name_of, subcommand_of, subcommand_rows_of, with_subcommand};
ghost use Rattle.clap.specs.declared.builder.command.Command.TheViews.{out-Command as fields_of};
ghost use Rattle.clap.specs.declared.error.kind.ErrorKind.TheVariants as kind;
ghost use Rattle.mme_command.specs.CommandLine.{AskFor, mme_app, file_app, with_file, asked_of, choice_of, wrong_in};

use clap::error::ErrorKind;
use clap::{Arg, ArgMatches, Command, Error};
use std::alloc::{AllocError, Global};

/// What is to be done.
#[derive(Clone, Copy, Debug, PartialEq, Eq)]
pub enum Choice<'a> {
    /// Play the trace in this file, or from standard input.
    Play(Option<&'a str>),
    /// Play the script in this file, or from standard input, against simulated stations and phones.
    Sim(Option<&'a str>),
}

/// Why a command line is not taken.
#[derive(Debug, Drop)]
pub enum CommandFault {
    /// 1: it doesn't ask for what the program does, or asks for help.
    Usage(Error),
    /// 2: a growth of memory was refused.
    NoMemory,
}

/// What the words of a command line ask for, only if nothing is wrong with them; if they ask for `play` or `sim`, it is refused for
/// lack of memory alone.
///
/// Usage only where they ask for nothing that the program does, or for help; NoMemory where a growth of memory was refused.
pub fn command<'a>(alloc: Global, words: &'a [&'a str]) -> Result<Choice<'a>, CommandFault>
    ensures asked { IfOk result (λ choice. asked_of (map (λ w. w.now) words.entry.now) ≡ Some (choice_of choice)) }
    ensures right { OnOk result (wrong_in (map (λ w. w.now) words.entry.now) ≡ []) }
    ensures due { AskFor (map (λ w. w.now) words.entry.now) → IfErr result (λ fault. fault ≡ CommandFault.NoMemory) }
{
    match parsed(alloc, words) {
        Ok(choice) => Ok(choice),
        Err(error) => {
            if error.kind() == ErrorKind::OutOfMemory {
                Err(CommandFault::NoMemory)
            } else {
                Err(CommandFault::Usage(error))
            }
        }
    }
}

fn parsed<'a>(alloc: Global, words: &'a [&'a str]) -> Result<Choice<'a>, Error>
    ensures asked { IfOk result (λ choice. asked_of (map (λ w. w.now) words.entry.now) ≡ Some (choice_of choice)) }
    ensures right { OnOk result (wrong_in (map (λ w. w.now) words.entry.now) ≡ []) }
    ensures due { AskFor (map (λ w. w.now) words.entry.now) → IfErr result (λ e. kind_of e ≡ kind.OutOfMemory) }
{
    match matched(alloc, words) {
        Ok(matches) => chosen(alloc, &matches),
        Err(error) => Err(error),
    }
}

/// What the matches choose.
fn chosen<'a>(alloc: Global, matches: &ArgMatches<'a>) -> Result<Choice<'a>, Error>
    ensures asked { IfOk result (λ choice. option_map with_file (subcommand_rows_of matches.now) ≡ Some (choice_of choice)) }
    ensures play { IsErr result → subcommand_name_of matches.now ≢ Some (codes "play") }
    ensures sim { IsErr result → subcommand_name_of matches.now ≢ Some (codes "sim") }
{
    if let Some(found) = matches.subcommand_matches("play") {
        return Ok(Choice::Play(found.get_str("FILE")));
    }
    if let Some(found) = matches.subcommand_matches("sim") {
        return Ok(Choice::Sim(found.get_str("FILE")));
    }
    Err(nothing_chosen(alloc))
}

fn nothing_chosen(alloc: Global) -> Error {
    let text = "a subcommand is required: play or sim";
    match Command::new(alloc, "mme").error(ErrorKind::MissingSubcommand, text) {
        Ok(error) => error,
        Err(error) => Error::from(error),
    }
}

fn matched<'a>(alloc: Global, words: &'a [&'a str]) -> Result<ArgMatches<'a>, Error>
    ensures found { IfOk result (λ m. subcommand_rows_of m ≡ subcommand_of mme_app (map (λ w. w.now) words.entry.now)) }
    ensures fails { FailsBy (wrong_in (map (λ w. w.now) words.entry.now)) result }
{
    match mme_command(alloc) {
        Ok(mme) => mme.try_get_matches_from(words),
        Err(error) => Err(Error::from(error)),
    }
}

/// The command line that the program takes.
fn mme_command<'a>(alloc: Global) -> Result<Command<'a>, AllocError>
    ensures { IfOk result (λ r. app_of r ≡ mme_app) }
{
    let play = "Plays a trace and prints what the MME answers";
    let sim = "Plays a script against simulated stations and phones, and prints the trace";
    match with_file_command(alloc, Command::new(alloc, "mme"), "play", play) {
        Ok(mme) => with_file_command(alloc, mme, "sim", sim),
        Err(error) => Err(error),
    }
}

/// The command with a subcommand of that name, which takes a file.
fn with_file_command<'a>(
    alloc: Global,
    mme: Command<'a>,
    name: &'a str,
    about: &'a str,
) -> Result<Command<'a>, AllocError>
    ensures { IfOk result (λ r. app_of r ≡ with_subcommand (app_of mme.entry) (file_app name.entry.now).top) }
{
    match on_file(alloc, name, about) {
        Ok(command) => mme.subcommand(command),
        Err(error) => Err(error),
    }
}

/// A subcommand of that name, which takes a file.
fn on_file<'a>(alloc: Global, name: &'a str, about: &'a str) -> Result<Command<'a>, AllocError>
    ensures app { IfOk result (λ r. app_of r ≡ file_app name.entry.now) }
    ensures local { IfOk result (λ r. (fields_of r).has_globals ≡ false) }
{
    let file = Arg::new(alloc, "FILE").help(
        "The file to read, or standard input where none is given",
    );
    Command::new(alloc, name).about(about).arg(file)
}
