ghost use Rattle.std.specs.Prelude.{◌≡◌, IfOk, true, map, drop, is_some, option_map, string_bytes};
ghost use Rattle.clap.specs.Words.{app_of, found_of, first_value};
ghost use Rattle.command_words.specs.Parts.{plain_parts};
ghost use Rattle.command_words.specs.Apps.{bare_app, add_option, app_for, texts_by, texts_as, AreTextsOf};

use crate::command::Command;
use clap::error::ErrorKind;
use clap::{Arg, ArgAction, ArgMatches, Command as App};
use std::alloc::{AllocError, Global};

/// The texts that the words of a command give, by their names.
#[derive(Clone, Copy)]
pub(crate) struct Texts<'a> {
    pub(crate) basis: Option<&'a str>,
    pub(crate) number: Option<&'a str>,
    pub(crate) workers: Option<&'a str>,
    pub(crate) budget: Option<&'a str>,
    pub(crate) terms: Option<&'a str>,
    pub(crate) pack: Option<&'a str>,
}

/// A command with a positional word.
fn bare_app<'a>(alloc: Global, word: &'a str, positional: &'a str) -> Result<App<'a>, AllocError>
    ensures { IfOk result (λ app. app_of app ≡ bare_app word.now positional.now) }
{
    let argument = Arg::new(alloc, positional).action(ArgAction::Set);
    App::new(alloc, word).disable_help_flag(true).arg(argument)
}

/// A command with one more option of one text.
fn add_option<'a>(alloc: Global, app: App<'a>, name: &'a str) -> Result<App<'a>, AllocError>
    ensures { IfOk result (λ more. app_of more ≡ add_option (app_of app.entry) name.now) }
{
    let argument = Arg::new(alloc, name).long(name).action(ArgAction::Set);
    app.arg(argument)
}

/// The arguments of `search`.
fn search_app<'a>(alloc: Global) -> Result<App<'a>, AllocError>
    ensures { IfOk result (λ app. app_of app ≡ app_for Command.Search) }
{
    let app = bare_app(alloc, "search", "basis")?;
    let app = add_option(alloc, app, "workers")?;
    let app = add_option(alloc, app, "budget")?;
    let app = add_option(alloc, app, "terms")?;
    add_option(alloc, app, "pack")
}

/// The arguments of `count`.
fn count_app<'a>(alloc: Global) -> Result<App<'a>, AllocError>
    ensures { IfOk result (λ app. app_of app ≡ app_for Command.Count) }
{
    let app = bare_app(alloc, "count", "basis")?;
    add_option(alloc, app, "terms")
}

/// The arguments of a command.
fn command_app<'a>(alloc: Global, command: Command) -> Result<App<'a>, AllocError>
    ensures { IfOk result (λ app. app_of app ≡ app_for command) }
{
    match command {
        Command::Search => search_app(alloc),
        Command::Check => bare_app(alloc, "check", "basis"),
        Command::Terms => bare_app(alloc, "terms", "basis"),
        Command::Count => count_app(alloc),
        Command::Sample => bare_app(alloc, "sample", "number"),
    }
}

/// The texts of all names in what was found.
fn texts_of<'a>(matches: &ArgMatches<'a>) -> Texts<'a>
    ensures { texts_as result ≡ texts_by (first_value (found_of matches.now)) }
{
    Texts {
        basis: matches.get_str("basis"),
        number: matches.get_str("number"),
        workers: matches.get_str("workers"),
        budget: matches.get_str("budget"),
        terms: matches.get_str("terms"),
        pack: matches.get_str("pack"),
    }
}

/// The texts that plain words give, of which the first is the command. The refusal is want of memory.
pub(crate) fn find<'a>(
    alloc: Global,
    command: Command,
    words: &'a [String],
) -> Result<Texts<'a>, AllocError>
    requires { is_some (plain_parts command (drop 1 (map string_bytes words.now))) ≡ true }
    ensures { IfOk result (λ texts. AreTextsOf command (drop 1 (map string_bytes words.entry.now)) texts) }
{
    let app = command_app(alloc, command)?;
    match app.try_get_matches_from(words) {
        Ok(matches) => Ok(texts_of(&matches)),
        Err(error) => match error.kind() {
            ErrorKind::OutOfMemory => Err(AllocError),
            _ => unreachable!(),
        },
    }
}
