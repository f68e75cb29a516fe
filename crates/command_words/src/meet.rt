ghost use Rattle.std.specs.Prelude.{◌≡◌, option_map};
ghost use Rattle.command_words.specs.Parts.{is_value, after_byte, cut_at_sign, named, give, meet_option, meet_name, meet_free, meet};
ghost use Rattle.command_words.specs.Commands.{positional_of};
ghost use Rattle.command_words.specs.Met.{met_as};

use crate::command::{Command, is_option};

/// A value, and what it is given to.
#[derive(Clone, Copy)]
pub(crate) struct Part<'a> {
    pub(crate) name: &'a str,
    pub(crate) value: &'a str,
}

/// What a word is.
#[derive(Clone, Copy)]
pub(crate) enum Met<'a> {
    /// It gives a value.
    Gives(Part<'a>),
    /// It names an option whose value is the next word.
    Waits(&'a str),
    /// It is not plain.
    Refused,
}

/// What follows a first hyphen.
fn after_hyphen(word: &str) -> Option<&str>
    ensures { option_map (λ s. s.now) result ≡ after_byte 45 word.now }
{
    word.strip_prefix('-')
}

/// Whether the text is not empty and does not begin with a hyphen.
fn is_value(text: &str) -> bool
    ensures { result ≡ is_value text.now }
{
    !text.is_empty() && after_hyphen(text).is_none()
}

/// What stands before the first `=`, and what stands after it, if there is one.
fn cut_at_sign(text: &str) -> (&str, Option<&str>)
    ensures { (result.0.now, option_map (λ s. s.now) result.1) ≡ cut_at_sign text.now }
{
    match text.split_once('=') {
        Some((name, value)) => (name, Some(value)),
        None => (text, None),
    }
}

/// The name of `--name` or `--name=value`, and the value, if there is one.
fn named(word: &str) -> Option<(&str, Option<&str>)>
    ensures { option_map (λ p. (p.0.now, option_map (λ s. s.now) p.1)) result ≡ named word.now }
{
    let rest = after_hyphen(after_hyphen(word)?)?;
    Some(cut_at_sign(rest))
}

/// A value that is given, where the text is one.
fn give<'a>(name: &'a str, text: &'a str) -> Met<'a>
    ensures { met_as result ≡ give name.now text.now }
{
    if is_value(text) {
        Met::Gives(Part { name, value: text })
    } else {
        Met::Refused
    }
}

/// What an option's name is, with the value in the same word, if there is one.
fn meet_option<'a>(name: &'a str, value: Option<&'a str>) -> Met<'a>
    ensures { met_as result ≡ meet_option name.now (option_map (λ s. s.now) value.entry) }
{
    match value {
        Some(text) => give(name, text),
        None => Met::Waits(name),
    }
}

/// What a name is, which may be no option's.
fn meet_name<'a>(command: Command, name: &'a str, value: Option<&'a str>) -> Met<'a>
    ensures { met_as result ≡ meet_name command name.now (option_map (λ s. s.now) value.entry) }
{
    if !is_option(command, name) {
        return Met::Refused;
    }
    meet_option(name, value)
}

/// What a word of this form is where no name waits for its value.
fn meet_free<'a>(
    command: Command,
    positional: &'a str,
    word: &'a str,
    form: Option<(&'a str, Option<&'a str>)>,
) -> Met<'a>
    requires { positional.now ≡ positional_of command }
    ensures { met_as result ≡ meet_free command word.now (option_map (λ p. (p.0.now, option_map (λ s. s.now) p.1)) form.entry) }
{
    match form {
        Some((name, value)) => meet_name(command, name, value),
        None => give(positional, word),
    }
}

/// What a word is after a name that waits for its value, or else by itself. The positional word's name is the
/// command's.
pub(crate) fn meet<'a>(
    command: Command,
    positional: &'a str,
    waiting: Option<&'a str>,
    word: &'a str,
) -> Met<'a>
    requires { positional.now ≡ positional_of command }
    ensures { met_as result ≡ meet command (option_map (λ s. s.now) waiting.entry) word.now }
{
    match waiting {
        Some(name) => give(name, word),
        None => meet_free(command, positional, word, named(word)),
    }
}
