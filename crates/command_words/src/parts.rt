ghost use Rattle.std.specs.Prelude.{◌≡◌, IfOk, None, is_some, map, option_map, string_bytes};
ghost use Rattle.command_words.specs.Commands.{positional_of};
ghost use Rattle.command_words.specs.Met.{part_as};
ghost use Rattle.command_words.specs.Parts.{parts_from, is_given, are_once, plain_parts};

use crate::command::{Command, positional_of};
use crate::meet::{Met, Part, meet};
use std::alloc::{AllocError, Global};

/// What the words after a command give, in order; None where one of them is not plain.
fn parts_of<'a>(
    alloc: Global,
    command: Command,
    positional: &'a str,
    words: &'a [String],
) -> Result<Option<Vec<Part<'a>>>, AllocError>
    requires { positional.now ≡ positional_of command }
    ensures { IfOk result (λ parts. option_map (λ list. map part_as list.items) parts ≡ parts_from command (map string_bytes words.now) None) }
{
    let mut parts = Vec::new(alloc);
    let mut waiting = None;
    for word in words {
        match meet(command, positional, waiting, word.as_str()) {
            Met::Gives(part) => {
                parts.push(part)?;
                waiting = None;
            }
            Met::Waits(name) => waiting = Some(name),
            Met::Refused => return Ok(None),
        }
    }
    if waiting.is_some() {
        return Ok(None);
    }
    Ok(Some(parts))
}

/// Whether something is given to the name.
fn is_given(parts: &[Part<'_>], name: &str) -> bool
    ensures { result ≡ is_given name.now (map part_as parts.now) }
{
    parts.iter().any(|part| part.name == name)
}

/// Whether nothing is given twice.
fn are_once(parts: &[Part<'_>]) -> bool
    ensures { result ≡ are_once (map part_as parts.now) }
{
    for (place, part) in parts.iter().enumerate() {
        if is_given(&parts[place + 1..], part.name) {
            return false;
        }
    }
    true
}

/// Whether words are plain after a command: each gives a value to the command's positional word or to an option of
/// it, nothing is given twice, and there is one positional word.
pub(crate) fn are_plain(
    alloc: Global,
    command: Command,
    words: &[String],
) -> Result<bool, AllocError>
    ensures { IfOk result (λ plain. plain ≡ is_some (plain_parts command (map string_bytes words.now))) }
{
    let positional = positional_of(command);
    let Some(parts) = parts_of(alloc, command, positional, words)? else {
        return Ok(false);
    };
    Ok(are_once(parts.as_slice()) && is_given(parts.as_slice(), positional))
}
