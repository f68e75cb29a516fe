ghost use Rattle.std.specs.Prelude.{◌≡◌, IfOk, IfErr, Some, map, string_bytes};
ghost use Rattle.command_words.specs.Requests.{asked_by, asked_as, most_terms, default_terms, Asks, IsFirstBad, IsRefusedAsked, IsNotAsked, Reads, IsRefused, AreValues};

use crate::command::{Command, command_of};
use crate::found::{Texts, find};
use crate::parts::are_plain;
use crate::request::{OptName, Request, WordFault};
use crate::values::{Range, given_basis, given_number, given_packs};
use perm_core::BasisFault;
use sequences::Sequence;
use std::alloc::Global;
use work_packs::Packs;

/// What is asked: a command, and the texts that its words give.
#[derive(Clone, Copy)]
struct Asked<'a> {
    command: Command,
    texts: Texts<'a>,
}

/// The values of all names.
#[derive(Clone, Copy)]
struct Values {
    workers: u32,
    budget: u32,
    terms: u32,
    packs: Packs,
    number: u32,
}

/// The range of the workers.
const WORKERS: Range = Range {
    least: 1,
    most: 64,
    default: 1,
};

/// The range of how many classes may be expanded.
const BUDGET: Range = Range {
    least: 1,
    most: 5_000,
    default: 500,
};

/// The range of the number of `sample`.
const NUMBER: Range = Range {
    least: 0,
    most: 1_000_000,
    default: 0,
};

/// The range of the last length of terms.
fn terms_range(command: Command) -> Range
    ensures { result ≡ record { least = 0; most = most_terms command; default = default_terms command } }
{
    match command {
        Command::Count => Range {
            least: 0,
            most: 9,
            default: 6,
        },
        Command::Search | Command::Check | Command::Terms | Command::Sample => Range {
            least: 0,
            most: 200,
            default: 10,
        },
    }
}

/// What plain words ask. `Words` where they are not plain, `Memory` where there is none.
fn ask<'a>(alloc: Global, words: &'a [String]) -> Result<Asked<'a>, WordFault>
    ensures ok { IfOk result (λ asked. asked_by (map string_bytes words.entry.now) ≡ Some (asked_as asked)) }
    ensures refused { IfErr result (λ fault. IsNotAsked (map string_bytes words.entry.now) fault) }
{
    let Some(first) = words.first() else {
        return Err(WordFault::Words);
    };
    let Some(command) = command_of(first.as_str()) else {
        return Err(WordFault::Words);
    };
    let Ok(plain) = are_plain(alloc, command, &words[1..]) else {
        return Err(WordFault::Memory);
    };
    if !plain {
        return Err(WordFault::Words);
    }
    let Ok(texts) = find(alloc, command, words) else {
        return Err(WordFault::Memory);
    };
    Ok(Asked { command, texts })
}

/// The values that the texts give. The refusal is the first name whose text is not one of its values.
fn values_of(asked: &Asked<'_>) -> Result<Values, OptName>
    ensures ok { IfOk result (λ values. AreValues (asked_as asked.now) values) }
    ensures bad { IfErr result (λ name. IsFirstBad (asked_as asked.now) name) }
{
    let Some(workers) = given_number(asked.texts.workers, WORKERS) else {
        return Err(OptName::Workers);
    };
    let Some(budget) = given_number(asked.texts.budget, BUDGET) else {
        return Err(OptName::Budget);
    };
    let Some(terms) = given_number(asked.texts.terms, terms_range(asked.command)) else {
        return Err(OptName::Terms);
    };
    let Some(packs) = given_packs(asked.texts.pack) else {
        return Err(OptName::Pack);
    };
    let Some(number) = given_number(asked.texts.number, NUMBER) else {
        return Err(OptName::Number);
    };
    Ok(Values {
        workers,
        budget,
        terms,
        packs,
        number,
    })
}

/// The request that is asked for.
fn request_of(alloc: Global, asked: &Asked<'_>) -> Result<Request, WordFault>
    ensures ok { IfOk result (λ request. Asks (asked_as asked.now) request) }
    ensures refused { IfErr result (λ fault. IsRefusedAsked (asked_as asked.now) fault) }
{
    let values = match values_of(asked) {
        Ok(values) => values,
        Err(name) => return Err(WordFault::Opt(name)),
    };
    let basis = match given_basis(alloc, asked.texts.basis) {
        Ok(basis) => basis,
        Err(BasisFault::Memory) => return Err(WordFault::Memory),
        Err(fault) => return Err(WordFault::Basis(fault)),
    };
    Ok(Request {
        command: asked.command,
        basis: Sequence::of(basis),
        workers: values.workers,
        budget: values.budget,
        terms: values.terms,
        packs: values.packs,
        number: values.number,
    })
}

/// Reads the words of a command (docs/FORMATS.md, "Command words"). Of the refusals the first that applies is
/// answered: `Words` exactly where the command is unknown or the words after it are not plain; `Opt` with the first
/// name, in the order workers, budget, terms, pack, number, whose text is not one of its values; `Basis` with the fault
/// of the basis' text; `Memory` where there is none.
pub fn read_words(alloc: Global, words: &[String]) -> Result<Request, WordFault>
    ensures ok { IfOk result (λ request. Reads (map string_bytes words.now) request) }
    ensures refused { IfErr result (λ fault. IsRefused (map string_bytes words.now) fault) }
{
    let asked = match ask(alloc, words) {
        Ok(asked) => asked,
        Err(fault) => return Err(fault),
    };
    request_of(alloc, &asked)
}
