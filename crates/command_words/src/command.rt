ghost use Rattle.std.specs.Prelude.{◌≡◌};
ghost use Rattle.command_words.specs.Commands.{command_word, command_of, positional_of, is_option};

/// What a command does.
#[derive(Clone, Copy, Debug, PartialEq, Eq)]
pub enum Command {
    /// Explores the class of a basis, and writes a specification or that none was found.
    Search,
    /// Reads a text and says whether it is accepted for a basis.
    Check,
    /// Reads a text and writes its terms where it is accepted for a basis.
    Terms,
    /// Counts the avoiders of a basis by going through all permutations.
    Count,
    /// Searches the classes of forty bases that a number leads to.
    Sample,
}

/// The command of a word.
pub(crate) fn command_of(word: &str) -> Option<Command>
    ensures { result ≡ command_of word.now }
{
    match word {
        "search" => Some(Command::Search),
        "check" => Some(Command::Check),
        "terms" => Some(Command::Terms),
        "count" => Some(Command::Count),
        "sample" => Some(Command::Sample),
        _ => None,
    }
}

/// The word of a command.
pub(crate) fn command_word(command: Command) -> &'static str
    ensures { result.now ≡ command_word command }
{
    match command {
        Command::Search => "search",
        Command::Check => "check",
        Command::Terms => "terms",
        Command::Count => "count",
        Command::Sample => "sample",
    }
}

/// The name of what a command's one positional word gives.
pub(crate) fn positional_of(command: Command) -> &'static str
    ensures { result.now ≡ positional_of command }
{
    match command {
        Command::Search | Command::Check | Command::Terms | Command::Count => "basis",
        Command::Sample => "number",
    }
}

/// Whether the command has an option of this name.
pub(crate) fn is_option(command: Command, name: &str) -> bool
    ensures { result ≡ is_option command name.now }
{
    match command {
        Command::Search => {
            name == "workers" || name == "budget" || name == "terms" || name == "pack"
        }
        Command::Count => name == "terms",
        Command::Check | Command::Terms | Command::Sample => false,
    }
}
