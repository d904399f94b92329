//! The words of the program, and what they ask for.
ghost use Rattle.std.specs.Prelude.{◌≡◌, ◌↔◌, ◌<◌, [], ℕ, Some, IfSome, IsSome, length, map, string_bytes};
ghost use Rattle.std.specs.Fmt.{decimal};
ghost use Rattle.bitcaskd.specs.declared.command.Command.{Command};
ghost use Rattle.bitcaskd.specs.Words.{AsksFor, HasDirectory, IsCount, IsFillOf, NamesDirectory, count_words, verb_of};

/// What a run does.
#[derive(Clone, Copy, Debug, PartialEq, Eq)]
pub enum Command {
    /// It opens a store and works on it.
    Open(Work),
    /// It writes the report of the directory.
    Check,
    /// It runs a script, over no directory.
    Drill,
}

/// What a run does with a store.
#[derive(Clone, Copy, Debug, PartialEq, Eq)]
pub enum Work {
    /// It holds a session with the client.
    Pipe,
    /// It lists the pairs that are live, in the order of their keys.
    List,
    /// It puts so many pairs.
    Fill(u32),
}

/// The most pairs that a run of `fill` puts.
pub const MOST_PAIRS: u32 = 10_000_000;

// A sign and a leading zero both stand below it.
const LEAST_FIRST_DIGIT: u8 = b'1';

/// What the words ask for; `None` exactly where they are no command's.
pub fn command_of(words: &[String]) -> Option<Command>
    ensures found { IfSome result (λ command. AsksFor command (map string_bytes words.now)) }
    ensures only { (command : Command) → AsksFor command (map string_bytes words.now) → result ≡ Some command }
{
    match words {
        [verb] if verb.as_str() == "drill" => Some(Command::Drill),
        [verb, dir] if !dir.is_empty() => command_named(verb.as_str()),
        [verb, dir, count] if verb.as_str() == "fill" && !dir.is_empty() => fill_of(count.as_str()),
        _ => None,
    }
}

// The command of two words with this verb.
fn command_named(verb: &str) -> Option<Command>
    ensures found { IfSome result (λ command. HasDirectory command × (verb.now ≡ verb_of command)
        × (count_words command ≡ [])) }
    ensures only { (command : Command) → HasDirectory command → verb.now ≡ verb_of command → count_words command ≡ []
        → result ≡ Some command }
{
    match verb {
        "pipe" => Some(Command::Open(Work::Pipe)),
        "list" => Some(Command::Open(Work::List)),
        "check" => Some(Command::Check),
        _ => None,
    }
}

// A fill of as many pairs as this word says.
fn fill_of(count: &str) -> Option<Command>
    ensures found { IfSome result (λ command. IsFillOf command count.now) }
    ensures only { (command : Command) → IsFillOf command count.now → result ≡ Some command }
{
    let count = count_of(count)?;
    Some(Command::Open(Work::Fill(count)))
}

// How many pairs a run is to put, as a word writes it.
fn count_of(text: &str) -> Option<u32>
    ensures found { IfSome result (λ count. IsCount count × (text.now ≡ decimal count)) }
    ensures only { (count : ℕ) → IsCount count → text.now ≡ decimal count → result ≡ Some count }
{
    if text == "0" {
        return Some(0);
    }
    if *text.as_bytes().first()? < LEAST_FIRST_DIGIT {
        return None;
    }
    let count: u32 = text.parse().ok()?;
    if count > MOST_PAIRS {
        return None;
    }
    Some(count)
}

/// Which word is the directory, where the words are those of a command over one.
pub fn directory_of(words: &[String]) -> Option<usize>
    ensures command { IsSome result ↔ NamesDirectory (map string_bytes words.now) }
    ensures second { IsSome result → result ≡ Some 1 }
    ensures inside { IsSome result → 1 < length words.now }
{
    match command_of(words)? {
        Command::Open(_) | Command::Check => Some(1),
        Command::Drill => None,
    }
}
