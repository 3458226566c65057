ghost use Rattle.std.specs.Prelude.{◌≡◌, ◌↔◌, ◌∷◌, [], IsTrue, string_bytes};
ghost use Rattle.sprite_words.specs.Words.{ComesTo, spelled};

use crate::number::{count_of, number_of};

/// A command of the program (this project).
#[derive(Clone, Copy, Debug, PartialEq, Eq)]
pub enum Command {
    /// `run`: the cluster of a cluster file is run, and its output printed.
    Run,
    /// `run --seed N`: the same, with what happens next taken by a generator that the number seeds.
    RunSeed(u64),
    /// `run --stats`: the same as `run`, with the counts of the trace's records behind the output.
    RunStats,
    /// `history`: the same as `run`, with the journal printed.
    History,
    /// `load N`: a workload of 1 to 64 processes is run, and its summary printed.
    Load(u8),
    /// `check`: a history is judged.
    Check,
    /// `audit`: a trace is asked for every promise of a run.
    Audit,
    /// `trace`: the same as `run`, with the trace printed.
    Trace,
    /// `frames`: packets are sent in frames over the link of a cluster file, and what came of each is told.
    Frames,
    /// `file`: the steps of one file whose server may stop are played, and what came of them is told.
    File,
    /// `lend`: the events of a daemon that lends idle hosts are answered.
    Lend,
}

/// The command that the words behind the program's name spell; None exactly where they spell none. The numbers of `run --seed` and `load`
/// have 1 to 20 digits; that of `run --seed` is at most 2^64 - 1, that of `load` 1 to 64.
pub fn command_of(words: &[String]) -> Option<Command>
    ensures { ComesTo (spelled words.now) result }
{
    match words {
        [word] => one_word(word),
        [first, second] => two_words(first, second),
        [first, second, number] => three_words(first, second, number),
        _ => None,
    }
}

// The command of one word.
#[tactic(auto, using(crate::proofs::WordLaws::no_word))]
fn one_word(word: &String) -> Option<Command>
    ensures { ComesTo (string_bytes word.now ∷ []) result }
{
    if is_word(word, "run") {
        return Some(Command::Run);
    }
    if is_word(word, "history") {
        return Some(Command::History);
    }
    if is_word(word, "check") {
        return Some(Command::Check);
    }
    if is_word(word, "audit") {
        return Some(Command::Audit);
    }
    if is_word(word, "trace") {
        return Some(Command::Trace);
    }
    if is_word(word, "frames") {
        return Some(Command::Frames);
    }
    if is_word(word, "file") {
        return Some(Command::File);
    }
    if is_word(word, "lend") {
        return Some(Command::Lend);
    }
    None
}

// The command of two words.
#[tactic(auto, using(crate::proofs::WordLaws::no_pair, crate::proofs::WordLaws::no_load))]
fn two_words(first: &String, second: &String) -> Option<Command>
    ensures { ComesTo (string_bytes first.now ∷ string_bytes second.now ∷ []) result }
{
    if is_word(first, "run") && is_word(second, "--stats") {
        return Some(Command::RunStats);
    }
    if !is_word(first, "load") {
        return None;
    }
    match count_of(second.as_bytes()) {
        Some(count) => Some(Command::Load(count)),
        None => None,
    }
}

// The command of three words.
#[tactic(auto, using(crate::proofs::WordLaws::no_first, crate::proofs::WordLaws::no_second, crate::proofs::WordLaws::no_number))]
fn three_words(first: &String, second: &String, number: &String) -> Option<Command>
    ensures { ComesTo (string_bytes first.now ∷ string_bytes second.now ∷ string_bytes number.now ∷ []) result }
{
    if !is_word(first, "run") {
        return None;
    }
    if !is_word(second, "--seed") {
        return None;
    }
    match number_of(number.as_bytes()) {
        Some(seed) => Some(Command::RunSeed(seed)),
        None => None,
    }
}

// Whether the word is that one.
fn is_word(word: &String, name: &str) -> bool
    ensures { IsTrue result ↔ (string_bytes word.now ≡ name.now) }
{
    word.as_str() == name
}
