// Reads the words.

ghost use Rattle.std.specs.Prelude.{◌≡◌, ℕ, List, IfOk, IfSome, IfNone, OnErr, Some, map};
ghost use Rattle.std.specs.String.{string_bytes};
ghost use Rattle.clap.specs.Words.{first_of, found_of, rows_of};
ghost use Rattle.command_words.specs.Words.{IsInGrammar, AreWordsOf, IsOutsideGrammar};
ghost use Rattle.command_words.specs.Parser.{IsMkfsTaken, IsImageTaken, IsRunTaken, AreTakenApart};

use crate::command::{Command, ImageCommand};
use crate::grammar::is_in_grammar;
use crate::parser::parse;
use clap::ArgMatches;
use std::alloc::Global;
use ubifs_base::Memory;

/// The command that the words say, with the names of its files; `None` if they are outside the grammar. A refusal is want of memory, and
/// comes only for words in the grammar.
pub fn read_words<'a>(alloc: Global, words: &'a [String]) -> Result<Option<Command<'a>>, Memory>
    ensures some { IfOk result (λ said. IfSome said (AreWordsOf (map string_bytes words.now))) }
    ensures none { IfOk result (λ said. IfNone said (IsOutsideGrammar (map string_bytes words.now))) }
    ensures err { OnErr result (IsInGrammar (map string_bytes words.now)) }
{
    if !is_in_grammar(words) {
        return Ok(None);
    }
    let matches = parse(alloc, words)?;
    let command = said_command(&matches);
    Ok(Some(command))
}

// The command of words that were taken apart.
fn said_command<'a>(matches: &ArgMatches<'a>) -> Command<'a>
    requires { (words : List (List ℕ)) × AreTakenApart words matches.now }
    ensures { (words : List (List ℕ)) → AreTakenApart words matches.now → AreWordsOf words result }
{
    if let Some(run) = matches.subcommand_matches("run") {
        return run_of(run);
    }
    if let Some(mkfs) = matches.subcommand_matches("mkfs") {
        return mkfs_of(mkfs);
    }
    if let Some(check) = matches.subcommand_matches("check") {
        return of_image(ImageCommand::Check, check);
    }
    if let Some(dump) = matches.subcommand_matches("dump") {
        return of_image(ImageCommand::Dump, dump);
    }
    unreachable!()
}

// The run whose names were found.
fn run_of<'a>(found: &ArgMatches<'a>) -> Command<'a>
    requires { (words : List (List ℕ)) × IsRunTaken words (rows_of (found_of found.now)) }
    ensures { (words : List (List ℕ)) → IsRunTaken words (rows_of (found_of found.now)) → AreWordsOf words result }
{
    let volume = value(found, "volume");
    let script = value(found, "script");
    let image = value(found, "image");
    Command::Run {
        volume,
        script,
        image,
    }
}

// The making of an image whose names were found.
fn mkfs_of<'a>(found: &ArgMatches<'a>) -> Command<'a>
    requires { (words : List (List ℕ)) × IsMkfsTaken words (rows_of (found_of found.now)) }
    ensures { (words : List (List ℕ)) → IsMkfsTaken words (rows_of (found_of found.now)) → AreWordsOf words result }
{
    let manifest = value(found, "manifest");
    let image = value(found, "image");
    Command::Mkfs { manifest, image }
}

// The command on an image whose name was found.
fn of_image<'a>(command: ImageCommand, found: &ArgMatches<'a>) -> Command<'a>
    requires { (words : List (List ℕ)) × IsImageTaken words command (rows_of (found_of found.now)) }
    ensures { (words : List (List ℕ)) → IsImageTaken words command (rows_of (found_of found.now)) → AreWordsOf words result }
{
    let image = value(found, "image");
    Command::OfImage { command, image }
}

// The value of a word that was found.
fn value<'a>(found: &ArgMatches<'a>, id: &str) -> &'a str
    requires { (text : List ℕ) × (first_of id.now (rows_of (found_of found.now)) ≡ Some text) }
    ensures { first_of id.now (rows_of (found_of found.now)) ≡ Some result.now }
{
    match found.get_str(id) {
        Some(text) => text,
        None => unreachable!(),
    }
}
