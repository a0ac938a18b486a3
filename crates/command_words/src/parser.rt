// The command line as `clap` takes it apart.

ghost use Rattle.std.specs.Prelude.{◌≡◌, IfOk, [], codes, false, true, map};
ghost use Rattle.std.specs.String.{string_bytes};
ghost use Rattle.clap.specs.Words.{Shape, app_of, rule_of, with_subcommand};
ghost use Rattle.command_words.specs.Words.{IsInGrammar};
ghost use Rattle.command_words.specs.Parser.{AreTakenApart, IsSubcommand, image_shape, mkfs_shape, program_app, program_shape, run_shape, word_rule};

use clap::error::ErrorKind;
use clap::{Arg, ArgMatches, Command as Parser};
use std::alloc::{AllocError, Global};
use ubifs_base::Memory;

// Takes words of the grammar apart. A refusal is want of memory.
pub(crate) fn parse<'a>(alloc: Global, words: &'a [String]) -> Result<ArgMatches<'a>, Memory>
    requires { IsInGrammar (map string_bytes words.now) }
    ensures { IfOk result (AreTakenApart (map string_bytes words.now)) }
{
    let program = program(alloc)?;
    match program.try_get_matches_from(words) {
        Ok(matches) => Ok(matches),
        Err(error) => match error.kind() {
            ErrorKind::OutOfMemory => Err(Memory),
            _ => unreachable!(),
        },
    }
}

// The program, each command of which is a subcommand with required words.
fn program<'a>(alloc: Global) -> Result<Parser<'a>, AllocError>
    ensures { IfOk result (λ program. app_of program ≡ program_app) }
{
    let program = with_command(bare(alloc), run(alloc))?;
    let program = with_command(program, mkfs(alloc))?;
    let program = with_command(program, of_image(alloc, "check"))?;
    with_command(program, of_image(alloc, "dump"))
}

// The program without its commands.
fn bare<'a>(alloc: Global) -> Parser<'a>
    ensures { app_of result ≡ record { top = record program_shape { is_leaf = true }; subs = [] } }
{
    Parser::new(alloc, "ubifs")
        .no_binary_name(true)
        .disable_help_flag(true)
        .disable_help_subcommand(true)
}

// Adds a command, if there was memory for it.
fn with_command<'a>(
    program: Parser<'a>,
    command: Result<Parser<'a>, AllocError>,
) -> Result<Parser<'a>, AllocError>
    ensures { (shape : Shape) → IfOk command.entry (IsSubcommand shape) → IfOk result (λ made. app_of made ≡ with_subcommand (app_of program.entry) shape) }
{
    let command = command?;
    program.subcommand(command)
}

fn run<'a>(alloc: Global) -> Result<Parser<'a>, AllocError>
    ensures { IfOk result (IsSubcommand run_shape) }
{
    Parser::new(alloc, "run")
        .arg(word(alloc, "volume"))?
        .arg(word(alloc, "script"))?
        .arg(word(alloc, "image"))
}

fn mkfs<'a>(alloc: Global) -> Result<Parser<'a>, AllocError>
    ensures { IfOk result (IsSubcommand mkfs_shape) }
{
    Parser::new(alloc, "mkfs")
        .arg(word(alloc, "manifest"))?
        .arg(word(alloc, "image"))
}

// A command on an image.
fn of_image<'a>(alloc: Global, name: &'a str) -> Result<Parser<'a>, AllocError>
    ensures { IfOk result (IsSubcommand (image_shape name.entry.now)) }
{
    Parser::new(alloc, name).arg(word(alloc, "image"))
}

// A required word.
fn word<'a>(alloc: Global, id: &'a str) -> Arg<'a>
    ensures { (rule_of result ≡ word_rule id.entry.now) × (result.global ≡ false) }
{
    Arg::new(alloc, id).required(true)
}
