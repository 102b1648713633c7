// The command line, as `clap` reads it: one command, of which one subcommand is required.
ghost use Rattle.std.specs.Prelude.{◌≡◌, IfOk, false};
ghost use Rattle.clap.specs.Words.{app_of, rule_of};
ghost use Rattle.clap.specs.declared.builder.command.Command.TheViews.{out-Command};
ghost use Rattle.flatstore_commands.specs.Commands.{number_rule, number_word_rule, word_rule, audit_command, load_command, region_command, format_command, bare_program, writing_program, running_program, reading_program, program};

use clap::{Arg, Command, value_parser};
use std::alloc::{AllocError, Global};

/// A required word.
fn word<'a>(alloc: Global, name: &'a str) -> Arg<'a>
    ensures rule { rule_of result ≡ word_rule name.entry.now }
    ensures local { result.global ≡ false }
{
    Arg::new(alloc, name).required(true)
}

/// A required option with a number of 64 bits.
fn number<'a>(alloc: Global, name: &'a str) -> Arg<'a>
    ensures rule { rule_of result ≡ number_rule name.entry.now }
    ensures local { result.global ≡ false }
{
    Arg::new(alloc, name)
        .long(name)
        .required(true)
        .value_parser(value_parser!(u64))
}

/// A subcommand with the path of a region.
fn region_command<'a>(alloc: Global, name: &'a str) -> Result<Command<'a>, AllocError>
    ensures app { IfOk result (λ c. app_of c ≡ region_command name.entry.now) }
    ensures local { IfOk result (λ c. (out-Command c).has_globals ≡ false) }
{
    Command::new(alloc, name).arg(word(alloc, "region"))
}

/// A required word that is a number of 64 bits.
fn number_word<'a>(alloc: Global, name: &'a str) -> Arg<'a>
    ensures rule { rule_of result ≡ number_word_rule name.entry.now }
    ensures local { result.global ≡ false }
{
    Arg::new(alloc, name)
        .required(true)
        .value_parser(value_parser!(u64))
}

/// A subcommand with the path of a region and how many workers there are to be.
fn audit_command<'a>(alloc: Global) -> Result<Command<'a>, AllocError>
    ensures app { IfOk result (λ c. app_of c ≡ audit_command) }
    ensures local { IfOk result (λ c. (out-Command c).has_globals ≡ false) }
{
    region_command(alloc, "audit")?.arg(number_word(alloc, "workers"))
}

/// A subcommand with the path of a region, the number at which a load begins and how many requests it has.
fn load_command<'a>(alloc: Global) -> Result<Command<'a>, AllocError>
    ensures app { IfOk result (λ c. app_of c ≡ load_command) }
    ensures local { IfOk result (λ c. (out-Command c).has_globals ≡ false) }
{
    region_command(alloc, "load")?
        .arg(number_word(alloc, "start"))?
        .arg(number_word(alloc, "count"))
}

fn format_command<'a>(alloc: Global) -> Result<Command<'a>, AllocError>
    ensures app { IfOk result (λ c. app_of c ≡ format_command) }
    ensures local { IfOk result (λ c. (out-Command c).has_globals ≡ false) }
{
    region_command(alloc, "format")?
        .arg(number(alloc, "cores"))?
        .arg(number(alloc, "group"))?
        .arg(number(alloc, "chunks"))?
        .arg(number(alloc, "chunk-bytes"))
}

/// The command without its subcommands.
fn bare_program<'a>(alloc: Global) -> Command<'a>
    ensures app { app_of result ≡ bare_program }
    ensures local { (out-Command result).has_globals ≡ false }
{
    Command::new(alloc, "flatstore").subcommand_required(true)
}

/// The command with the subcommands that make a region and replay a trace.
fn writing_program<'a>(alloc: Global) -> Result<Command<'a>, AllocError>
    ensures app { IfOk result (λ c. app_of c ≡ writing_program) }
{
    bare_program(alloc)
        .subcommand(format_command(alloc)?)?
        .subcommand(region_command(alloc, "replay")?)
}

/// The command with the subcommands whose cores run on threads, too.
fn running_program<'a>(alloc: Global) -> Result<Command<'a>, AllocError>
    ensures app { IfOk result (λ c. app_of c ≡ running_program) }
{
    writing_program(alloc)?
        .subcommand(region_command(alloc, "run")?)?
        .subcommand(load_command(alloc)?)
}

/// The command with the subcommands that show a region, too.
fn reading_program<'a>(alloc: Global) -> Result<Command<'a>, AllocError>
    ensures app { IfOk result (λ c. app_of c ≡ reading_program) }
{
    running_program(alloc)?
        .subcommand(region_command(alloc, "dump")?)?
        .subcommand(region_command(alloc, "log")?)
}

/// The command of the program.
pub fn program<'a>(alloc: Global) -> Result<Command<'a>, AllocError>
    ensures app { IfOk result (λ c. app_of c ≡ program) }
{
    reading_program(alloc)?
        .subcommand(region_command(alloc, "scan")?)?
        .subcommand(audit_command(alloc)?)
}
