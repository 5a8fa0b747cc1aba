//! The commands as clap reads them, made from their rows.
ghost use Rattle.std.specs.Prelude.{◌≡◌, false, IfOk};
ghost use Rattle.clap.specs.Words.{app_of, rule_of};
ghost use Rattle.clap.specs.declared.builder.command.Command.TheViews.{out-Command};
ghost use Rattle.l4_commands.specs.Commands.{rule_of_row, command_of, with_command, l4run_app};

use crate::options::{self, Argument, Takes, Verb};
use crate::texts::{RUN_EXAMPLE, VERSION};
use clap::{Arg, ArgAction, Command, value_parser};
use std::alloc::{AllocError, Global};

fn argument<'a>(alloc: Global, row: &Argument) -> Arg<'a>
    ensures rule { rule_of result ≡ rule_of_row row.now }
    ensures local { result.global ≡ false }
{
    let argument = Arg::new(alloc, row.name).help(row.help);
    match row.takes {
        Takes::Input(value) => argument.value_name(value).required(true),
        Takes::Nothing => argument.long(row.name).action(ArgAction::SetTrue),
        Takes::File(value) | Takes::Text(value) => argument.long(row.name).value_name(value),
        Takes::NeededText(value) => argument.long(row.name).value_name(value).required(true),
        Takes::RefusedText(value) => argument.long(row.name).value_name(value).hide(true),
        Takes::Number { default, is_told } => {
            let number = argument
                .long(row.name)
                .value_name("N")
                .value_parser(value_parser!(u64))
                .hide_default_value(!is_told);
            match default {
                Some(default) => number.default_value(default),
                None => number,
            }
        }
    }
}

fn verb_command<'a>(alloc: Global, verb: &Verb) -> Result<Command<'a>, AllocError>
    ensures app { IfOk result (λ command. app_of command ≡ command_of verb.now) }
    ensures local { IfOk result (λ command. (out-Command command).has_globals ≡ false) }
{
    let mut command = Command::new(alloc, verb.name)
        .about(verb.about)
        .after_help(verb.example);
    for row in verb.arguments {
        command = command.arg(argument(alloc, row))?;
    }
    Ok(command)
}

// The program with one more command.
fn with_verb<'a>(
    alloc: Global,
    program: Command<'a>,
    verb: &Verb,
) -> Result<Command<'a>, AllocError>
    ensures { IfOk result (λ with. app_of with
        ≡ with_command (app_of program.entry) (command_of verb.now)) }
{
    let command = verb_command(alloc, verb)?;
    program.subcommand(command)
}

pub fn l4run_command<'a>(alloc: Global) -> Result<Command<'a>, AllocError>
    ensures { IfOk result (λ command. app_of command ≡ l4run_app) }
{
    let top = Command::new(alloc, "l4run")
        .about("Emulates the Ipc system call of the L4 kernel, version X.2")
        .version(VERSION)
        .after_help(RUN_EXAMPLE)
        .subcommand_required(true);
    let one = with_verb(alloc, top, &options::run())?;
    let two = with_verb(alloc, one, &options::replay())?;
    let three = with_verb(alloc, two, &options::audit())?;
    let four = with_verb(alloc, three, &options::chart())?;
    let five = with_verb(alloc, four, &options::endings())?;
    let six = with_verb(alloc, five, &options::lint())?;
    with_verb(alloc, six, &options::step())
}
