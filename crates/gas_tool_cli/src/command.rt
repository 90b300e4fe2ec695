//! The commands, for `clap`: the program's command with its subcommands and their options.

ghost use Rattle.std.specs.Prelude.{◌≡◌, [], ◌∷◌, ◌++◌, IfOk, false, true, codes};
ghost use Rattle.clap.specs.declared.builder.command.Command.TheViews.{out-Command as fields_of};
ghost use Rattle.clap.specs.Simple.{on_top};
ghost use Rattle.clap.specs.Words.{App, Rule, Shape, app_of, new_app, rule_of, with_rule, with_subcommand};
ghost use Rattle.gas_tool_cli.specs.Words.{number_rule, option_rule, plan_rules, program_app, run_rules};
ghost use Rattle.gas_tool_cli.specs.Words.{side_rule, subcommand, turns_rule};
ghost use Rattle.gas_tool_cli.specs.Inner.{leaf_app};

use crate::help::{self, Help};
use clap::builder::ValueParser;
use clap::{Arg, ArgAction, Command, value_parser};
use std::alloc::{AllocError, Global};

/// The most columns, and the most rows, of a block.
pub(crate) const MOST_BLOCK_SIDE: u32 = 4096;

// An option `--name VALUE`.
fn option_arg<'a>(
    alloc: Global,
    name: &'a str,
    value_name: &'a str,
    values: ValueParser<'a>,
    help: &'a str,
) -> Arg<'a>
    ensures rule { rule_of result ≡ option_rule name.entry.now values.entry }
    ensures local { result.global ≡ false }
{
    Arg::new(alloc, name)
        .long(name)
        .value_name(value_name)
        .action(ArgAction::Set)
        .value_parser(values)
        .help(help)
}

// An option whose value is a number of 32 bits.
fn number_arg<'a>(alloc: Global, name: &'a str, value_name: &'a str, help: &'a str) -> Arg<'a>
    ensures rule { rule_of result ≡ number_rule name.entry.now }
    ensures local { result.global ≡ false }
{
    option_arg(alloc, name, value_name, value_parser!(u32), help)
}

// An option for the width or the height of blocks.
fn side_arg<'a>(alloc: Global, name: &'a str, value_name: &'a str, help: &'a str) -> Arg<'a>
    ensures rule { rule_of result ≡ side_rule name.entry.now }
    ensures local { result.global ≡ false }
{
    let values = value_parser!(u32).range(1..=i64::from(MOST_BLOCK_SIDE));
    option_arg(alloc, name, value_name, values, help).required(true)
}

fn turns_arg<'a>(alloc: Global) -> Arg<'a>
    ensures rule { rule_of result ≡ turns_rule }
    ensures local { result.global ≡ false }
{
    Arg::new(alloc, "turns")
        .value_name("TURN")
        .action(ArgAction::Append)
        .num_args(0..)
        .value_parser(value_parser!(u32))
        .help("The schedule: who takes a step next, one after another")
}

fn new_command<'a>(alloc: Global, name: &'a str, help: Help) -> Command<'a>
    ensures app { app_of result ≡ new_app name.entry.now }
    ensures local { (fields_of result).has_globals ≡ false }
{
    Command::new(alloc, name)
        .override_usage(help.usage)
        .about(help.about)
        .after_help(help.notes)
}

// The command with one more option, if there is memory for both.
fn with_arg<'a>(
    command: Result<Command<'a>, AllocError>,
    arg: Arg<'a>,
) -> Result<Command<'a>, AllocError>
    requires local_command { IfOk command (λ c. (fields_of c).has_globals ≡ false) }
    requires local_arg { arg.global ≡ false }
    ensures app { (app : App) (rule : Rule) →
        IfOk command.entry (λ c. app_of c ≡ app) → rule_of arg.entry ≡ rule →
        IfOk result (λ r. app_of r ≡ with_rule app rule) }
    ensures local { IfOk result (λ r. (fields_of r).has_globals ≡ false) }
{
    command?.arg(arg)
}

// A command with the options of a plan.
fn plan_command<'a>(alloc: Global, name: &'a str, help: Help) -> Result<Command<'a>, AllocError>
    ensures app { IfOk result (λ r. app_of r ≡ leaf_app (subcommand name.entry.now plan_rules)) }
    ensures local { IfOk result (λ r. (fields_of r).has_globals ≡ false) }
{
    let values = value_parser!(u64);
    let generations = option_arg(alloc, "generations", "G", values, help::GENERATIONS);
    let command = new_command(alloc, name, help);
    let first = with_arg(Ok(command), generations.required(true));
    let second = with_arg(first, number_arg(alloc, "stages", "N", help::STAGES));
    with_arg(second, number_arg(alloc, "capacity", "C", help::CAPACITY))
}

// A command with the options of a run.
fn run_command<'a>(alloc: Global, name: &'a str, help: Help) -> Result<Command<'a>, AllocError>
    ensures app { IfOk result (λ r. app_of r ≡ leaf_app (subcommand name.entry.now run_rules)) }
    ensures local { IfOk result (λ r. (fields_of r).has_globals ≡ false) }
{
    let plan = plan_command(alloc, name, help);
    with_arg(plan, number_arg(alloc, "threads", "T", help::THREADS))
}

fn coarse_command<'a>(alloc: Global) -> Result<Command<'a>, AllocError>
    ensures app { IfOk result (λ r. app_of r ≡ leaf_app (subcommand (codes "coarse") (run_rules
        ++ side_rule (codes "block-width") ∷ side_rule (codes "block-height") ∷ []))) }
    ensures local { IfOk result (λ r. (fields_of r).has_globals ≡ false) }
{
    let run = run_command(alloc, "coarse", help::COARSE);
    let width = side_arg(alloc, "block-width", "BW", help::BLOCK_WIDTH);
    let height = side_arg(alloc, "block-height", "BH", help::BLOCK_HEIGHT);
    let wide = with_arg(run, width);
    with_arg(wide, height)
}

fn replay_command<'a>(alloc: Global) -> Result<Command<'a>, AllocError>
    ensures app { IfOk result (λ r. app_of r ≡ leaf_app (subcommand (codes "replay")
        (plan_rules ++ turns_rule ∷ []))) }
    ensures local { IfOk result (λ r. (fields_of r).has_globals ≡ false) }
{
    let plan = plan_command(alloc, "replay", help::REPLAY);
    with_arg(plan, turns_arg(alloc))
}

// The program's command without its subcommands.
fn top_command<'a>(alloc: Global) -> Command<'a>
    ensures { app_of result ≡ on_top
        (λ s. record s { subcommand_required = true; has_version = true })
        (new_app (codes "fhpgas")) }
{
    new_command(alloc, "fhpgas", help::PROGRAM)
        .version(help::VERSION)
        .subcommand_required(true)
}

// The command with one more subcommand, if there is memory for both.
fn with_command<'a>(
    command: Result<Command<'a>, AllocError>,
    added: Result<Command<'a>, AllocError>,
) -> Result<Command<'a>, AllocError>
    requires local { IfOk added (λ a. (fields_of a).has_globals ≡ false) }
    ensures app { (app : App) (shape : Shape) →
        IfOk command.entry (λ c. app_of c ≡ app) →
        IfOk added.entry (λ a. app_of a ≡ leaf_app shape) →
        IfOk result (λ r. app_of r ≡ with_subcommand app shape) }
{
    command?.subcommand(added?)
}

pub(crate) fn program_command<'a>(alloc: Global) -> Result<Command<'a>, AllocError>
    ensures { IfOk result (λ r. app_of r ≡ program_app) }
{
    let check = new_command(alloc, "check", help::CHECK);
    let checks = with_command(Ok(top_command(alloc)), Ok(check));
    let runs = with_command(checks, run_command(alloc, "run", help::RUN));
    let tables = with_command(runs, coarse_command(alloc));
    with_command(tables, replay_command(alloc))
}
