// The command line as clap is told of it.
ghost use Rattle.std.specs.Prelude.{◌≡◌, [], IfOk};
ghost use Rattle.clap.specs.Simple.{app_of};
ghost use Rattle.smv_command.specs.Built.{HasShape, HasRule};
ghost use Rattle.smv_command.specs.CommandLine as smv;
ghost use Rattle.smv_look_command.specs.CommandLine as line;

use clap::{Arg, Command, value_parser};
use std::alloc::{AllocError, Global};

// The command line: one subcommand, which is required.
pub(crate) fn smv_look<'a>(alloc: Global) -> Result<Command<'a>, AllocError>
    ensures { IfOk result (λ command. app_of command ≡ line.smv_look) }
{
    bare(alloc)
        .subcommand(Command::new(alloc, "list"))?
        .subcommand(cone(alloc)?)?
        .subcommand(Command::new(alloc, "lint"))?
        .subcommand(Command::new(alloc, "explain"))?
        .subcommand(sets(alloc)?)?
        .subcommand(Command::new(alloc, "front"))?
        .subcommand(aiger(alloc)?)
}

// The command before its subcommands.
fn bare<'a>(alloc: Global) -> Command<'a>
    ensures { app_of result ≡ record { top = line.bare; subs = [] } }
{
    Command::new(alloc, "smv_look")
        .no_binary_name(true)
        .disable_help_flag(true)
        .disable_help_subcommand(true)
        .disable_version_flag(true)
        .subcommand_required(true)
}

fn cone<'a>(alloc: Global) -> Result<Command<'a>, AllocError>
    ensures { IfOk result (HasShape line.cone) }
{
    Command::new(alloc, "cone")
        .arg(name(alloc))?
        .arg(case(alloc))
}

fn sets<'a>(alloc: Global) -> Result<Command<'a>, AllocError>
    ensures { IfOk result (HasShape line.sets) }
{
    Command::new(alloc, "sets")
        .arg(name(alloc))?
        .arg(any_case(alloc))?
        .arg(nodes(alloc))?
        .arg(steps(alloc))
}

fn aiger<'a>(alloc: Global) -> Result<Command<'a>, AllocError>
    ensures { IfOk result (HasShape line.aiger) }
{
    Command::new(alloc, "aiger")
        .arg(name(alloc))?
        .arg(case(alloc))
}

fn name<'a>(alloc: Global) -> Arg<'a>
    ensures { HasRule line.name result }
{
    Arg::new(alloc, "NAME").required(true)
}

fn case<'a>(alloc: Global) -> Arg<'a>
    ensures { HasRule line.case result }
{
    Arg::new(alloc, "CASE")
        .value_parser(value_parser!(u32).range(1..=4096))
        .default_value("1")
}

fn any_case<'a>(alloc: Global) -> Arg<'a>
    ensures { HasRule line.any_case result }
{
    Arg::new(alloc, "CASE").value_parser(value_parser!(u32).range(1..=4096))
}

fn nodes<'a>(alloc: Global) -> Arg<'a>
    ensures { HasRule smv.nodes result }
{
    Arg::new(alloc, "nodes")
        .long("nodes")
        .value_parser(value_parser!(u32).range(1..=16_777_216))
        .default_value("1000000")
}

fn steps<'a>(alloc: Global) -> Arg<'a>
    ensures { HasRule smv.steps result }
{
    Arg::new(alloc, "steps")
        .long("steps")
        .value_parser(value_parser!(u32).range(1..=100_000))
        .default_value("1000")
}
