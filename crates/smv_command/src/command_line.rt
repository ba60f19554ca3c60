// The command line as clap is told of it.
ghost use Rattle.std.specs.Prelude.{◌≡◌, [], IfOk};
ghost use Rattle.clap.specs.Simple.{app_of};
ghost use Rattle.smv_command.specs.Built.{HasShape, HasRule};
ghost use Rattle.smv_command.specs.CommandLine as line;

use clap::{Arg, Command, value_parser};
use std::alloc::{AllocError, Global};

// The command line: one subcommand, which is required.
pub(crate) fn smv<'a>(alloc: Global) -> Result<Command<'a>, AllocError>
    ensures { IfOk result (λ command. app_of command ≡ line.smv) }
{
    bare(alloc)
        .subcommand(prove(alloc)?)?
        .subcommand(only(alloc)?)?
        .subcommand(Command::new(alloc, "print"))?
        .subcommand(generated(alloc)?)?
        .subcommand(proof(alloc)?)?
        .subcommand(Command::new(alloc, "check"))?
        .subcommand(resume(alloc)?)?
        .subcommand(confirm(alloc)?)?
        .subcommand(induct(alloc)?)?
        .subcommand(ltl(alloc)?)
}

// The command before its subcommands.
fn bare<'a>(alloc: Global) -> Command<'a>
    ensures { app_of result ≡ record { top = line.bare; subs = [] } }
{
    Command::new(alloc, "smv")
        .no_binary_name(true)
        .disable_help_flag(true)
        .disable_help_subcommand(true)
        .disable_version_flag(true)
        .subcommand_required(true)
}

fn prove<'a>(alloc: Global) -> Result<Command<'a>, AllocError>
    ensures { IfOk result (HasShape line.prove) }
{
    Command::new(alloc, "prove")
        .arg(bits(alloc))?
        .arg(nodes(alloc))?
        .arg(steps(alloc))
}

fn only<'a>(alloc: Global) -> Result<Command<'a>, AllocError>
    ensures { IfOk result (HasShape line.only) }
{
    Command::new(alloc, "only")
        .arg(name(alloc))?
        .arg(bits(alloc))?
        .arg(nodes(alloc))?
        .arg(steps(alloc))
}

fn generated<'a>(alloc: Global) -> Result<Command<'a>, AllocError>
    ensures { IfOk result (HasShape line.generated) }
{
    Command::new(alloc, "generated").arg(copies(alloc))
}

fn proof<'a>(alloc: Global) -> Result<Command<'a>, AllocError>
    ensures { IfOk result (HasShape line.proof) }
{
    Command::new(alloc, "proof")
        .arg(nodes(alloc))?
        .arg(steps(alloc))
}

fn resume<'a>(alloc: Global) -> Result<Command<'a>, AllocError>
    ensures { IfOk result (HasShape line.resume) }
{
    Command::new(alloc, "resume")
        .arg(nodes(alloc))?
        .arg(steps(alloc))
}

fn confirm<'a>(alloc: Global) -> Result<Command<'a>, AllocError>
    ensures { IfOk result (HasShape line.confirm) }
{
    Command::new(alloc, "confirm")
        .arg(name(alloc))?
        .arg(sizes(alloc))?
        .arg(bits(alloc))?
        .arg(nodes(alloc))?
        .arg(steps(alloc))
}

fn induct<'a>(alloc: Global) -> Result<Command<'a>, AllocError>
    ensures { IfOk result (HasShape line.induct) }
{
    Command::new(alloc, "induct")
        .arg(name(alloc))?
        .arg(var(alloc))?
        .arg(nodes(alloc))?
        .arg(steps(alloc))
}

fn ltl<'a>(alloc: Global) -> Result<Command<'a>, AllocError>
    ensures { IfOk result (HasShape line.ltl) }
{
    Command::new(alloc, "ltl")
        .arg(bits(alloc))?
        .arg(nodes(alloc))?
        .arg(steps(alloc))
}

fn name<'a>(alloc: Global) -> Arg<'a>
    ensures { HasRule line.name result }
{
    Arg::new(alloc, "NAME").required(true)
}

fn var<'a>(alloc: Global) -> Arg<'a>
    ensures { HasRule line.var result }
{
    Arg::new(alloc, "VAR").required(true)
}

fn copies<'a>(alloc: Global) -> Arg<'a>
    ensures { HasRule line.copies result }
{
    Arg::new(alloc, "N")
        .required(true)
        .value_parser(value_parser!(u32).range(1..=200))
}

fn sizes<'a>(alloc: Global) -> Arg<'a>
    ensures { HasRule line.sizes result }
{
    Arg::new(alloc, "SIZE")
        .num_args(1..)
        .value_parser(value_parser!(u32).range(1..=256))
}

fn bits<'a>(alloc: Global) -> Arg<'a>
    ensures { HasRule line.bits result }
{
    Arg::new(alloc, "bits").long("bits").default_value("near")
}

fn nodes<'a>(alloc: Global) -> Arg<'a>
    ensures { HasRule line.nodes result }
{
    Arg::new(alloc, "nodes")
        .long("nodes")
        .value_parser(value_parser!(u32).range(1..=16_777_216))
        .default_value("1000000")
}

fn steps<'a>(alloc: Global) -> Arg<'a>
    ensures { HasRule line.steps result }
{
    Arg::new(alloc, "steps")
        .long("steps")
        .value_parser(value_parser!(u32).range(1..=100_000))
        .default_value("1000")
}
