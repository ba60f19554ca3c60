// The command that the words of a command line are, read by clap.
ghost use Rattle.std.specs.Prelude.{◌≡◌, ◌≤◌, ℕ, Some, is_some, map, option_and_then, option_map, false, true, IfOk};
ghost use Rattle.std.specs.String.{string_bytes};
ghost use Rattle.clap.specs.Matches.{found_of};
ghost use Rattle.clap.specs.Walk.{first_of, rows_of, texts};
ghost use Rattle.clap.specs.Simple.{subcommand_rows_of};
ghost use Rattle.smv_command.specs.declared.commands.Command.TheVariants.{Prove, Only, Confirm, Induct, Ltl};
ghost use Rattle.smv_command.specs.Built.{IsGiven};
ghost use Rattle.smv_command.specs.Ranges.{most_size};
ghost use Rattle.smv_command.specs.Commands.{bits_in, bits_named, both, budgets_in, command_of, misnames, name_in, named, number, number_in, numbers, sizes_in, var_in};

use crate::Command;
use crate::command_line::smv;
use clap::ArgMatches;
use clap::error::ErrorKind;
use smv_bits::Bits;
use smv_core::{Name, Seq};
use smv_problem::Budgets;
use std::alloc::{AllocError, Global};

/// The command that the words are, or none where clap gives no matches, or where bits are named by none of their words. The words are those behind the program's name.
pub fn command_of(alloc: Global, words: &[String]) -> Result<Option<Command>, AllocError>
    ensures { IfOk result (λ found. found ≡ command_of (map string_bytes words.now)) }
{
    match smv(alloc)?.try_get_matches_from(words) {
        Ok(matches) => command_in(alloc, &matches),
        Err(error) => {
            if error.kind() == ErrorKind::OutOfMemory {
                Err(AllocError)
            } else {
                Ok(None)
            }
        }
    }
}

// The command that the matches name, or none where it names its bits by none of their words.
fn command_in(alloc: Global, matches: &ArgMatches<'_>) -> Result<Option<Command>, AllocError>
    requires { IsGiven (subcommand_rows_of matches.now) }
    ensures { IfOk result (λ found. option_and_then (λ found. named found.0 found.1) (subcommand_rows_of matches.now) ≡ found) }
{
    match matches.subcommand() {
        Some((word, inner)) => named(alloc, word, inner),
        None => unreachable!(),
    }
}

// The command of this name, with the values of its matches, or none where it names its bits by none of their words.
fn named(alloc: Global, word: &str, matches: &ArgMatches<'_>) -> Result<Option<Command>, AllocError>
    requires { misnames word.now (rows_of (found_of matches.now)) ≡ false → is_some (named word.now (rows_of (found_of matches.now))) ≡ true }
    ensures { IfOk result (λ found. named word.now (rows_of (found_of matches.now)) ≡ found) }
{
    if word == "prove" {
        Ok(prove_in(matches))
    } else if word == "only" {
        only_in(alloc, matches)
    } else if word == "print" {
        Ok(Some(Command::Print))
    } else if word == "generated" {
        let copies = number_in(matches, "N") as u16;
        Ok(Some(Command::Generated { copies }))
    } else if word == "proof" {
        let budgets = budgets_in(matches);
        Ok(Some(Command::Proof { budgets }))
    } else if word == "check" {
        Ok(Some(Command::Check))
    } else if word == "resume" {
        let budgets = budgets_in(matches);
        Ok(Some(Command::Resume { budgets }))
    } else if word == "confirm" {
        confirm_in(alloc, matches)
    } else if word == "induct" {
        let command = induct_in(alloc, matches)?;
        Ok(Some(command))
    } else if word == "ltl" {
        Ok(ltl_in(matches))
    } else {
        unreachable!()
    }
}

// The command that decides all units, or none where it names its bits by none of their words.
fn prove_in(matches: &ArgMatches<'_>) -> Option<Command>
    requires { is_some (bits_in (rows_of (found_of matches.now))) ≡ true → is_some (budgets_in (rows_of (found_of matches.now))) ≡ true }
    ensures { result ≡ option_map (λ p. Prove p.0 p.1) (both (bits_in (rows_of (found_of matches.now))) (budgets_in (rows_of (found_of matches.now)))) }
{
    match bits_in(matches) {
        Some(bits) => {
            let budgets = budgets_in(matches);
            Some(Command::Prove { bits, budgets })
        }
        None => None,
    }
}

// The command that decides all units of the translated text, or none where it names its bits by none of their words.
fn ltl_in(matches: &ArgMatches<'_>) -> Option<Command>
    requires { is_some (bits_in (rows_of (found_of matches.now))) ≡ true → is_some (budgets_in (rows_of (found_of matches.now))) ≡ true }
    ensures { result ≡ option_map (λ p. Ltl p.0 p.1) (both (bits_in (rows_of (found_of matches.now))) (budgets_in (rows_of (found_of matches.now)))) }
{
    match bits_in(matches) {
        Some(bits) => {
            let budgets = budgets_in(matches);
            Some(Command::Ltl { bits, budgets })
        }
        None => None,
    }
}

// The command that decides the unit of a name, or none where it names its bits by none of their words.
fn only_in(alloc: Global, matches: &ArgMatches<'_>) -> Result<Option<Command>, AllocError>
    requires name { is_some (bits_in (rows_of (found_of matches.now))) ≡ true → is_some (name_in (rows_of (found_of matches.now))) ≡ true }
    requires budgets { is_some (bits_in (rows_of (found_of matches.now))) ≡ true → is_some (budgets_in (rows_of (found_of matches.now))) ≡ true }
    ensures { IfOk result (λ found. option_map (λ p. Only p.0 p.1.0 p.1.1) (both (name_in (rows_of (found_of matches.now))) (both (bits_in (rows_of (found_of matches.now))) (budgets_in (rows_of (found_of matches.now))))) ≡ found) }
{
    match bits_in(matches) {
        Some(bits) => {
            let name = text_in(alloc, matches, "NAME")?;
            let budgets = budgets_in(matches);
            Ok(Some(Command::Only {
                name,
                bits,
                budgets,
            }))
        }
        None => Ok(None),
    }
}

// The command that decides the unit of a name at given sizes, or none where it names its bits by none of their words.
fn confirm_in(alloc: Global, matches: &ArgMatches<'_>) -> Result<Option<Command>, AllocError>
    requires name { is_some (bits_in (rows_of (found_of matches.now))) ≡ true → is_some (name_in (rows_of (found_of matches.now))) ≡ true }
    requires sizes { is_some (bits_in (rows_of (found_of matches.now))) ≡ true → is_some (sizes_in (rows_of (found_of matches.now))) ≡ true }
    requires budgets { is_some (bits_in (rows_of (found_of matches.now))) ≡ true → is_some (budgets_in (rows_of (found_of matches.now))) ≡ true }
    ensures { IfOk result (λ found. option_map (λ p. Confirm p.0 p.1.0 p.1.1.0 p.1.1.1) (both (name_in (rows_of (found_of matches.now))) (both (sizes_in (rows_of (found_of matches.now))) (both (bits_in (rows_of (found_of matches.now))) (budgets_in (rows_of (found_of matches.now)))))) ≡ found) }
{
    match bits_in(matches) {
        Some(bits) => {
            let name = text_in(alloc, matches, "NAME")?;
            let sizes = sizes_in(alloc, matches)?;
            let budgets = budgets_in(matches);
            Ok(Some(Command::Confirm {
                name,
                sizes,
                bits,
                budgets,
            }))
        }
        None => Ok(None),
    }
}

// The command that proves by induction on a claim and a parameter of it.
fn induct_in(alloc: Global, matches: &ArgMatches<'_>) -> Result<Command, AllocError>
    requires name { is_some (name_in (rows_of (found_of matches.now))) ≡ true }
    requires var { is_some (var_in (rows_of (found_of matches.now))) ≡ true }
    requires budgets { is_some (budgets_in (rows_of (found_of matches.now))) ≡ true }
    ensures { IfOk result (λ command. option_map (λ p. Induct p.0 p.1.0 p.1.1) (both (name_in (rows_of (found_of matches.now))) (both (var_in (rows_of (found_of matches.now))) (budgets_in (rows_of (found_of matches.now))))) ≡ Some command) }
{
    let name = text_in(alloc, matches, "NAME")?;
    let var = text_in(alloc, matches, "VAR")?;
    let budgets = budgets_in(matches);
    Ok(Command::Induct { name, var, budgets })
}

// The bits of a command, or none where they are named by none of their words.
fn bits_in(matches: &ArgMatches<'_>) -> Option<Bits>
    ensures { result ≡ bits_in (rows_of (found_of matches.now)) }
{
    match matches.get_str("bits") {
        Some(word) => bits_named(word),
        None => None,
    }
}

// The bits that a word names.
fn bits_named(word: &str) -> Option<Bits>
    ensures { result ≡ bits_named word.now }
{
    if word == "near" {
        Some(Bits::Near)
    } else if word == "declared" {
        Some(Bits::Declared)
    } else {
        None
    }
}

// The two budgets of a command.
fn budgets_in(matches: &ArgMatches<'_>) -> Budgets
    requires { is_some (budgets_in (rows_of (found_of matches.now))) ≡ true }
    ensures { budgets_in (rows_of (found_of matches.now)) ≡ Some result }
{
    Budgets {
        nodes: number_in(matches, "nodes"),
        steps: number_in(matches, "steps"),
    }
}

// The sizes, of which there may be none.
fn sizes_in(alloc: Global, matches: &ArgMatches<'_>) -> Result<Seq<u16>, AllocError>
    requires { is_some (sizes_in (rows_of (found_of matches.now))) ≡ true }
    ensures { IfOk result (λ sizes. sizes_in (rows_of (found_of matches.now)) ≡ Some sizes) }
{
    match matches.get_raw("SIZE") {
        Some(words) => sizes_of(alloc, words),
        None => Ok(Seq::new(alloc)),
    }
}

// The sizes that texts spell.
fn sizes_of(alloc: Global, words: &[&str]) -> Result<Seq<u16>, AllocError>
    requires { is_some (numbers most_size (texts words.now)) ≡ true }
    ensures { IfOk result (λ sizes. numbers most_size (texts words.now) ≡ Some sizes) }
{
    let mut sizes = Seq::new(alloc);
    for word in words {
        sizes.push(size_of(word))?;
    }
    Ok(sizes)
}

// The size that a text spells.
fn size_of(word: &str) -> u16
    requires { is_some (number most_size word.now) ≡ true }
    ensures { number most_size word.now ≡ Some result }
{
    match word.parse::<u16>() {
        Ok(size) => size,
        Err(_) => unreachable!(),
    }
}

// The number of an argument.
fn number_in(matches: &ArgMatches<'_>, id: &str) -> u32
    requires { (most : ℕ) × (most ≤ 4294967295) × (is_some (number_in most id.now (rows_of (found_of matches.now))) ≡ true) }
    ensures { (most : ℕ) → is_some (number_in most id.now (rows_of (found_of matches.now))) ≡ true → number_in most id.now (rows_of (found_of matches.now)) ≡ Some result }
{
    match matches.get_one::<u32>(id) {
        Some(number) => number,
        None => unreachable!(),
    }
}

// The text of an argument.
fn text_in(alloc: Global, matches: &ArgMatches<'_>, id: &str) -> Result<Name, AllocError>
    requires { is_some (first_of id.now (rows_of (found_of matches.now))) ≡ true }
    ensures { IfOk result (λ text. first_of id.now (rows_of (found_of matches.now)) ≡ Some text) }
{
    match matches.get_str(id) {
        Some(text) => Ok(Name::from_vec(text.as_bytes().to_vec(alloc)?)),
        None => unreachable!(),
    }
}
