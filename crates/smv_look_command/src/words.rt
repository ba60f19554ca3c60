// What the words of a command line ask for, read by clap.
ghost use Rattle.std.specs.Prelude.{◌≡◌, ◌≤◌, ℕ, Some, codes, is_some, map, option_and_then, true, IfOk};
ghost use Rattle.std.specs.String.{string_bytes};
ghost use Rattle.clap.specs.Matches.{found_of};
ghost use Rattle.clap.specs.Walk.{first_of, rows_of};
ghost use Rattle.clap.specs.Simple.{subcommand_rows_of};
ghost use Rattle.smv_command.specs.Commands.{budgets_in, number, number_in};
ghost use Rattle.smv_look_command.specs.Queries.{any_case_in, most_cases, named, query_of};

use crate::Query;
use crate::command_line::smv_look;
use clap::ArgMatches;
use clap::error::ErrorKind;
use smv_core::Name;
use smv_problem::Budgets;
use std::alloc::{AllocError, Global};

/// What the words ask for, or none where clap gives no matches. The words are those behind the program's name.
pub fn query_of(alloc: Global, words: &[String]) -> Result<Option<Query>, AllocError>
    ensures { IfOk result (λ found. found ≡ query_of (map string_bytes words.now)) }
{
    match smv_look(alloc)?.try_get_matches_from(words) {
        Ok(matches) => Ok(Some(query_in(alloc, &matches)?)),
        Err(error) => {
            if error.kind() == ErrorKind::OutOfMemory {
                Err(AllocError)
            } else {
                Ok(None)
            }
        }
    }
}

// The query that the matches name.
fn query_in(alloc: Global, matches: &ArgMatches<'_>) -> Result<Query, AllocError>
    requires { is_some (option_and_then (λ found. named found.0 found.1) (subcommand_rows_of matches.now)) ≡ true }
    ensures { IfOk result (λ query. option_and_then (λ found. named found.0 found.1) (subcommand_rows_of matches.now) ≡ Some query) }
{
    match matches.subcommand() {
        Some((word, inner)) => named(alloc, word, inner),
        None => unreachable!(),
    }
}

// The query of this name, with the values of its matches.
fn named(alloc: Global, word: &str, matches: &ArgMatches<'_>) -> Result<Query, AllocError>
    requires { is_some (named word.now (rows_of (found_of matches.now))) ≡ true }
    ensures { IfOk result (λ query. named word.now (rows_of (found_of matches.now)) ≡ Some query) }
{
    if word == "list" {
        Ok(Query::List)
    } else if word == "cone" {
        let name = text_in(alloc, matches, "NAME")?;
        let case = case_in(matches);
        Ok(Query::Cone { name, case })
    } else if word == "lint" {
        Ok(Query::Lint)
    } else if word == "explain" {
        Ok(Query::Explain)
    } else if word == "sets" {
        let name = text_in(alloc, matches, "NAME")?;
        let case = any_case_in(matches);
        let budgets = budgets_in(matches);
        Ok(Query::Sets {
            name,
            case,
            budgets,
        })
    } else if word == "front" {
        Ok(Query::Front)
    } else if word == "aiger" {
        let name = text_in(alloc, matches, "NAME")?;
        let case = case_in(matches);
        Ok(Query::Aiger { name, case })
    } else {
        unreachable!()
    }
}

// The number of the case.
fn case_in(matches: &ArgMatches<'_>) -> usize
    requires { is_some (number_in most_cases (codes "CASE") (rows_of (found_of matches.now))) ≡ true }
    ensures { number_in most_cases (codes "CASE") (rows_of (found_of matches.now)) ≡ Some result }
{
    match matches.get_one::<u32>("CASE") {
        Some(number) => number as usize,
        None => unreachable!(),
    }
}

// The number of the case, where one is given.
fn any_case_in(matches: &ArgMatches<'_>) -> Option<usize>
    requires { is_some (any_case_in (rows_of (found_of matches.now))) ≡ true }
    ensures { any_case_in (rows_of (found_of matches.now)) ≡ Some result }
{
    match matches.get_str("CASE") {
        Some(word) => Some(case_of(word)),
        None => None,
    }
}

// The number that a word spells.
fn case_of(word: &str) -> usize
    requires { is_some (number most_cases word.now) ≡ true }
    ensures { number most_cases word.now ≡ Some result }
{
    match word.parse::<u32>() {
        Ok(number) => number as usize,
        Err(_) => unreachable!(),
    }
}

// The two budgets.
fn budgets_in(matches: &ArgMatches<'_>) -> Budgets
    requires { is_some (budgets_in (rows_of (found_of matches.now))) ≡ true }
    ensures { budgets_in (rows_of (found_of matches.now)) ≡ Some result }
{
    Budgets {
        nodes: budget_in(matches, "nodes"),
        steps: budget_in(matches, "steps"),
    }
}

// The number of a budget.
fn budget_in(matches: &ArgMatches<'_>, id: &str) -> u32
    requires { (most : ℕ) × (most ≤ 4294967295) × (is_some (number_in most id.now (rows_of (found_of matches.now))) ≡ true) }
    ensures { (most : ℕ) → is_some (number_in most id.now (rows_of (found_of matches.now))) ≡ true → number_in most id.now (rows_of (found_of matches.now)) ≡ Some result }
{
    match matches.get_one::<u32>(id) {
        Some(number) => number,
        None => unreachable!(),
    }
}

// The text of an argument.
fn text_in(alloc: Global, matches: &ArgMatches<'_>, id: &str) -> Result<Name, AllocError>
    requires { is_some (first_of id.now (rows_of (found_of matches.now))) ≡ true }
    ensures { IfOk result (λ text. first_of id.now (rows_of (found_of matches.now)) ≡ Some text) }
{
    match matches.get_str(id) {
        Some(text) => Ok(Name::from_vec(text.as_bytes().to_vec(alloc)?)),
        None => unreachable!(),
    }
}
