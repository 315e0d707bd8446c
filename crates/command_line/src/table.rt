//! The table of the jobs.
ghost use Rattle.std.specs.Prelude.{◌≡◌, IfOk, codes, false, option_map};
ghost use Rattle.std.specs.Option.{option_map_or};
ghost use Rattle.std.specs.Str.{bytes_eq};
ghost use Rattle.clap.specs.Matches.{found_of};
ghost use Rattle.clap.specs.Walk.{rows_of};
ghost use Rattle.command_line.specs.Table.{job, job_by, IsInRange, explain_of, job_found, job_given, load_of, only, run_of, texts_of};

use crate::command::matches_in;
use crate::job::Job;
use crate::numbers::number_within;
use clap::ArgMatches;
use event_types::{Memory, Text};
use std::alloc::Global;

/// The greatest seed of a load: 2^31-1.
const MOST_SEED: u64 = 2_147_483_647;

/// The most events of a load.
const MOST_EVENTS: u64 = 200_000;

/// The job that the words after the program's name ask for; None exactly where they ask for none.
pub fn job_of(alloc: Global, words: &[&str]) -> Result<Option<Job>, Memory>
    ensures job { IfOk result (λ asked. asked ≡ job (texts_of words.now)) }
    ensures in_range { IfOk result (λ asked. IsInRange asked) }
{
    match matches_in(alloc, &*words)? {
        Some(found) => job_in(alloc, &found),
        None => Ok(None),
    }
}

// The job of what the command found.
fn job_in(alloc: Global, found: &ArgMatches<'_>) -> Result<Option<Job>, Memory>
    ensures { IfOk result (λ asked. asked ≡ job_found (rows_of (found_of found.now))) }
{
    job_given(
        alloc,
        found.get_str("stats"),
        found.get_str("action"),
        found.get_strs("values"),
    )
}

// The job of a flag, an action and its values, each where it was found.
fn job_given(
    alloc: Global,
    stats: Option<&str>,
    action: Option<&str>,
    values: Option<&[&str]>,
) -> Result<Option<Job>, Memory>
    ensures { IfOk result (λ asked. asked ≡ job_given
        (option_map_or (λ text. bytes_eq text (codes "true")) (option_map (λ text. text.now) stats.entry) false)
        (option_map (λ text. text.now) action.entry) (option_map (λ texts. texts_of texts.now) values.entry)) }
{
    let stats = match stats {
        Some(text) => text == "true",
        None => false,
    };
    match (action, values) {
        (Some(action), Some(values)) => job_by(alloc, stats, action, values),
        _ => Ok(None),
    }
}

// The job of a row of the table.
fn job_by(alloc: Global, stats: bool, action: &str, values: &[&str]) -> Result<Option<Job>, Memory>
    ensures { IfOk result (λ asked. asked ≡ job_by stats action.now (texts_of values.now)) }
{
    if action == "run" {
        run(alloc, stats, values)
    } else if stats {
        Ok(None)
    } else if action == "check" {
        Ok(only(alloc, values)?.map(|queries| Job::Check { queries }))
    } else if action == "plan" {
        Ok(only(alloc, values)?.map(|queries| Job::Plan { queries }))
    } else if action == "explain" {
        explain(alloc, values)
    } else if action == "load" {
        Ok(load(values))
    } else {
        Ok(None)
    }
}

// The run of two values.
fn run(alloc: Global, stats: bool, values: &[&str]) -> Result<Option<Job>, Memory>
    ensures { IfOk result (λ asked. asked ≡ run_of stats (texts_of values.now)) }
{
    match values {
        [queries, events] => {
            let queries = Text::make(alloc, queries)?;
            let events = Text::make(alloc, events)?;
            Ok(Some(Job::Run {
                queries,
                events,
                stats,
            }))
        }
        _ => Ok(None),
    }
}

// The explaining of two values.
fn explain(alloc: Global, values: &[&str]) -> Result<Option<Job>, Memory>
    ensures { IfOk result (λ asked. asked ≡ explain_of (texts_of values.now)) }
{
    let [queries, events] = values else {
        return Ok(None);
    };
    let queries = Text::make(alloc, queries)?;
    let events = Text::make(alloc, events)?;
    Ok(Some(Job::Explain { queries, events }))
}

// The load of two values.
fn load(values: &[&str]) -> Option<Job>
    ensures { result ≡ load_of (texts_of values.now) }
{
    match values {
        [seed, events] => {
            let seed = number_within(0, MOST_SEED, seed)?;
            let events = number_within(1, MOST_EVENTS, events)?;
            Some(Job::Load { seed, events })
        }
        _ => None,
    }
}

// The only value.
fn only(alloc: Global, values: &[&str]) -> Result<Option<Text>, Memory>
    ensures { IfOk result (λ value. value ≡ only (texts_of values.now)) }
{
    match values {
        [value] => Ok(Some(Text::make(alloc, value)?)),
        _ => Ok(None),
    }
}
