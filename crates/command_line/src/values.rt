//! The values that clap found.

ghost use Rattle.std.specs.Prelude.{◌≡◌, ◌≤◌, ℕ};
ghost use Rattle.clap.specs.Words.{found_of, rows_of};
ghost use Rattle.command_line.specs.Requests as spec;

use clap::ArgMatches;
use vm_model::{MOST_EVENTS, MOST_LANES, MOST_TESTS};

/// The text of an argument.
pub(crate) fn text_in<'a>(matches: &ArgMatches<'a>, id: &str) -> &'a str
    ensures { result.now ≡ spec.text_in id.now (rows_of (found_of matches.now)) }
{
    match matches.get_str(id) {
        Some(text) => text,
        None => "",
    }
}

/// The number that a text spells, from the one to the other.
fn spelled(text: &str, least: u64, most: u64) -> u64
    requires { least ≤ most }
    ensures value { result ≡ spec.spelled least most text.now }
    ensures low { least ≤ result }
    ensures high { result ≤ most }
{
    match text.parse::<u64>() {
        Ok(number) => {
            if number < least || most < number {
                least
            } else {
                number
            }
        }
        Err(_) => least,
    }
}

/// The number of an argument.
pub(crate) fn number_in<'a>(matches: &ArgMatches<'a>, id: &str, least: u64, most: u64) -> u64
    requires { least ≤ most }
    ensures value { result ≡ spec.number_in id.now least most (rows_of (found_of matches.now)) }
    ensures low { least ≤ result }
    ensures high { result ≤ most }
{
    spelled(text_in(matches, id), least, most)
}

/// How many events a run may make.
pub(crate) fn events_in<'a>(matches: &ArgMatches<'a>) -> u64
    ensures value { result ≡ spec.events_in (rows_of (found_of matches.now)) }
    ensures low { 1 ≤ result }
    ensures high { result ≤ MOST_EVENTS }
{
    number_in(matches, "events", 1, MOST_EVENTS)
}

/// On how many lanes a program runs.
pub(crate) fn lanes_in<'a>(matches: &ArgMatches<'a>) -> u64
    ensures value { result ≡ spec.lanes_in (rows_of (found_of matches.now)) }
    ensures low { 1 ≤ result }
    ensures high { result ≤ MOST_LANES }
{
    number_in(matches, "lanes", 1, u64::from(MOST_LANES))
}

/// How many tests a search may ask for.
pub(crate) fn tests_in<'a>(matches: &ArgMatches<'a>) -> u64
    ensures value { result ≡ spec.tests_in (rows_of (found_of matches.now)) }
    ensures low { 1 ≤ result }
    ensures high { result ≤ MOST_TESTS }
{
    number_in(matches, "tests", 1, MOST_TESTS)
}
