//! What the words ask for.

ghost use Rattle.std.specs.Prelude.{◌≡◌, ◌≤◌, ◌<◌, ℕ, List, IfOk, map, string_bytes};
ghost use Rattle.clap.specs.Words.{found_of, rows_of};
ghost use Rattle.command_line.specs.Commands as commands;
ghost use Rattle.command_line.specs.Plain.{IsWithin, plain_command, Reads};
ghost use Rattle.command_line.specs.Requests.{request_for, request_of, request_with};
ghost use Rattle.command_line.specs.Words.{plain_word};

use crate::apps::{Word, app_for, word_in};
use crate::values::{events_in, lanes_in, number_in, tests_in, text_in};
use clap::ArgMatches;
use clap::error::ErrorKind;
use std::alloc::Global;
use vm_model::{MOST_DRILL_WORKERS, MOST_EVENTS, MOST_TRIES, MOST_WORKERS, NoMemory};

/// What the words of the command line ask for. The texts are names of files. `events` is the greatest number of events of a
/// run, from 1 to 1,048,576; `lanes` is how many processors carry the program's threads, from 1 to 16.
#[derive(Clone, Copy, Debug)]
pub enum Command<'a> {
    /// To tell how much the program of this file has.
    Check {
        program: &'a str,
    },
    /// To run the program of this file on so many lanes and store its log under that name.
    Record {
        program: &'a str,
        log: &'a str,
        lanes: u64,
        events: u64,
    },
    /// To run the program of this file on so many lanes by the log of that one.
    Replay {
        program: &'a str,
        log: &'a str,
        lanes: u64,
    },
    /// To print the state after the log's events below the clock, from 0 to 1,048,576.
    Show {
        program: &'a str,
        log: &'a str,
        clock: u64,
    },
    /// To store the schedule that gives the log's run.
    Derive {
        program: &'a str,
        log: &'a str,
        schedule: &'a str,
    },
    /// To run the program by the schedule of that file.
    Run {
        program: &'a str,
        schedule: &'a str,
        events: u64,
    },
    /// To look for a failing schedule by so many tries, from 1 to 65,536, and store it.
    Seek {
        program: &'a str,
        seed: u64,
        tries: u64,
        schedule: &'a str,
        events: u64,
    },
    /// To narrow the difference of two schedules, by at most so many tests, from 1 to 2^40, with so many workers, from 1 to 16.
    Isolate {
        program: &'a str,
        pass: &'a str,
        fail: &'a str,
        tests: u64,
        workers: u64,
        events: u64,
    },
    /// To drop the times of a failing schedule that its fault doesn't need, by at most so many tests, from 1 to 2^40, and store
    /// the rest.
    Reduce {
        program: &'a str,
        fail: &'a str,
        schedule: &'a str,
        tests: u64,
        events: u64,
    },
    /// To print which accesses of the log's run race.
    Races {
        program: &'a str,
        log: &'a str,
    },
    /// To print the intervals of this log.
    Tiles {
        log: &'a str,
    },
    /// To store the drill of so many workers, from 1 to 60, and to record and replay it.
    Drill {
        workers: u64,
        program: &'a str,
    },
    /// Nothing that the tool can do.
    Unknown,
}

/// The command of a first word, with the values that clap found.
fn command_with<'a>(word: Word, matches: &ArgMatches<'a>) -> Command<'a>
    ensures value { plain_command result ≡ request_with (plain_word word) (rows_of (found_of matches.now)) }
    ensures within { IsWithin result }
{
    match word {
        Word::Check => Command::Check {
            program: text_in(matches, "P"),
        },
        Word::Record => Command::Record {
            program: text_in(matches, "P"),
            log: text_in(matches, "LOG"),
            lanes: lanes_in(matches),
            events: events_in(matches),
        },
        Word::Replay => Command::Replay {
            program: text_in(matches, "P"),
            log: text_in(matches, "LOG"),
            lanes: lanes_in(matches),
        },
        Word::Show => Command::Show {
            program: text_in(matches, "P"),
            log: text_in(matches, "LOG"),
            clock: number_in(matches, "CLOCK", 0, MOST_EVENTS),
        },
        Word::Derive => Command::Derive {
            program: text_in(matches, "P"),
            log: text_in(matches, "LOG"),
            schedule: text_in(matches, "SCHED"),
        },
        Word::Run => Command::Run {
            program: text_in(matches, "P"),
            schedule: text_in(matches, "SCHED"),
            events: events_in(matches),
        },
        Word::Seek => Command::Seek {
            program: text_in(matches, "P"),
            seed: number_in(matches, "SEED", 0, u64::MAX),
            tries: number_in(matches, "TRIES", 1, MOST_TRIES),
            schedule: text_in(matches, "SCHED"),
            events: events_in(matches),
        },
        Word::Isolate => Command::Isolate {
            program: text_in(matches, "P"),
            pass: text_in(matches, "PASS"),
            fail: text_in(matches, "FAIL"),
            tests: tests_in(matches),
            workers: number_in(matches, "workers", 1, u64::from(MOST_WORKERS)),
            events: events_in(matches),
        },
        Word::Reduce => Command::Reduce {
            program: text_in(matches, "P"),
            fail: text_in(matches, "FAIL"),
            schedule: text_in(matches, "OUT"),
            tests: tests_in(matches),
            events: events_in(matches),
        },
        Word::Races => Command::Races {
            program: text_in(matches, "P"),
            log: text_in(matches, "LOG"),
        },
        Word::Tiles => Command::Tiles {
            log: text_in(matches, "LOG"),
        },
        Word::Drill => Command::Drill {
            workers: number_in(matches, "K", 1, u64::from(MOST_DRILL_WORKERS)),
            program: text_in(matches, "P"),
        },
    }
}

/// What clap makes of the words of a command.
fn command_for<'a>(alloc: Global, word: Word, words: &'a [String]) -> Result<Command<'a>, NoMemory>
    ensures value { IfOk result (Reads (commands.app_of_word (plain_word word)) (plain_word word) (map string_bytes words.now)) }
    ensures within { IfOk result IsWithin }
{
    let app = app_for(alloc, word)?;
    match app.try_get_matches_from(words) {
        Ok(matches) => Ok(command_with(word, &matches)),
        Err(error) => {
            if error.kind() == ErrorKind::OutOfMemory {
                Err(NoMemory)
            } else {
                Ok(Command::Unknown)
            }
        }
    }
}

/// The command of the words, of which this is the first.
fn command_on<'a>(alloc: Global, first: &str, words: &'a [String]) -> Result<Command<'a>, NoMemory>
    ensures value { IfOk result (λ c. plain_command c ≡ request_for (commands.word_of first.now) (map string_bytes words.now)) }
    ensures within { IfOk result IsWithin }
{
    match word_in(first) {
        Some(word) => command_for(alloc, word, words),
        None => Ok(Command::Unknown),
    }
}

/// The command of the words after the program's name. The first word is compared exactly; clap's own function of the words
/// says whether its command takes them, and with which values. `Unknown` comes exactly where it doesn't, or where the first
/// word names no command.
#[tactic(auto, unfolding(crate::specs::Requests::request_of))]
pub fn command_in<'a>(alloc: Global, words: &'a [String]) -> Result<Command<'a>, NoMemory>
    ensures value { IfOk result (λ c. plain_command c ≡ request_of (map string_bytes words.now)) }
    ensures within { IfOk result IsWithin }
{
    match words {
        [first, ..] => command_on(alloc, first.as_str(), words),
        [] => Ok(Command::Unknown),
    }
}
