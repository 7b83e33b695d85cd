//! The clap command of each first word.

ghost use Rattle.std.specs.Prelude.{◌≡◌, IfOk, option_map};
ghost use Rattle.clap.specs.Words.{app_of};
ghost use Rattle.command_line.specs.Commands as spec;
ghost use Rattle.command_line.specs.Words.{plain_word};

use clap::builder::ValueParser;
use clap::{Arg, Command};
use std::alloc::{AllocError, Global};
use vm_model::{MOST_DRILL_WORKERS, MOST_EVENTS, MOST_LANES, MOST_TESTS, MOST_TRIES, MOST_WORKERS};

/// The first words of the commands.
#[derive(Clone, Copy)]
pub(crate) enum Word {
    Check,
    Record,
    Replay,
    Show,
    Derive,
    Run,
    Seek,
    Isolate,
    Reduce,
    Races,
    Tiles,
    Drill,
}

/// A command that has no arguments yet, and no help flag.
fn bare<'a>(alloc: Global, word: &'a str) -> Command<'a>
    ensures { app_of result ≡ spec.bare word.entry.now }
{
    Command::new(alloc, word).disable_help_flag(true)
}

fn with_text<'a>(
    command: Command<'a>,
    alloc: Global,
    id: &'a str,
) -> Result<Command<'a>, AllocError>
    ensures { IfOk result (λ c. app_of c ≡ spec.with_text id.entry.now (app_of command.entry)) }
{
    command.arg(Arg::new(alloc, id).required(true))
}

fn with_number<'a>(
    command: Command<'a>,
    alloc: Global,
    id: &'a str,
    least: u64,
    most: u64,
) -> Result<Command<'a>, AllocError>
    ensures { IfOk result (λ c. app_of c ≡ spec.with_number id.entry.now least most (app_of command.entry)) }
{
    let arg = Arg::new(alloc, id)
        .required(true)
        .value_parser(ValueParser::Unsigned(least, most));
    command.arg(arg)
}

fn with_option<'a>(
    command: Command<'a>,
    alloc: Global,
    id: &'a str,
    least: u64,
    most: u64,
    default: &'a str,
) -> Result<Command<'a>, AllocError>
    ensures { IfOk result (λ c. app_of c ≡ spec.with_option id.entry.now least most default.entry.now (app_of command.entry)) }
{
    let arg = Arg::new(alloc, id)
        .long(id)
        .value_parser(ValueParser::Unsigned(least, most))
        .default_value(default);
    command.arg(arg)
}

fn with_events<'a>(command: Command<'a>, alloc: Global) -> Result<Command<'a>, AllocError>
    ensures { IfOk result (λ c. app_of c ≡ spec.with_events (app_of command.entry)) }
{
    with_option(command, alloc, "events", 1, MOST_EVENTS, "1048576")
}

fn with_lanes<'a>(command: Command<'a>, alloc: Global) -> Result<Command<'a>, AllocError>
    ensures { IfOk result (λ c. app_of c ≡ spec.with_lanes (app_of command.entry)) }
{
    with_option(command, alloc, "lanes", 1, u64::from(MOST_LANES), "1")
}

fn with_tests<'a>(command: Command<'a>, alloc: Global) -> Result<Command<'a>, AllocError>
    ensures { IfOk result (λ c. app_of c ≡ spec.with_tests (app_of command.entry)) }
{
    with_option(command, alloc, "tests", 1, MOST_TESTS, "1048576")
}

#[tactic(auto, unfolding(crate::specs::Commands::check_app))]
fn check<'a>(alloc: Global) -> Result<Command<'a>, AllocError>
    ensures { IfOk result (λ c. app_of c ≡ spec.check_app) }
{
    with_text(bare(alloc, "check"), alloc, "P")
}

#[tactic(auto, unfolding(crate::specs::Commands::replay_app))]
fn replay<'a>(alloc: Global) -> Result<Command<'a>, AllocError>
    ensures { IfOk result (λ c. app_of c ≡ spec.replay_app) }
{
    let command = with_text(bare(alloc, "replay"), alloc, "P")?;
    let command = with_text(command, alloc, "LOG")?;
    with_lanes(command, alloc)
}

#[tactic(auto, unfolding(crate::specs::Commands::record_app))]
fn record<'a>(alloc: Global) -> Result<Command<'a>, AllocError>
    ensures { IfOk result (λ c. app_of c ≡ spec.record_app) }
{
    let command = with_text(bare(alloc, "record"), alloc, "P")?;
    let command = with_text(command, alloc, "LOG")?;
    let command = with_lanes(command, alloc)?;
    with_events(command, alloc)
}

#[tactic(auto, unfolding(crate::specs::Commands::show_app))]
fn show<'a>(alloc: Global) -> Result<Command<'a>, AllocError>
    ensures { IfOk result (λ c. app_of c ≡ spec.show_app) }
{
    let command = with_text(bare(alloc, "show"), alloc, "P")?;
    let command = with_text(command, alloc, "LOG")?;
    with_number(command, alloc, "CLOCK", 0, MOST_EVENTS)
}

#[tactic(auto, unfolding(crate::specs::Commands::derive_app))]
fn derive<'a>(alloc: Global) -> Result<Command<'a>, AllocError>
    ensures { IfOk result (λ c. app_of c ≡ spec.derive_app) }
{
    let command = with_text(bare(alloc, "derive"), alloc, "P")?;
    let command = with_text(command, alloc, "LOG")?;
    with_text(command, alloc, "SCHED")
}

#[tactic(auto, unfolding(crate::specs::Commands::run_app))]
fn run<'a>(alloc: Global) -> Result<Command<'a>, AllocError>
    ensures { IfOk result (λ c. app_of c ≡ spec.run_app) }
{
    let command = with_text(bare(alloc, "run"), alloc, "P")?;
    let command = with_text(command, alloc, "SCHED")?;
    with_events(command, alloc)
}

#[tactic(auto, unfolding(crate::specs::Commands::seek_app))]
fn seek<'a>(alloc: Global) -> Result<Command<'a>, AllocError>
    ensures { IfOk result (λ c. app_of c ≡ spec.seek_app) }
{
    let command = with_text(bare(alloc, "seek"), alloc, "P")?;
    let command = with_number(command, alloc, "SEED", 0, u64::MAX)?;
    let command = with_number(command, alloc, "TRIES", 1, MOST_TRIES)?;
    let command = with_text(command, alloc, "SCHED")?;
    with_events(command, alloc)
}

#[tactic(auto, unfolding(crate::specs::Commands::isolate_app))]
fn isolate<'a>(alloc: Global) -> Result<Command<'a>, AllocError>
    ensures { IfOk result (λ c. app_of c ≡ spec.isolate_app) }
{
    let command = with_text(bare(alloc, "isolate"), alloc, "P")?;
    let command = with_text(command, alloc, "PASS")?;
    let command = with_text(command, alloc, "FAIL")?;
    let command = with_tests(command, alloc)?;
    let command = with_option(command, alloc, "workers", 1, u64::from(MOST_WORKERS), "1")?;
    with_events(command, alloc)
}

#[tactic(auto, unfolding(crate::specs::Commands::reduce_app))]
fn reduce<'a>(alloc: Global) -> Result<Command<'a>, AllocError>
    ensures { IfOk result (λ c. app_of c ≡ spec.reduce_app) }
{
    let command = with_text(bare(alloc, "reduce"), alloc, "P")?;
    let command = with_text(command, alloc, "FAIL")?;
    let command = with_text(command, alloc, "OUT")?;
    let command = with_tests(command, alloc)?;
    with_events(command, alloc)
}

#[tactic(auto, unfolding(crate::specs::Commands::races_app))]
fn races<'a>(alloc: Global) -> Result<Command<'a>, AllocError>
    ensures { IfOk result (λ c. app_of c ≡ spec.races_app) }
{
    let command = with_text(bare(alloc, "races"), alloc, "P")?;
    with_text(command, alloc, "LOG")
}

#[tactic(auto, unfolding(crate::specs::Commands::tiles_app))]
fn tiles<'a>(alloc: Global) -> Result<Command<'a>, AllocError>
    ensures { IfOk result (λ c. app_of c ≡ spec.tiles_app) }
{
    with_text(bare(alloc, "tiles"), alloc, "LOG")
}

#[tactic(auto, unfolding(crate::specs::Commands::drill_app))]
fn drill<'a>(alloc: Global) -> Result<Command<'a>, AllocError>
    ensures { IfOk result (λ c. app_of c ≡ spec.drill_app) }
{
    let command = with_number(
        bare(alloc, "drill"),
        alloc,
        "K",
        1,
        u64::from(MOST_DRILL_WORKERS),
    )?;
    with_text(command, alloc, "P")
}

/// The command that reads the words after this first one.
pub(crate) fn app_for<'a>(alloc: Global, word: Word) -> Result<Command<'a>, AllocError>
    ensures { IfOk result (λ c. app_of c ≡ spec.app_of_word (plain_word word)) }
{
    match word {
        Word::Check => check(alloc),
        Word::Record => record(alloc),
        Word::Replay => replay(alloc),
        Word::Show => show(alloc),
        Word::Derive => derive(alloc),
        Word::Run => run(alloc),
        Word::Seek => seek(alloc),
        Word::Isolate => isolate(alloc),
        Word::Reduce => reduce(alloc),
        Word::Races => races(alloc),
        Word::Tiles => tiles(alloc),
        Word::Drill => drill(alloc),
    }
}

/// The command of a first word, if it is one.
pub(crate) fn word_in(first: &str) -> Option<Word>
    ensures { option_map plain_word result ≡ spec.word_of first.now }
{
    match first {
        "check" => Some(Word::Check),
        "record" => Some(Word::Record),
        "replay" => Some(Word::Replay),
        "show" => Some(Word::Show),
        "derive" => Some(Word::Derive),
        "run" => Some(Word::Run),
        "seek" => Some(Word::Seek),
        "isolate" => Some(Word::Isolate),
        "reduce" => Some(Word::Reduce),
        "races" => Some(Word::Races),
        "tiles" => Some(Word::Tiles),
        "drill" => Some(Word::Drill),
        _ => None,
    }
}
