//! Words that are read and words that aren't. A row is the words between spaces, and what they are read as.

use crate::{Command, command_in};
use std::alloc::Global;
use std::test::Fail;

/// Words, whether they are of a command, and the numbers of the command in its order.
struct Row {
    words: &'static [&'static str],
    is_command: bool,
    numbers: [u64; 4],
}

const ROWS: &[Row] = &[
    Row {
        words: &[],
        is_command: false,
        numbers: [0, 0, 0, 0],
    },
    Row {
        words: &[""],
        is_command: false,
        numbers: [0, 0, 0, 0],
    },
    Row {
        words: &["check"],
        is_command: false,
        numbers: [0, 0, 0, 0],
    },
    Row {
        words: &["check", "P"],
        is_command: true,
        numbers: [0, 0, 0, 0],
    },
    Row {
        words: &["Check", "P"],
        is_command: false,
        numbers: [0, 0, 0, 0],
    },
    Row {
        words: &["check", "P", "Q"],
        is_command: false,
        numbers: [0, 0, 0, 0],
    },
    Row {
        words: &["check", "--help"],
        is_command: false,
        numbers: [0, 0, 0, 0],
    },
    Row {
        words: &["help"],
        is_command: false,
        numbers: [0, 0, 0, 0],
    },
    Row {
        words: &["record", "P", "L"],
        is_command: true,
        numbers: [1, 1_048_576, 0, 0],
    },
    Row {
        words: &["record", "P", "L", "--events", "22"],
        is_command: true,
        numbers: [1, 22, 0, 0],
    },
    Row {
        words: &["record", "--events=22", "P", "L"],
        is_command: true,
        numbers: [1, 22, 0, 0],
    },
    Row {
        words: &["record", "P", "L", "--events"],
        is_command: false,
        numbers: [0, 0, 0, 0],
    },
    Row {
        words: &["record", "P", "L", "--events", "0"],
        is_command: false,
        numbers: [0, 0, 0, 0],
    },
    Row {
        words: &["record", "P", "L", "--events", "1048577"],
        is_command: false,
        numbers: [0, 0, 0, 0],
    },
    Row {
        words: &["record", "P", "L", "--events", "1", "--events", "2"],
        is_command: false,
        numbers: [0, 0, 0, 0],
    },
    Row {
        words: &["record", "P", "L", "--lanes", "2"],
        is_command: true,
        numbers: [2, 1_048_576, 0, 0],
    },
    Row {
        words: &["record", "--lanes=16", "P", "--events", "3", "L"],
        is_command: true,
        numbers: [16, 3, 0, 0],
    },
    Row {
        words: &["record", "P", "L", "--lanes", "0"],
        is_command: false,
        numbers: [0, 0, 0, 0],
    },
    Row {
        words: &["record", "P", "L", "--lanes", "17"],
        is_command: false,
        numbers: [0, 0, 0, 0],
    },
    Row {
        words: &["replay", "P", "L"],
        is_command: true,
        numbers: [1, 0, 0, 0],
    },
    Row {
        words: &["replay", "P", "L", "--lanes", "4"],
        is_command: true,
        numbers: [4, 0, 0, 0],
    },
    Row {
        words: &["run", "P", "S", "--lanes", "4"],
        is_command: false,
        numbers: [0, 0, 0, 0],
    },
    Row {
        words: &["replay", "P", "L", "--events", "5"],
        is_command: false,
        numbers: [0, 0, 0, 0],
    },
    Row {
        words: &["show", "P", "L", "13"],
        is_command: true,
        numbers: [13, 0, 0, 0],
    },
    Row {
        words: &["show", "P", "L", "1048577"],
        is_command: false,
        numbers: [0, 0, 0, 0],
    },
    Row {
        words: &["show", "P", "L", "x"],
        is_command: false,
        numbers: [0, 0, 0, 0],
    },
    Row {
        words: &["derive", "P", "L", "S"],
        is_command: true,
        numbers: [0, 0, 0, 0],
    },
    Row {
        words: &["run", "P", "S", "--events", "20"],
        is_command: true,
        numbers: [20, 0, 0, 0],
    },
    Row {
        words: &["seek", "P", "1", "5", "S"],
        is_command: true,
        numbers: [1, 5, 1_048_576, 0],
    },
    Row {
        words: &["seek", "P", "18446744073709551615", "65536", "S"],
        is_command: true,
        numbers: [u64::MAX, 65_536, 1_048_576, 0],
    },
    Row {
        words: &["seek", "P", "1", "65537", "S"],
        is_command: false,
        numbers: [0, 0, 0, 0],
    },
    Row {
        words: &["seek", "P", "1", "0", "S"],
        is_command: false,
        numbers: [0, 0, 0, 0],
    },
    Row {
        words: &["isolate", "P", "A", "B"],
        is_command: true,
        numbers: [1_048_576, 1, 1_048_576, 0],
    },
    Row {
        words: &[
            "isolate",
            "P",
            "A",
            "B",
            "--tests",
            "1",
            "--workers",
            "16",
            "--events",
            "20",
        ],
        is_command: true,
        numbers: [1, 16, 20, 0],
    },
    Row {
        words: &["isolate", "P", "A", "B", "--workers", "17"],
        is_command: false,
        numbers: [0, 0, 0, 0],
    },
    Row {
        words: &["isolate", "P", "A", "B", "--tests", "1099511627777"],
        is_command: false,
        numbers: [0, 0, 0, 0],
    },
    Row {
        words: &["reduce", "P", "F", "O", "--events=20", "--tests", "7"],
        is_command: true,
        numbers: [7, 20, 0, 0],
    },
    Row {
        words: &["reduce", "P", "F"],
        is_command: false,
        numbers: [0, 0, 0, 0],
    },
    Row {
        words: &["reduce", "P", "F", "O", "--workers", "2"],
        is_command: false,
        numbers: [0, 0, 0, 0],
    },
    Row {
        words: &["races", "P", "L"],
        is_command: true,
        numbers: [0, 0, 0, 0],
    },
    Row {
        words: &["races", "P", "L", "--events", "5"],
        is_command: false,
        numbers: [0, 0, 0, 0],
    },
    Row {
        words: &["tiles", "L"],
        is_command: true,
        numbers: [0, 0, 0, 0],
    },
    Row {
        words: &["tiles", "P", "L"],
        is_command: false,
        numbers: [0, 0, 0, 0],
    },
    Row {
        words: &["drill", "8", "D"],
        is_command: true,
        numbers: [8, 0, 0, 0],
    },
    Row {
        words: &["drill", "61", "D"],
        is_command: false,
        numbers: [0, 0, 0, 0],
    },
    Row {
        words: &["drill", "0", "D"],
        is_command: false,
        numbers: [0, 0, 0, 0],
    },
];

/// The numbers of a command in its order, and zeros.
fn numbers_of(command: Command<'_>) -> [u64; 4] {
    match command {
        Command::Record { lanes, events, .. } => [lanes, events, 0, 0],
        Command::Replay { lanes, .. } => [lanes, 0, 0, 0],
        Command::Run { events, .. } => [events, 0, 0, 0],
        Command::Show { clock, .. } => [clock, 0, 0, 0],
        Command::Seek {
            seed,
            tries,
            events,
            ..
        } => [seed, tries, events, 0],
        Command::Isolate {
            tests,
            workers,
            events,
            ..
        } => [tests, workers, events, 0],
        Command::Reduce { tests, events, .. } => [tests, events, 0, 0],
        Command::Drill { workers, .. } => [workers, 0, 0, 0],
        Command::Check { .. }
        | Command::Derive { .. }
        | Command::Races { .. }
        | Command::Tiles { .. }
        | Command::Unknown => [0, 0, 0, 0],
    }
}

fn is_command(command: Command<'_>) -> bool {
    !matches!(command, Command::Unknown)
}

/// Whether the words of a row are read as it says.
fn is_right(alloc: Global, row: &Row) -> Result<bool, Fail> {
    let mut words = Vec::new(alloc);
    for word in row.words {
        words.push(String::from_str(alloc, word)?)?;
    }
    let command = command_in(alloc, &words)?;
    Ok(is_command(command) == row.is_command && numbers_of(command) == row.numbers)
}

#[test]
fn words_are_read(rt: HostRuntime) -> Result<(), Fail> {
    for row in ROWS {
        assert!(rt; is_right(rt.alloc(), row)?, "{:?}", row.words);
    }
    Ok(())
}

#[test]
fn names_are_kept(rt: HostRuntime) -> Result<(), Fail> {
    let alloc = rt.alloc();
    let mut words = Vec::new(alloc);
    for word in ["isolate", "program.j", "pass.txt", "fail.txt"] {
        words.push(String::from_str(alloc, word)?)?;
    }
    let found = match command_in(alloc, &words)? {
        Command::Isolate {
            program,
            pass,
            fail,
            ..
        } => program == "program.j" && pass == "pass.txt" && fail == "fail.txt",
        _ => false,
    };
    assert!(rt; found);
    Ok(())
}
