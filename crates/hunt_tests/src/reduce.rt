// The command reduce.

use dejavu_tool::Status;
use std::test::Fail;
use tool_tests::commands::programs::WRITERS;
use tool_tests::commands::{File, Row, first_wrong};

const REDUCTIONS: &[Row] = &[
    Row {
        words: &["reduce", "P", "F", "O", "--events", "20"],
        files: &[
            File {
                name: "P",
                bytes: WRITERS,
            },
            File {
                name: "F",
                bytes: b"5\n20\n",
            },
        ],
        folder: &[],
        sink: &[],
        status: Status::Ok,
        text: b"kept 1 of 2\nasked 2\nunresolved 0\n",
        stored: Some(File {
            name: "O",
            bytes: b"5\n",
        }),
    },
    Row {
        words: &["reduce", "P", "F", "O", "--tests", "1", "--events", "20"],
        files: &[
            File {
                name: "P",
                bytes: WRITERS,
            },
            File {
                name: "F",
                bytes: b"5\n20\n",
            },
        ],
        folder: &[],
        sink: &[],
        status: Status::TestsSpent,
        text: b"tests spent 1\n",
        stored: None,
    },
    Row {
        words: &["reduce", "P", "F", "O", "--events", "20"],
        files: &[
            File {
                name: "P",
                bytes: WRITERS,
            },
            File {
                name: "F",
                bytes: b"6\n",
            },
        ],
        folder: &[],
        sink: &[],
        status: Status::NotFailing,
        text: b"not failing: end done\n",
        stored: None,
    },
    Row {
        words: &["reduce", "P", "F", "O", "--events", "20"],
        files: &[
            File {
                name: "P",
                bytes: WRITERS,
            },
            File {
                name: "F",
                bytes: b"21\n",
            },
        ],
        folder: &[],
        sink: &[],
        status: Status::ScheduleRefused,
        text: b"schedule refused: 3 at 0\n",
        stored: None,
    },
];

#[test]
fn reductions(rt: HostRuntime) -> Result<(), Fail> {
    assert_eq!(rt; first_wrong(&rt, rt.alloc(), REDUCTIONS)?, None);
    Ok(())
}
