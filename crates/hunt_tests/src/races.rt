// The command races.

use dejavu_tool::Status;
use std::test::Fail;
use tool_tests::commands::programs::{SUM, SUM_LOG, WRITERS, WRITERS_LOG};
use tool_tests::commands::{File, Row, first_wrong};

const RACES: &[Row] = &[
    Row {
        words: &["races", "P", "L"],
        files: &[
            File {
                name: "P",
                bytes: WRITERS,
            },
            File {
                name: "L",
                bytes: WRITERS_LOG,
            },
        ],
        folder: &[],
        sink: &[],
        status: Status::Ok,
        text: b"races 1\nrace static W/n first 5 thread 1 second 7 thread 2\n",
        stored: None,
    },
    Row {
        words: &["races", "P", "L"],
        files: &[
            File {
                name: "P",
                bytes: SUM,
            },
            File {
                name: "L",
                bytes: SUM_LOG,
            },
        ],
        folder: &[],
        sink: &[],
        status: Status::Ok,
        text: b"races 0\n",
        stored: None,
    },
    Row {
        words: &["races", "P", "L"],
        files: &[
            File {
                name: "P",
                bytes: SUM,
            },
            File {
                name: "L",
                bytes: b"\x44\x4A\x56\x4C\x01\x80\x80\x40\x01\x01\x00\x17\xF0",
            },
        ],
        folder: &[],
        sink: &[],
        status: Status::Diverged,
        text: b"diverged at 23 thread 0\n",
        stored: None,
    },
    Row {
        words: &["races", "P", "L"],
        files: &[
            File {
                name: "P",
                bytes: SUM,
            },
            File {
                name: "L",
                bytes: b"\x44\x4A\x56\x4C\x01\x80\x80\x40\x01\x01\x00\x15\xF0",
            },
        ],
        folder: &[],
        sink: &[],
        status: Status::Diverged,
        text: b"diverged at 22 at the end\n",
        stored: None,
    },
    Row {
        words: &["races", "P", "L"],
        files: &[
            File {
                name: "P",
                bytes: SUM,
            },
            File {
                name: "L",
                bytes: b"x",
            },
        ],
        folder: &[],
        sink: &[],
        status: Status::LogRefused,
        text: b"log refused: 1 at 0\n",
        stored: None,
    },
];

#[test]
fn races(rt: HostRuntime) -> Result<(), Fail> {
    assert_eq!(rt; first_wrong(&rt, rt.alloc(), RACES)?, None);
    Ok(())
}
