// The command show.

use crate::commands::programs::{SUM, TWICE, WRITERS, WRITERS_LOG};
use crate::commands::{File, Row, first_wrong};
use dejavu_tool::Status;
use std::test::Fail;

const STATES: &[Row] = &[
    Row {
        words: &["show", "P", "L", "4"],
        files: &[
            File {
                name: "P",
                bytes: WRITERS,
            },
            File {
                name: "L",
                bytes: WRITERS_LOG,
            },
        ],
        folder: &[],
        sink: &[],
        status: Status::Ok,
        text: b"clock 4\nstatic W/n 0\nthread 0 live\nthread 1 live\nthread 2 live\nobjects 2\nwords 4\noutput 0\n",
        stored: None,
    },
    Row {
        words: &["show", "P", "L", "100"],
        files: &[
            File {
                name: "P",
                bytes: WRITERS,
            },
            File {
                name: "L",
                bytes: WRITERS_LOG,
            },
        ],
        folder: &[],
        sink: &[],
        status: Status::Ok,
        text: b"clock 14\nstatic W/n 2\nthread 0 ended\nthread 1 ended\nthread 2 ended\nobjects 2\nwords 4\noutput 0\n",
        stored: None,
    },
    Row {
        words: &["show", "P", "L", "13"],
        files: &[
            File {
                name: "P",
                bytes: TWICE,
            },
            File {
                name: "L",
                bytes: b"\x44\x4A\x56\x4C\x01\x80\x80\x40\x02\x02\x00\x06\x05\x03\x01\x07\x04\xF0",
            },
        ],
        folder: &[],
        sink: &[],
        status: Status::Ok,
        text: b"clock 13\nstatic Twice/o obj 0\nthread 0 live\nthread 1 ended\nlock obj 0 owner 0 count 2 waiters 0\nobjects 2\nwords 3\noutput 0\n",
        stored: None,
    },
    Row {
        words: &["show", "P", "L", "24"],
        files: &[
            File {
                name: "P",
                bytes: SUM,
            },
            File {
                name: "L",
                bytes: b"\x44\x4A\x56\x4C\x01\x80\x80\x40\x01\x01\x00\x17\xF0",
            },
        ],
        folder: &[],
        sink: &[],
        status: Status::Diverged,
        text: b"diverged at 23 thread 0\n",
        stored: None,
    },
    Row {
        words: &["show", "P", "L", "5"],
        files: &[
            File {
                name: "P",
                bytes: SUM,
            },
            File {
                name: "L",
                bytes: b"\x44\x4A\x56\x4C\x01\x80\x80\x40\x01\x01\x00\x15\xF2",
            },
        ],
        folder: &[],
        sink: &[],
        status: Status::Ok,
        text: b"clock 5\nstatic Sum/s 3\nthread 0 live\nobjects 0\nwords 0\noutput 0\n",
        stored: None,
    },
];

#[test]
fn states(rt: HostRuntime) -> Result<(), Fail> {
    assert_eq!(rt; first_wrong(&rt, rt.alloc(), STATES)?, None);
    Ok(())
}
