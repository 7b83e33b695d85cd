// The command check.

use crate::commands::programs::{DIVISION, SUM, UNDERFLOW, WRITERS};
use crate::commands::{File, Row, first_wrong};
use dejavu_tool::Status;
use std::test::Fail;

const CHECKS: &[Row] = &[
    Row {
        words: &["check", "P"],
        files: &[File {
            name: "P",
            bytes: SUM,
        }],
        folder: &[],
        sink: &[],
        status: Status::Ok,
        text: b"classes 1\nmethods 1\ninstructions 14\n",
        stored: None,
    },
    Row {
        words: &["check", "P"],
        files: &[File {
            name: "P",
            bytes: DIVISION,
        }],
        folder: &[],
        sink: &[],
        status: Status::Ok,
        text: b"classes 1\nmethods 1\ninstructions 5\n",
        stored: None,
    },
    Row {
        words: &["check", "P"],
        files: &[File {
            name: "P",
            bytes: WRITERS,
        }],
        folder: &[],
        sink: &[],
        status: Status::Ok,
        text: b"classes 1\nmethods 3\ninstructions 32\n",
        stored: None,
    },
    Row {
        words: &["check", "P"],
        files: &[File {
            name: "P",
            bytes: b".class \xC3\xA9",
        }],
        folder: &[],
        sink: &[],
        status: Status::ProgramRefused,
        text: b"program refused: text 1 line 1 column 8\n",
        stored: None,
    },
    Row {
        words: &["check", "P"],
        files: &[File {
            name: "P",
            bytes: b".class A\na.b\n",
        }],
        folder: &[],
        sink: &[],
        status: Status::ProgramRefused,
        text: b"program refused: read 3 line 2\n",
        stored: None,
    },
    Row {
        words: &["check", "P"],
        files: &[],
        folder: &[],
        sink: &[],
        status: Status::Absent,
        text: b"absent P\n",
        stored: None,
    },
    Row {
        words: &["check", "P"],
        files: &[File {
            name: "P",
            bytes: UNDERFLOW,
        }],
        folder: &[],
        sink: &[],
        status: Status::ProgramRefused,
        text: b"program refused: shape 1 in A/main([Ljava/lang/String;)V at 0\n",
        stored: None,
    },
    Row {
        words: &["check", "P"],
        files: &[File {
            name: "P",
            bytes: SUM,
        }],
        folder: &[0],
        sink: &[],
        status: Status::ReadFault,
        text: b"read fault P\n",
        stored: None,
    },
];

#[test]
fn checks(rt: HostRuntime) -> Result<(), Fail> {
    assert_eq!(rt; first_wrong(&rt, rt.alloc(), CHECKS)?, None);
    Ok(())
}
