// Words that ask for no command.

use crate::commands::programs::SUM;
use crate::commands::{File, Row, first_wrong};
use dejavu_tool::Status;
use std::test::Fail;

const WORDS: &[Row] = &[
    Row {
        words: &[],
        files: &[File {
            name: "P",
            bytes: SUM,
        }],
        folder: &[],
        sink: &[],
        status: Status::Usage,
        text: b"usage\n",
        stored: None,
    },
    Row {
        words: &["record"],
        files: &[File {
            name: "P",
            bytes: SUM,
        }],
        folder: &[],
        sink: &[],
        status: Status::Usage,
        text: b"usage\n",
        stored: None,
    },
    Row {
        words: &["record", "P"],
        files: &[File {
            name: "P",
            bytes: SUM,
        }],
        folder: &[],
        sink: &[],
        status: Status::Usage,
        text: b"usage\n",
        stored: None,
    },
    Row {
        words: &["record", "P", "L", "M"],
        files: &[File {
            name: "P",
            bytes: SUM,
        }],
        folder: &[],
        sink: &[],
        status: Status::Usage,
        text: b"usage\n",
        stored: None,
    },
    Row {
        words: &["Record", "P", "L"],
        files: &[File {
            name: "P",
            bytes: SUM,
        }],
        folder: &[],
        sink: &[],
        status: Status::Usage,
        text: b"usage\n",
        stored: None,
    },
    Row {
        words: &["check", "P", "L"],
        files: &[File {
            name: "P",
            bytes: SUM,
        }],
        folder: &[],
        sink: &[],
        status: Status::Usage,
        text: b"usage\n",
        stored: None,
    },
    Row {
        words: &["show", "P", "L"],
        files: &[File {
            name: "P",
            bytes: SUM,
        }],
        folder: &[],
        sink: &[],
        status: Status::Usage,
        text: b"usage\n",
        stored: None,
    },
    Row {
        words: &["upgrade", "L"],
        files: &[File {
            name: "P",
            bytes: SUM,
        }],
        folder: &[],
        sink: &[],
        status: Status::Usage,
        text: b"usage\n",
        stored: None,
    },
    Row {
        words: &["record", "P", "L", "--lanes", "17"],
        files: &[File {
            name: "P",
            bytes: SUM,
        }],
        folder: &[],
        sink: &[],
        status: Status::Usage,
        text: b"usage\n",
        stored: None,
    },
    Row {
        words: &["record"],
        files: &[File {
            name: "P",
            bytes: SUM,
        }],
        folder: &[],
        sink: &[0],
        status: Status::WriteFault,
        text: b"",
        stored: None,
    },
];

#[test]
fn words_of_no_command(rt: HostRuntime) -> Result<(), Fail> {
    assert_eq!(rt; first_wrong(&rt, rt.alloc(), WORDS)?, None);
    Ok(())
}
