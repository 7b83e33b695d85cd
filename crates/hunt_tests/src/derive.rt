// The command derive.

use dejavu_tool::Status;
use std::test::Fail;
use tool_tests::commands::programs::{SUM, SWITCHED_LOG, WRITERS, WRITERS_LOG};
use tool_tests::commands::{File, Row, first_wrong};

const DERIVATIONS: &[Row] = &[
    Row {
        words: &["derive", "P", "L", "A"],
        files: &[
            File {
                name: "P",
                bytes: WRITERS,
            },
            File {
                name: "L",
                bytes: WRITERS_LOG,
            },
        ],
        folder: &[],
        sink: &[],
        status: Status::Ok,
        text: b"switches 0\n",
        stored: Some(File {
            name: "A",
            bytes: b"",
        }),
    },
    Row {
        words: &["derive", "P", "L", "A"],
        files: &[
            File {
                name: "P",
                bytes: WRITERS,
            },
            File {
                name: "L",
                bytes: SWITCHED_LOG,
            },
        ],
        folder: &[],
        sink: &[],
        status: Status::Ok,
        text: b"switches 1\n",
        stored: Some(File {
            name: "A",
            bytes: b"3\n",
        }),
    },
    Row {
        words: &["derive", "P", "L", "A"],
        files: &[
            File {
                name: "P",
                bytes: SUM,
            },
            File {
                name: "L",
                bytes: b"\x44\x4A\x56\x4C\x01\x80\x80\x40\x01\x01\x00\x17\xF0",
            },
        ],
        folder: &[],
        sink: &[],
        status: Status::Diverged,
        text: b"diverged at 23 thread 0\n",
        stored: None,
    },
    Row {
        words: &["derive", "P", "L", "A"],
        files: &[
            File {
                name: "P",
                bytes: WRITERS,
            },
            File {
                name: "L",
                bytes: WRITERS_LOG,
            },
        ],
        folder: &[2],
        sink: &[],
        status: Status::WriteFault,
        text: b"",
        stored: None,
    },
];

#[test]
fn derivations(rt: HostRuntime) -> Result<(), Fail> {
    assert_eq!(rt; first_wrong(&rt, rt.alloc(), DERIVATIONS)?, None);
    Ok(())
}
