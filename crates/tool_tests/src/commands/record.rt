// The command record.

use crate::commands::programs::{
    DIVISION, SHORTEST, SHORTEST_LOG, SHORTEST_TEXT, SUM, SUM_LOG, SUM_TEXT, UNDERFLOW,
};
use crate::commands::{File, Row, first_wrong};
use dejavu_tool::Status;
use std::test::Fail;

const RECORDINGS: &[Row] = &[
    Row {
        words: &["record", "P", "L", "--lanes", "4"],
        files: &[File {
            name: "P",
            bytes: SUM,
        }],
        folder: &[],
        sink: &[],
        status: Status::Ok,
        text: SUM_TEXT,
        stored: Some(File {
            name: "L",
            bytes: SUM_LOG,
        }),
    },
    Row {
        words: &["record", "P", "L", "--lanes", "16", "--events", "22"],
        files: &[File {
            name: "P",
            bytes: SUM,
        }],
        folder: &[],
        sink: &[],
        status: Status::Ok,
        text: b"events 22\nintervals 1\nend spent\noutput 3\n55\n",
        stored: Some(File {
            name: "L",
            bytes: b"\x44\x4A\x56\x4C\x01\x16\x01\x01\x00\x15\xF3",
        }),
    },
    Row {
        words: &["record", "P", "L", "--lanes", "2"],
        files: &[],
        folder: &[],
        sink: &[],
        status: Status::Absent,
        text: b"absent P\n",
        stored: None,
    },
    Row {
        words: &["record", "P", "L"],
        files: &[File {
            name: "P",
            bytes: SUM,
        }],
        folder: &[],
        sink: &[],
        status: Status::Ok,
        text: SUM_TEXT,
        stored: Some(File {
            name: "L",
            bytes: SUM_LOG,
        }),
    },
    Row {
        words: &["record", "P", "L"],
        files: &[File {
            name: "P",
            bytes: SHORTEST,
        }],
        folder: &[],
        sink: &[],
        status: Status::Ok,
        text: SHORTEST_TEXT,
        stored: Some(File {
            name: "L",
            bytes: SHORTEST_LOG,
        }),
    },
    Row {
        words: &["record", "P", "L"],
        files: &[File {
            name: "P",
            bytes: DIVISION,
        }],
        folder: &[],
        sink: &[],
        status: Status::Ok,
        text: SHORTEST_TEXT,
        stored: Some(File {
            name: "L",
            bytes: SHORTEST_LOG,
        }),
    },
    Row {
        words: &["record", "P", "L", "--events", "23"],
        files: &[File {
            name: "P",
            bytes: SUM,
        }],
        folder: &[],
        sink: &[],
        status: Status::Ok,
        text: SUM_TEXT,
        stored: None,
    },
    Row {
        words: &["record", "P", "L", "--events", "22"],
        files: &[File {
            name: "P",
            bytes: SUM,
        }],
        folder: &[],
        sink: &[],
        status: Status::Ok,
        text: b"events 22\nintervals 1\nend spent\noutput 3\n55\n",
        stored: Some(File {
            name: "L",
            bytes: b"\x44\x4A\x56\x4C\x01\x16\x01\x01\x00\x15\xF3",
        }),
    },
    Row {
        words: &["record", "P", "L"],
        files: &[File {
            name: "P",
            bytes: b"",
        }],
        folder: &[],
        sink: &[],
        status: Status::ProgramRefused,
        text: b"program refused: link 1 line 0\n",
        stored: None,
    },
    Row {
        words: &["record", "P", "L"],
        files: &[],
        folder: &[],
        sink: &[],
        status: Status::Absent,
        text: b"absent P\n",
        stored: None,
    },
    Row {
        words: &["record", "P", "L"],
        files: &[File {
            name: "P",
            bytes: SUM,
        }],
        folder: &[0],
        sink: &[],
        status: Status::ReadFault,
        text: b"read fault P\n",
        stored: None,
    },
    Row {
        words: &["record", "P", "L"],
        files: &[File {
            name: "P",
            bytes: SUM,
        }],
        folder: &[1],
        sink: &[],
        status: Status::WriteFault,
        text: b"",
        stored: None,
    },
    Row {
        words: &["record", "P", "L"],
        files: &[File {
            name: "P",
            bytes: SUM,
        }],
        folder: &[],
        sink: &[0],
        status: Status::WriteFault,
        text: b"",
        stored: Some(File {
            name: "L",
            bytes: SUM_LOG,
        }),
    },
    Row {
        words: &["record", "P", "L"],
        files: &[File {
            name: "P",
            bytes: UNDERFLOW,
        }],
        folder: &[],
        sink: &[],
        status: Status::ProgramRefused,
        text: b"program refused: shape 1 in A/main([Ljava/lang/String;)V at 0\n",
        stored: None,
    },
];

#[test]
fn recordings(rt: HostRuntime) -> Result<(), Fail> {
    assert_eq!(rt; first_wrong(&rt, rt.alloc(), RECORDINGS)?, None);
    Ok(())
}
