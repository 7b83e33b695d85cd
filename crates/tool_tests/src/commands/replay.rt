// The command replay.

use crate::commands::programs::{
    SHORTEST, SHORTEST_LOG, SHORTEST_TEXT, SUM, SUM_LOG, SUM_TEXT, SWITCHED_LOG, WRITERS,
    WRITERS_LOG,
};
use crate::commands::{File, Row, first_wrong};
use dejavu_tool::Status;
use std::test::Fail;

const REPLAYS: &[Row] = &[
    Row {
        words: &["replay", "P", "L", "--lanes", "2"],
        files: &[
            File {
                name: "P",
                bytes: WRITERS,
            },
            File {
                name: "L",
                bytes: WRITERS_LOG,
            },
        ],
        folder: &[],
        sink: &[],
        status: Status::Ok,
        text: b"events 14\nintervals 4\nend done\noutput 0\n",
        stored: None,
    },
    Row {
        words: &["replay", "P", "L", "--lanes", "16"],
        files: &[
            File {
                name: "P",
                bytes: WRITERS,
            },
            File {
                name: "L",
                bytes: SWITCHED_LOG,
            },
        ],
        folder: &[],
        sink: &[],
        status: Status::Ok,
        text: b"events 14\nintervals 5\nend done\noutput 0\n",
        stored: None,
    },
    Row {
        words: &["replay", "P", "L", "--lanes", "3"],
        files: &[
            File {
                name: "P",
                bytes: SUM,
            },
            File {
                name: "L",
                bytes: b"\x44\x4A\x56\x4C\x01\x80\x80\x40\x01\x01\x00\x17\xF0",
            },
        ],
        folder: &[],
        sink: &[],
        status: Status::Diverged,
        text: b"diverged at 23 thread 0\n",
        stored: None,
    },
    Row {
        words: &["replay", "P", "L", "--lanes", "2"],
        files: &[
            File {
                name: "P",
                bytes: SUM,
            },
            File {
                name: "L",
                bytes: b"\x44\x4A\x56\x4C\x01\x80\x80\x40\x02\x01\x00\x00\x01\x01\x00\xF0",
            },
        ],
        folder: &[],
        sink: &[],
        status: Status::Diverged,
        text: b"diverged at 1 thread 1\n",
        stored: None,
    },
    Row {
        words: &["replay", "P", "L", "--lanes", "4"],
        files: &[
            File {
                name: "P",
                bytes: SHORTEST,
            },
            File {
                name: "L",
                bytes: b"\x44\x4A\x56\x4C\x01\x80\x80\x40\x01\x01\x00\x00\xF2",
            },
        ],
        folder: &[],
        sink: &[],
        status: Status::Diverged,
        text: b"diverged at 1 at the end\n",
        stored: None,
    },
    Row {
        words: &["replay", "P", "L"],
        files: &[
            File {
                name: "P",
                bytes: SUM,
            },
            File {
                name: "L",
                bytes: SUM_LOG,
            },
        ],
        folder: &[],
        sink: &[],
        status: Status::Ok,
        text: SUM_TEXT,
        stored: None,
    },
    Row {
        words: &["replay", "P", "L"],
        files: &[
            File {
                name: "P",
                bytes: SHORTEST,
            },
            File {
                name: "L",
                bytes: SHORTEST_LOG,
            },
        ],
        folder: &[],
        sink: &[],
        status: Status::Ok,
        text: SHORTEST_TEXT,
        stored: None,
    },
    Row {
        words: &["replay", "P", "L"],
        files: &[
            File {
                name: "P",
                bytes: SUM,
            },
            File {
                name: "L",
                bytes: b"\x44\x4A\x56\x4C\x01\x80\x80\x40\x01\x01\x00\x17\xF0",
            },
        ],
        folder: &[],
        sink: &[],
        status: Status::Diverged,
        text: b"diverged at 23 thread 0\n",
        stored: None,
    },
    Row {
        words: &["replay", "P", "L"],
        files: &[
            File {
                name: "P",
                bytes: SUM,
            },
            File {
                name: "L",
                bytes: b"\x44\x4A\x56\x4C\x01\x80\x80\x40\x01\x01\x00\x15\xF0",
            },
        ],
        folder: &[],
        sink: &[],
        status: Status::Diverged,
        text: b"diverged at 22 at the end\n",
        stored: None,
    },
    Row {
        words: &["replay", "P", "L"],
        files: &[
            File {
                name: "P",
                bytes: SHORTEST,
            },
            File {
                name: "L",
                bytes: b"\x44\x4A\x56\x4C\x01\x80\x80\x40\x01\x01\x00\x00\xF2",
            },
        ],
        folder: &[],
        sink: &[],
        status: Status::Diverged,
        text: b"diverged at 1 at the end\n",
        stored: None,
    },
    Row {
        words: &["replay", "P", "L"],
        files: &[
            File {
                name: "P",
                bytes: SUM,
            },
            File {
                name: "L",
                bytes: b"\x44\x4A\x56\x4C\x01\x80\x80\x40\x02\x01\x00\x00\x01\x01\x00\xF0",
            },
        ],
        folder: &[],
        sink: &[],
        status: Status::Diverged,
        text: b"diverged at 1 thread 1\n",
        stored: None,
    },
    Row {
        words: &["replay", "P", "L"],
        files: &[
            File {
                name: "P",
                bytes: SUM,
            },
            File {
                name: "L",
                bytes: b"\x44\x4A\x56\x4C\x01\x80\x80\x40\x01\x01\x00\x16",
            },
        ],
        folder: &[],
        sink: &[],
        status: Status::LogRefused,
        text: b"log refused: 3 at 12\n",
        stored: None,
    },
    Row {
        words: &["replay", "P", "L"],
        files: &[
            File {
                name: "P",
                bytes: SUM,
            },
            File {
                name: "L",
                bytes: b"\x44\x4A\x56\x4C\x01\x80\x80\x40\x01\x01\x00\x16\xF0\x00",
            },
        ],
        folder: &[],
        sink: &[],
        status: Status::LogRefused,
        text: b"log refused: 9 at 13\n",
        stored: None,
    },
    Row {
        words: &["replay", "P", "L"],
        files: &[
            File {
                name: "P",
                bytes: SUM,
            },
            File {
                name: "L",
                bytes: b"\x44\x4B",
            },
        ],
        folder: &[],
        sink: &[],
        status: Status::LogRefused,
        text: b"log refused: 1 at 1\n",
        stored: None,
    },
    Row {
        words: &["replay", "P", "L"],
        files: &[
            File {
                name: "P",
                bytes: b"",
            },
            File {
                name: "L",
                bytes: b"\x44\x4B",
            },
        ],
        folder: &[],
        sink: &[],
        status: Status::ProgramRefused,
        text: b"program refused: link 1 line 0\n",
        stored: None,
    },
    Row {
        words: &["replay", "P", "L"],
        files: &[
            File {
                name: "P",
                bytes: SUM,
            },
            File {
                name: "L",
                bytes: SUM_LOG,
            },
        ],
        folder: &[0],
        sink: &[],
        status: Status::ReadFault,
        text: b"read fault P\n",
        stored: None,
    },
    Row {
        words: &["replay", "P", "L"],
        files: &[
            File {
                name: "P",
                bytes: SUM,
            },
            File {
                name: "L",
                bytes: SUM_LOG,
            },
        ],
        folder: &[1],
        sink: &[],
        status: Status::ReadFault,
        text: b"read fault L\n",
        stored: None,
    },
    Row {
        words: &["replay", "P", "L"],
        files: &[File {
            name: "P",
            bytes: SUM,
        }],
        folder: &[],
        sink: &[],
        status: Status::Absent,
        text: b"absent L\n",
        stored: None,
    },
];

#[test]
fn replays(rt: HostRuntime) -> Result<(), Fail> {
    assert_eq!(rt; first_wrong(&rt, rt.alloc(), REPLAYS)?, None);
    Ok(())
}
