// The command tiles.

use crate::commands::programs::WRITERS_LOG;
use crate::commands::{File, Row, first_wrong};
use dejavu_tool::Status;
use std::test::Fail;

const TILES: &[Row] = &[
    Row {
        words: &["tiles", "L"],
        files: &[File {
            name: "L",
            bytes: WRITERS_LOG,
        }],
        folder: &[],
        sink: &[],
        status: Status::Ok,
        text: b"budget 1048576\nevents 14\nend done\ninterval 0 0 3\ninterval 1 4 6\ninterval 2 7 9\ninterval 0 10 13\n",
        stored: None,
    },
    Row {
        words: &["tiles", "L"],
        files: &[File {
            name: "L",
            bytes: b"DJ",
        }],
        folder: &[],
        sink: &[],
        status: Status::LogRefused,
        text: b"log refused: 3 at 2\n",
        stored: None,
    },
    Row {
        words: &["tiles", "L"],
        files: &[],
        folder: &[],
        sink: &[],
        status: Status::Absent,
        text: b"absent L\n",
        stored: None,
    },
];

#[test]
fn tiles(rt: HostRuntime) -> Result<(), Fail> {
    assert_eq!(rt; first_wrong(&rt, rt.alloc(), TILES)?, None);
    Ok(())
}
