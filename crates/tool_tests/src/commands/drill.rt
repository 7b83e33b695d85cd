// The command drill.

use crate::commands::{File, Row, first_wrong};
use dejavu_tool::Status;
use std::test::Fail;

const DRILLS: &[Row] = &[
    Row {
        words: &["drill", "1", "D"],
        files: &[],
        folder: &[],
        sink: &[],
        status: Status::Ok,
        text: b"drill 1\nevents 4007\nintervals 3\nend done\noutput 5\n1000\n",
        stored: None,
    },
    Row {
        words: &["drill", "1", "D"],
        files: &[],
        folder: &[0],
        sink: &[],
        status: Status::WriteFault,
        text: b"",
        stored: None,
    },
];

#[test]
fn drills(rt: HostRuntime) -> Result<(), Fail> {
    assert_eq!(rt; first_wrong(&rt, rt.alloc(), DRILLS)?, None);
    Ok(())
}
