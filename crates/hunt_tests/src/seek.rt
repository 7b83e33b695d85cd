// The command seek.

use dejavu_tool::Status;
use std::test::Fail;
use tool_tests::commands::programs::{FAULTY, SHORTEST};
use tool_tests::commands::{File, Row, first_wrong};

const SEARCHES: &[Row] = &[
    Row {
        words: &["seek", "P", "1", "5", "A"],
        files: &[File {
            name: "P",
            bytes: SHORTEST,
        }],
        folder: &[],
        sink: &[],
        status: Status::NotFound,
        text: b"not found in 5 tries\n",
        stored: None,
    },
    Row {
        words: &["seek", "P", "1", "5", "A"],
        files: &[File {
            name: "P",
            bytes: FAULTY,
        }],
        folder: &[],
        sink: &[],
        status: Status::Ok,
        text: b"found at try 1\nevents 1\nintervals 1\nend fault arithmetic thread 0 in A/main([Ljava/lang/String;)V at 2\noutput 0\n",
        stored: None,
    },
    Row {
        words: &["seek", "P", "1", "5", "A"],
        files: &[File {
            name: "P",
            bytes: FAULTY,
        }],
        folder: &[1],
        sink: &[],
        status: Status::WriteFault,
        text: b"",
        stored: None,
    },
];

#[test]
fn searches(rt: HostRuntime) -> Result<(), Fail> {
    assert_eq!(rt; first_wrong(&rt, rt.alloc(), SEARCHES)?, None);
    Ok(())
}
