// The command run.

use dejavu_tool::Status;
use std::test::Fail;
use tool_tests::commands::programs::WRITERS;
use tool_tests::commands::{File, Row, first_wrong};

const RUNS: &[Row] = &[
    Row {
        words: &["run", "P", "A"],
        files: &[
            File {
                name: "P",
                bytes: WRITERS,
            },
            File {
                name: "A",
                bytes: b"",
            },
        ],
        folder: &[],
        sink: &[],
        status: Status::Ok,
        text: b"events 14\nintervals 4\nend done\noutput 0\n",
        stored: None,
    },
    Row {
        words: &["run", "P", "A"],
        files: &[
            File {
                name: "P",
                bytes: WRITERS,
            },
            File {
                name: "A",
                bytes: b"5\n",
            },
        ],
        folder: &[],
        sink: &[],
        status: Status::Ok,
        text: b"events 15\nintervals 5\nend fault thrown java/lang/Error thread 0 in W/main([Ljava/lang/String;)V at 22\noutput 0\n",
        stored: None,
    },
    Row {
        words: &["run", "P", "A"],
        files: &[
            File {
                name: "P",
                bytes: WRITERS,
            },
            File {
                name: "A",
                bytes: b"7\n7\n3\n",
            },
        ],
        folder: &[],
        sink: &[],
        status: Status::Ok,
        text: b"events 14\nintervals 5\nend done\noutput 0\n",
        stored: None,
    },
    Row {
        words: &["run", "P", "A"],
        files: &[
            File {
                name: "P",
                bytes: WRITERS,
            },
            File {
                name: "A",
                bytes: b"3\n7\n7\n",
            },
        ],
        folder: &[],
        sink: &[],
        status: Status::Ok,
        text: b"events 14\nintervals 5\nend done\noutput 0\n",
        stored: None,
    },
    Row {
        words: &["run", "P", "A"],
        files: &[
            File {
                name: "P",
                bytes: WRITERS,
            },
            File {
                name: "A",
                bytes: b"7",
            },
        ],
        folder: &[],
        sink: &[],
        status: Status::ScheduleRefused,
        text: b"schedule refused: 4 at 0\n",
        stored: None,
    },
    Row {
        words: &["run", "P", "A"],
        files: &[
            File {
                name: "P",
                bytes: WRITERS,
            },
            File {
                name: "A",
                bytes: b"07\n",
            },
        ],
        folder: &[],
        sink: &[],
        status: Status::ScheduleRefused,
        text: b"schedule refused: 1 at 0\n",
        stored: None,
    },
    Row {
        words: &["run", "P", "A", "--events", "20"],
        files: &[
            File {
                name: "P",
                bytes: WRITERS,
            },
            File {
                name: "A",
                bytes: b"21\n",
            },
        ],
        folder: &[],
        sink: &[],
        status: Status::ScheduleRefused,
        text: b"schedule refused: 3 at 0\n",
        stored: None,
    },
    Row {
        words: &["run", "P", "A"],
        files: &[File {
            name: "P",
            bytes: WRITERS,
        }],
        folder: &[],
        sink: &[],
        status: Status::Absent,
        text: b"absent A\n",
        stored: None,
    },
];

#[test]
fn runs_of_schedules(rt: HostRuntime) -> Result<(), Fail> {
    assert_eq!(rt; first_wrong(&rt, rt.alloc(), RUNS)?, None);
    Ok(())
}
