// The command isolate.

use dejavu_tool::Status;
use std::test::Fail;
use tool_tests::commands::programs::WRITERS;
use tool_tests::commands::{File, Row, first_wrong};

const ISOLATIONS: &[Row] = &[
    Row {
        words: &["isolate", "P", "A", "B"],
        files: &[
            File {
                name: "P",
                bytes: WRITERS,
            },
            File {
                name: "A",
                bytes: b"9\n",
            },
            File {
                name: "B",
                bytes: b"5\n",
            },
        ],
        folder: &[],
        sink: &[],
        status: Status::Ok,
        text: b"pass 6\nfail 5\nplace 0 6 5\nunits 1\nasked 2\nunresolved 0\n",
        stored: None,
    },
    Row {
        words: &["isolate", "P", "A", "B", "--workers", "4"],
        files: &[
            File {
                name: "P",
                bytes: WRITERS,
            },
            File {
                name: "A",
                bytes: b"9\n",
            },
            File {
                name: "B",
                bytes: b"5\n",
            },
        ],
        folder: &[],
        sink: &[],
        status: Status::Ok,
        text: b"pass 6\nfail 5\nplace 0 6 5\nunits 1\nasked 2\nunresolved 0\n",
        stored: None,
    },
    Row {
        words: &["isolate", "P", "A", "B"],
        files: &[
            File {
                name: "P",
                bytes: WRITERS,
            },
            File {
                name: "A",
                bytes: b"6\n",
            },
            File {
                name: "B",
                bytes: b"5\n",
            },
        ],
        folder: &[],
        sink: &[],
        status: Status::Ok,
        text: b"pass 6\nfail 5\nplace 0 6 5\nunits 1\nasked 0\nunresolved 0\n",
        stored: None,
    },
    Row {
        words: &["isolate", "P", "A", "B", "--events", "20"],
        files: &[
            File {
                name: "P",
                bytes: WRITERS,
            },
            File {
                name: "A",
                bytes: b"",
            },
            File {
                name: "B",
                bytes: b"5\n",
            },
        ],
        folder: &[],
        sink: &[],
        status: Status::Ok,
        text: b"pass 6\nfail 5\nplace 0 6 5\nunits 1\nasked 4\nunresolved 0\n",
        stored: None,
    },
    Row {
        words: &["isolate", "P", "A", "B", "--events", "20", "--tests", "4"],
        files: &[
            File {
                name: "P",
                bytes: WRITERS,
            },
            File {
                name: "A",
                bytes: b"",
            },
            File {
                name: "B",
                bytes: b"5\n",
            },
        ],
        folder: &[],
        sink: &[],
        status: Status::Ok,
        text: b"pass 6\nfail 5\nplace 0 6 5\nunits 1\nasked 4\nunresolved 0\n",
        stored: None,
    },
    Row {
        words: &["isolate", "P", "A", "B", "--events", "20", "--tests", "3"],
        files: &[
            File {
                name: "P",
                bytes: WRITERS,
            },
            File {
                name: "A",
                bytes: b"",
            },
            File {
                name: "B",
                bytes: b"5\n",
            },
        ],
        folder: &[],
        sink: &[],
        status: Status::TestsSpent,
        text: b"tests spent 3\n",
        stored: None,
    },
    Row {
        words: &["isolate", "P", "A", "B", "--tests", "1"],
        files: &[
            File {
                name: "P",
                bytes: WRITERS,
            },
            File {
                name: "A",
                bytes: b"9\n",
            },
            File {
                name: "B",
                bytes: b"5\n",
            },
        ],
        folder: &[],
        sink: &[],
        status: Status::TestsSpent,
        text: b"tests spent 1\n",
        stored: None,
    },
    Row {
        words: &["isolate", "P", "A", "B"],
        files: &[
            File {
                name: "P",
                bytes: WRITERS,
            },
            File {
                name: "A",
                bytes: b"5\n",
            },
            File {
                name: "B",
                bytes: b"9\n",
            },
        ],
        folder: &[],
        sink: &[],
        status: Status::NotPassing,
        text: b"not passing: end fault thrown java/lang/Error thread 0 in W/main([Ljava/lang/String;)V at 22\n",
        stored: None,
    },
    Row {
        words: &["isolate", "P", "A", "B"],
        files: &[
            File {
                name: "P",
                bytes: WRITERS,
            },
            File {
                name: "A",
                bytes: b"9\n",
            },
            File {
                name: "B",
                bytes: b"9\n",
            },
        ],
        folder: &[],
        sink: &[],
        status: Status::NotFailing,
        text: b"not failing: end done\n",
        stored: None,
    },
    Row {
        words: &["isolate", "P", "A", "B"],
        files: &[
            File {
                name: "P",
                bytes: WRITERS,
            },
            File {
                name: "A",
                bytes: b"9\n",
            },
            File {
                name: "B",
                bytes: b"5\n",
            },
        ],
        folder: &[0],
        sink: &[],
        status: Status::ReadFault,
        text: b"read fault P\n",
        stored: None,
    },
    Row {
        words: &["isolate", "P", "A", "B"],
        files: &[
            File {
                name: "P",
                bytes: WRITERS,
            },
            File {
                name: "A",
                bytes: b"9\n",
            },
            File {
                name: "B",
                bytes: b"5\n",
            },
        ],
        folder: &[1],
        sink: &[],
        status: Status::ReadFault,
        text: b"read fault A\n",
        stored: None,
    },
    Row {
        words: &["isolate", "P", "A", "B"],
        files: &[
            File {
                name: "P",
                bytes: WRITERS,
            },
            File {
                name: "A",
                bytes: b"9\n",
            },
            File {
                name: "B",
                bytes: b"5\n",
            },
        ],
        folder: &[2],
        sink: &[],
        status: Status::ReadFault,
        text: b"read fault B\n",
        stored: None,
    },
];

#[test]
fn isolations(rt: HostRuntime) -> Result<(), Fail> {
    assert_eq!(rt; first_wrong(&rt, rt.alloc(), ISOLATIONS)?, None);
    Ok(())
}
