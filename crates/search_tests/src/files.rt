// Schedule files byte by byte.
use schedule_model::Schedule;
use std::alloc::Global;
use std::test::Fail;
use switch_schedule::{ScheduleFault, ScheduleKind, read_schedule, write_schedule};
use vm_model::MOST_EVENTS;

/// The times that these bytes spell.
fn times(alloc: Global, bytes: &[u8], events: u64) -> Result<Vec<u32>, ScheduleFault> {
    let schedule = read_schedule(alloc, bytes, events)?;
    Ok(schedule.times)
}

/// Where and how these bytes are refused, by the number of the kind.
fn refused(alloc: Global, bytes: &[u8], events: u64) -> Option<(u8, u64)> {
    match read_schedule(alloc, bytes, events) {
        Err(ScheduleFault::At { kind, offset }) => Some((kind.number(), offset)),
        _ => None,
    }
}

#[test]
fn lines_that_are_wrong(rt: HostRuntime) -> Result<(), Fail> {
    let alloc = rt.alloc();
    let cases: [(&[u8], u64, ScheduleKind, u64); 12] = [
        (b"7", MOST_EVENTS, ScheduleKind::Trailing, 0),
        (b"7\n7", MOST_EVENTS, ScheduleKind::Trailing, 2),
        (b"07\n", MOST_EVENTS, ScheduleKind::BadNumber, 0),
        (b"\n", MOST_EVENTS, ScheduleKind::BadNumber, 0),
        (b"-1\n", MOST_EVENTS, ScheduleKind::BadNumber, 0),
        (b"+1\n", MOST_EVENTS, ScheduleKind::BadNumber, 0),
        (b"00000007\n", MOST_EVENTS, ScheduleKind::BadNumber, 0),
        (b"10000000\n", MOST_EVENTS, ScheduleKind::BadNumber, 0),
        (b"12\n1 2\n", MOST_EVENTS, ScheduleKind::BadNumber, 3),
        (b"1048577\n", MOST_EVENTS, ScheduleKind::PastBudget, 0),
        (b"21\n", 20, ScheduleKind::PastBudget, 0),
        (b"20\n3\n21\n07\n", 20, ScheduleKind::PastBudget, 5),
    ];
    for (bytes, events, kind, offset) in &cases {
        assert_eq!(rt;
            refused(alloc, bytes, *events),
            Some((kind.number(), *offset))
        );
    }
    Ok(())
}

#[test]
fn lines_of_times(rt: HostRuntime) -> Result<(), Fail> {
    let alloc = rt.alloc();
    let none = times(alloc, b"", 1)?;
    assert_eq!(rt; none.as_slice(), [].as_slice());
    let some = times(alloc, b"0\n1048576\n7\n7\n", MOST_EVENTS)?;
    assert_eq!(rt; some.as_slice(), [0, 1048576, 7, 7].as_slice());
    Ok(())
}

/// So many lines `0`.
fn zeros(alloc: Global, lines: u32) -> Result<Vec<u8>, Fail> {
    let mut bytes = Vec::new(alloc);
    for _ in 0..lines {
        bytes.extend_from_slice(b"0\n")?;
    }
    Ok(bytes)
}

#[test]
fn many_lines(rt: HostRuntime) -> Result<(), Fail> {
    let alloc = rt.alloc();
    let mut bytes = zeros(alloc, 16_384)?;
    let all = times(alloc, &bytes, 1)?;
    assert_eq!(rt; all.len(), 16_384);
    bytes.push(b'0')?;
    assert_eq!(rt; refused(alloc, &bytes, 1), Some((4, 32_768)));
    bytes.push(b'\n')?;
    assert_eq!(rt; refused(alloc, &bytes, 1), Some((2, 32_768)));
    Ok(())
}

#[test]
fn what_is_written(rt: HostRuntime) -> Result<(), Fail> {
    let alloc = rt.alloc();
    let times = Vec::from_slice(alloc, &[5, 0, 1048576])?;
    let bytes = write_schedule(alloc, &Schedule { times })?;
    assert_eq!(rt; bytes.as_slice(), b"5\n0\n1048576\n".as_slice());
    Ok(())
}
