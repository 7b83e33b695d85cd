// The rows of the threads that were started.
ghost use Rattle.std.specs.Prelude.{◌≡◌, slice_get};
ghost use Rattle.std.specs.List.{list_any, list_all};
ghost use Rattle.machine_model.specs.Shared.{is_live_state as is_live_in, is_live_row};
ghost use Rattle.machine_model.specs.Operations.{is_ready_row, may_resume_row, same_lock as same_lock_of, keeps as keeps_lock, has_target as has_target_of, runs_for as runs_for_id, set_row as row_set, kept_of, target_of, notify_rows as rows_notified};
ghost use Rattle.machine_model.specs.Machine.{has_ended};

use machine_model::{Kept, Row, RowState};
use vm_model::{Lock, ObjRef};

fn is_live_state(state: RowState) -> bool
    ensures { result ≡ is_live_in state }
{
    match state {
        RowState::Live => true,
        RowState::Waiting => true,
        RowState::Notified => true,
        RowState::Ended => false,
    }
}

/// Whether the thread was started and hasn't ended.
pub fn is_live(rows: &[Row], thread: u32) -> bool
    ensures { result ≡ is_live_row (slice_get rows.now thread) }
{
    match rows.get(thread as usize) {
        Some(row) => is_live_state(row.state),
        None => false,
    }
}

/// Whether the thread is live, and neither waits nor was notified.
pub fn is_ready(rows: &[Row], thread: u32) -> bool
    ensures { result ≡ is_ready_row (slice_get rows.now thread) }
{
    match rows.get(thread as usize) {
        Some(row) => match row.state {
            RowState::Live => true,
            RowState::Waiting => false,
            RowState::Notified => false,
            RowState::Ended => false,
        },
        None => false,
    }
}

fn same_lock(one: Lock, other: Lock) -> bool
    ensures { result ≡ same_lock_of one other }
{
    match one {
        Lock::Object(id) => match other {
            Lock::Object(found) => id == found,
            Lock::Class(_) => false,
        },
        Lock::Class(class) => match other {
            Lock::Class(found) => class == found,
            Lock::Object(_) => false,
        },
    }
}

fn keeps(kept: Option<Kept>, lock: Lock, count: u32) -> bool
    ensures { result ≡ keeps_lock kept lock count }
{
    match kept {
        Some(kept) => same_lock(kept.lock, lock) && kept.count == count,
        None => false,
    }
}

/// Whether the thread was notified, and its wait was on this lock, entered so often.
pub fn may_resume(rows: &[Row], thread: u32, lock: Lock, count: u32) -> bool
    ensures { result ≡ may_resume_row (slice_get rows.now thread) lock count }
{
    match rows.get(thread as usize) {
        Some(row) => match row.state {
            RowState::Live => false,
            RowState::Waiting => false,
            RowState::Notified => keeps(row.kept, lock, count),
            RowState::Ended => false,
        },
        None => false,
    }
}

fn has_target(row: &Row, id: u32) -> bool
    ensures { result ≡ has_target_of id row.now }
{
    match row.target {
        Some(target) => target.id == id,
        None => false,
    }
}

fn runs_for(row: &Row, id: u32) -> bool
    ensures { result ≡ runs_for_id id row.now }
{
    has_target(row, id) && is_live_state(row.state)
}

/// Whether a thread of this object was started.
pub fn was_started(rows: &[Row], id: u32) -> bool
    ensures { result ≡ list_any (has_target_of id) rows.now }
{
    rows.iter().any(|row| has_target(row, id))
}

/// Whether a thread of this object was started and hasn't ended.
pub fn is_running(rows: &[Row], id: u32) -> bool
    ensures { result ≡ list_any (runs_for_id id) rows.now }
{
    rows.iter().any(|row| runs_for(row, id))
}

/// The object that the thread was started for.
pub fn target(rows: &[Row], thread: u32) -> Option<ObjRef>
    ensures { result ≡ target_of (slice_get rows.now thread) }
{
    match rows.get(thread as usize) {
        Some(row) => row.target,
        None => None,
    }
}

fn kept(rows: &[Row], thread: u32) -> Option<Kept>
    ensures { result ≡ kept_of (slice_get rows.now thread) }
{
    match rows.get(thread as usize) {
        Some(row) => row.kept,
        None => None,
    }
}

/// Puts the thread into another state.
pub fn set_row(rows: &mut [Row], thread: u32, state: RowState, kept: Option<Kept>)
    ensures { rows.new ≡ row_set rows.old thread state kept }
{
    let place = thread as usize;
    if place < rows.len() {
        let target = rows[place].target;
        rows[place] = Row {
            state,
            target,
            kept,
        };
    }
}

fn notify_row(rows: &mut [Row], thread: u32)
    ensures { rows.new ≡ row_set rows.old thread RowState.Notified (kept_of (slice_get rows.old thread)) }
{
    let kept = kept(rows, thread);
    set_row(rows, thread, RowState::Notified, kept);
}

/// Notifies these threads.
pub fn notify_rows(rows: &mut [Row], threads: &[u32])
    ensures { rows.new ≡ rows_notified rows.old threads.now }
{
    for thread in threads {
        notify_row(rows, *thread);
    }
}

/// Whether all these threads have ended.
pub fn all_ended(rows: &[Row]) -> bool
    ensures { result ≡ list_all has_ended rows.now }
{
    rows.iter().all(|row| !is_live_state(row.state))
}
