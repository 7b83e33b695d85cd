//! A schedule as the bytes of a file.

ghost use Rattle.std.specs.Prelude.{◌≡◌, ◌≤◌, ◌++◌, length, All, OnOk, IfOk};
ghost use Rattle.vm_model.specs.declared.limits.TheConstants.{MOST_EVENTS, MOST_SWITCHES};
ghost use Rattle.switch_schedule.specs.Texts.{AreTimes, SpellsSchedule, schedule_text, time_line};

use itoa::Buffer;
use schedule_model::Schedule;
use std::alloc::Global;
use vm_model::NoMemory;

/// Adds the line of a time.
fn put_line(out: &mut Vec<u8>, time: u32) -> Result<(), NoMemory>
    ensures { OnOk result (out.new.items ≡ out.old.items ++ time_line time) }
{
    let mut buffer = Buffer::new();
    out.extend_from_slice(buffer.format(time).as_bytes())?;
    out.push(b'\n')?;
    Ok(())
}

/// The bytes of a schedule's file: a line for each time, in the schedule's order. The schedule has at most 16,384 times,
/// each at most 1,048,576.
pub fn write_schedule(alloc: Global, schedule: &Schedule) -> Result<Vec<u8>, NoMemory>
    requires few { length schedule.now ≤ MOST_SWITCHES }
    requires small { All (λ time. time ≤ MOST_EVENTS) schedule.now }
    ensures text { IfOk result (λ bytes. bytes.items ≡ schedule_text schedule.now) }
    ensures spells { IfOk result (λ bytes. SpellsSchedule MOST_EVENTS schedule.now bytes.items) }
{
    let mut out = Vec::new(alloc);
    for time in &schedule.times {
        put_line(&mut out, *time)?;
    }
    Ok(out)
}
