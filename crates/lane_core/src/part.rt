// A thread of a lane.
ghost use Rattle.std.specs.Prelude.{◌≡◌, ◌%◌, Contains, Ok, IfOk, None, [], length};
ghost use Rattle.vm_model.specs.Program.{PlainProgram};
ghost use Rattle.machine_model.specs.LocalStep.{first_of_thread, settled};
ghost use Rattle.local_machine.specs.LocalView.{IsReady};
ghost use Rattle.lane_core.specs.Parts.{Asked, AskedPart, FollowsAt, IsOnlyOf, IsPart, Paced, WithMemory};
ghost use Rattle.lane_core.specs.declared.pace.Pace.TheVariants as pace;

use crate::pace::{LaneEnd, Pace};
use gate_core::{Begun, Gate, Meeting, Offer};
use local_machine::Local;
use schedule_log::Folding;
use std::alloc::Global;
use vm_model::{NoMemory, ObjRef, Plain};

/// A thread that was begun, and the intervals of the clocks of its events.
#[derive(Drop)]
pub struct Part {
    pub local: Local,
    pub folding: Folding,
}

/// Offers the operation of a thread that was begun. Where it becomes an event, its clock is noted, and the thread goes on to its
/// next operation.
pub fn offer_part<G: Gate, M: Meeting>(
    part: &mut Part,
    alloc: Global,
    plain: &Plain,
    gate: &G,
    seat: &mut G::Seat,
    meeting: &M,
    lane: u32,
    thread: u32,
    known: &mut u64,
) -> Result<Pace, LaneEnd>
    requires seat { G.IsSeatOf gate.now seat.old }
    requires lane { Contains (G.told seat.old).lanes lane }
    requires thread { thread % (G.about gate.now).lanes ≡ lane }
    requires part { IsPart plain.now (G.told seat.old) lane thread part.old }
    ensures seat { G.IsSeatOf gate.now seat.new }
    ensures only { IsOnlyOf thread lane (G.told seat.old) (G.told seat.new) }
    ensures paced { Paced result (G.told seat.old) (G.told seat.new) }
    ensures part { WithMemory result (IsPart plain.now (G.told seat.new) lane thread part.new) }
    ensures ended { result ≡ Ok pace.Ended → part.new.local.pending ≡ None }
{
    let Some(op) = part.local.operation() else {
        return Ok(Pace::Ended);
    };
    let Ok(_) = part.folding.reserve() else {
        return Err(LaneEnd::NoMemory);
    };
    meeting.before_offer(lane, *known);
    match gate.offer(alloc, seat, thread, op) {
        Offer::Committed { clock, reply } => {
            part.folding.note(clock);
            part.local.absorb(plain, reply);
            *known = clock + 1;
            meeting.after_commit(lane, clock);
            match part.local.advance(alloc, plain) {
                Ok(_) => Ok(Pace::Moved),
                Err(_) => Err(LaneEnd::NoMemory),
            }
        }
        Offer::Again => Ok(Pace::Still),
        Offer::Leave => Err(LaneEnd::Left),
        Offer::NoMemory => Err(LaneEnd::NoMemory),
    }
}

/// A thread that was started for this object, at its first operation.
fn begin_part(alloc: Global, plain: &Plain, thread: u32, target: ObjRef) -> Result<Part, NoMemory>
    ensures state { IfOk result (λ part. part.local.state ≡ settled plain.now (first_of_thread plain.now target)) }
    ensures ready { IfOk result (λ part. IsReady plain.now part.local) }
    ensures folding { IfOk result (λ part. part.folding ≡ record { thread = thread; intervals = []; room = 0 }) }
{
    let mut local = Local::of_thread(alloc, plain, target)?;
    local.advance(alloc, plain)?;
    let folding = Folding::new(alloc, thread);
    Ok(Part { local, folding })
}

/// Asks for a thread that wasn't begun, and begins it where it was started.
pub fn ask_part<G: Gate>(
    alloc: Global,
    plain: &Plain,
    gate: &G,
    seat: &mut G::Seat,
    lane: u32,
    thread: u32,
) -> Result<Option<Part>, LaneEnd>
    requires seat { G.IsSeatOf gate.now seat.old }
    requires lane { Contains (G.told seat.old).lanes lane }
    requires thread { thread % (G.about gate.now).lanes ≡ lane }
    requires new { FollowsAt plain.now (G.told seat.old) lane thread None }
    ensures seat { G.IsSeatOf gate.now seat.new }
    ensures only { IsOnlyOf thread lane (G.told seat.old) (G.told seat.new) }
    ensures asked { Asked result (G.told seat.old) (G.told seat.new) }
    ensures part { AskedPart plain.now (G.told seat.new) lane thread result }
{
    match gate.begun(seat, thread) {
        Begun::Yes(target) => match begin_part(alloc, plain, thread, target) {
            Ok(part) => Ok(Some(part)),
            Err(_) => Err(LaneEnd::NoMemory),
        },
        Begun::NotYet => Ok(None),
        Begun::Over => Err(LaneEnd::Left),
    }
}
