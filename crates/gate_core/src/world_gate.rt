ghost use Rattle.std.specs.Prelude.{List, ◌≡◌, ◌≢◌, ◌<◌, [], ◌∷◌, ◌++◌, false, ℕ, Contains, Some};
ghost use Rattle.vm_model.specs.declared.value.ObjRef.{ObjRef};
ghost use Rattle.projection_laws.specs.Projections.{target_in};
ghost use Rattle.shared_world.specs.Worlds.{WorldState};
ghost use Rattle.gate_core.specs.Seats.{SeesMore};
ghost use Rattle.gate_core.specs.Histories.{entries_of_lane};

use crate::gate::Gate;
use shared_world::World;

/// A gate before one world. It begins with one seat, from which a seat of each lane is split; the ended seats are joined
/// again, and at last the gate gives up its world.
pub trait WorldGate: Gate + Drop {
    /// How many events the world takes in all.
    ghost budget: { Self → ℕ };

    /// The lanes for which a seat may still split another one.
    ghost gives: { Self.Seat → List ℕ };

    /// The gate can end with this world.
    ghost Admits: { Self → WorldState → Type 0 };

    /// A seat of the lane, split from this one. It takes no memory.
    fn split(&self, seat: &mut Self::Seat, lane: u32) -> Self::Seat
        requires seat { Self.IsSeatOf self.now seat.old }
        requires gives { Contains (gives seat.old) lane }
        ensures seat { Self.IsSeatOf self.now seat.new }
        ensures lanes { (Self.told seat.new).lanes ≡ (Self.told seat.old).lanes }
        ensures entries { (other : ℕ) → (Self.told seat.new).own other ≡ (Self.told seat.old).own other }
        ensures told_off { (Self.told seat.new).is_told_off ≡ (Self.told seat.old).is_told_off }
        ensures gives { (other : ℕ) → other ≢ lane → Contains (gives seat.old) other → Contains (gives seat.new) other }
        ensures new { Self.IsSeatOf self.now result }
        ensures new_lanes { (Self.told result).lanes ≡ lane ∷ [] }
        ensures new_entries { (Self.told result).own lane ≡ [] }
        ensures new_told_off { (Self.told result).is_told_off ≡ false };

    /// Takes back a seat that has ended: its lanes, their entries and the threads that it saw started are now this one's. It
    /// takes no memory.
    fn join(&self, into: &mut Self::Seat, ended: Self::Seat)
        requires seat { Self.IsSeatOf self.now into.old }
        requires ended { Self.IsSeatOf self.now ended }
        ensures seat { Self.IsSeatOf self.now into.new }
        ensures lanes { (Self.told into.new).lanes ≡ (Self.told into.old).lanes ++ (Self.told ended).lanes }
        ensures entries { (lane : ℕ) → Contains (Self.told into.old).lanes lane → (Self.told into.new).own lane ≡ (Self.told into.old).own lane }
        ensures ended_entries { (lane : ℕ) → Contains (Self.told ended).lanes lane → (Self.told into.new).own lane ≡ (Self.told ended).own lane }
        ensures sees { SeesMore (Self.told into.old) (Self.told into.new) }
        ensures ended_sees { SeesMore (Self.told ended) (Self.told into.new) };

    /// The world behind the gate. The seat has every lane, so no other one is at work. It takes no memory.
    fn close(self, seat: Self::Seat) -> World
        requires seat { Self.IsSeatOf self seat }
        requires all { (lane : ℕ) → lane < (Self.about self).lanes → Contains (Self.told seat).lanes lane }
        ensures declarations { result.declarations ≡ (Self.about self).declarations }
        ensures budget { result.budget ≡ budget self }
        ensures admits { Admits self result }
        ensures entries { (lane : ℕ) → lane < (Self.about self).lanes → entries_of_lane (Self.about self).lanes lane result.history ≡ (Self.told seat).own lane }
        ensures targets { (t : ℕ) (target : ObjRef) → (Self.told seat).targets t ≡ Some target → target_in result.history t ≡ Some target };
}
