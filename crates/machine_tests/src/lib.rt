//! Tests of the machine of all threads: monitors, worlds, turns, and replays of small programs. They use public items of the
//! crates below alone, so that each of those is proved once.
#![tactic(auto)]

#[cfg(test)]
mod fitting;
#[cfg(test)]
mod monitors;
#[cfg(test)]
mod programs;
#[cfg(test)]
mod replays;
#[cfg(test)]
mod turns;
#[cfg(test)]
mod worlds;
