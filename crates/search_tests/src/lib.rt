//! Tests of the searches: files and runs of schedules, derived and drawn ones, isolation and reduction, over made-up runs
//! and over one program of two threads. They use public items of the crates below alone, so that each of those is proved once.
#![tactic(auto)]

#[cfg(test)]
mod files;
#[cfg(test)]
mod isolation;
#[cfg(test)]
mod made_up;
#[cfg(test)]
mod reduction;
#[cfg(test)]
mod runs;
#[cfg(test)]
mod switches;
#[cfg(test)]
mod units;
#[cfg(test)]
mod writers;
