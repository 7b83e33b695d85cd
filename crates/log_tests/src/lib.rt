//! Tests of what is kept of a run: its log, files and sinks in memory, and what is printed of it. They use public items of the
//! crates below alone, so that each of those is proved once.
#![tactic(auto)]

#[cfg(test)]
mod folders;
#[cfg(test)]
mod logs;
#[cfg(test)]
mod reports;
