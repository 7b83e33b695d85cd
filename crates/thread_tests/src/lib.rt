//! Tests of one thread by itself: its instructions, its objects and its calls. They use public items of the crates below
//! alone, so that each of those is proved once.
#![tactic(auto)]

#[cfg(test)]
mod instructions;
#[cfg(test)]
mod locals;
#[cfg(test)]
mod objects;
