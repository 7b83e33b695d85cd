//! Tests of what reads and judges a program's text: the tokens, the classes that are read, and the program that they are
//! linked to. They use public items of the crates below alone, so that each of those is proved once.
#![tactic(auto)]

#[cfg(test)]
mod linking;
#[cfg(test)]
mod reading;
#[cfg(test)]
mod texts;
#[cfg(test)]
mod tokens;
