//! Tests of shapes: which programs and which texts are verified, and for which fault and where the others are refused.
#![tactic(auto)]

#[cfg(test)]
mod programs;
#[cfg(test)]
mod texts;
