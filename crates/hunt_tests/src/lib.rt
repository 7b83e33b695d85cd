//! Tests of the commands that hunt a fault, over files and a sink in memory: runs of schedules, the search for one that fails,
//! schedules of logs, isolation, reduction and races. A file for each command.
#![tactic(auto)]

#[cfg(test)]
mod derive;
#[cfg(test)]
mod isolate;
#[cfg(test)]
mod races;
#[cfg(test)]
mod reduce;
#[cfg(test)]
mod run;
#[cfg(test)]
mod seek;
