//! Tests of the program's calls: reports, faults, jobs and streams, over readers and writers in memory.

#![tactic(auto)]

#[cfg(test)]
mod checks;
#[cfg(test)]
mod tests;
