//! Tests of the machine: stores by themselves, and engines that follow the events of cases.

#![tactic(auto)]

#[cfg(test)]
mod checks;
#[cfg(test)]
mod tests;
