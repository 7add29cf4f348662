//! Tests of the calls that read and show texts: rows of data, and small functions that run them.

#![tactic(auto)]

#[cfg(test)]
mod checks;
#[cfg(test)]
mod tests;
