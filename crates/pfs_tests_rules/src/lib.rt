//! Tests of what a configuration asks for: which rule decides and how many items are visited, each parameter of a rule, tables, phases,
//! scores and lifetimes.

#![tactic(auto)]

#[cfg(test)]
mod checks;
#[cfg(test)]
mod tests;
