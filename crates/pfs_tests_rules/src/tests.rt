//! The tests, with what they alone use.

mod asking;
mod bounds;
mod generated;
mod lifetimes;
mod marks;
mod packets;
mod phases;
mod plain;
mod scores;
mod tables;
mod tcp_steps;
mod translations;
mod verdicts;
mod visits;
