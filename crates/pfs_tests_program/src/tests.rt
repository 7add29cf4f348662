//! The tests, with what they alone use.

mod commands;
mod cuts;
mod failing;
mod fakes;
mod families;
mod jobs;
mod lines;
mod profiles;
mod reports;
mod routes;
mod runs;
mod scenarios;
mod streams;
mod syncookies;
mod synproxies;
mod tags;
mod tallies;
mod traces;
mod translations;
mod verdicts;
mod words;
