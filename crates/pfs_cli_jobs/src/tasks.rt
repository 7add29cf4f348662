//! What the program is asked to do.

ghost use Rattle.std.specs.Prelude.{◌≡◌, option_map};
ghost use Rattle.pfs_cli_jobs.specs.Jobs.{rules_file, trace_file};

use pfs_words::file_of;

/// What the program is asked to do. Files are named as the words name them; `-` is standard input.
#[derive(Clone, Copy, Debug, PartialEq, Eq)]
pub enum Job<'a> {
    /// No words: replay rules and trace from standard input, with a line `%%` between them.
    Joined,
    /// `check RULES`: whether the rules of a file are accepted.
    Check(&'a str),
    /// `show RULES`: the canonical text of the rules of a file.
    Show(&'a str),
    /// `replay RULES TRACE`: the report of a trace under rules, each in a file.
    Replay(&'a str, &'a str),
}

impl<'a> Job<'a> {
    /// The names of the rules file and of the trace file; none where the job reads standard input or nothing in place of it.
    /// A file with the name `-` is `./-`.
    pub fn files(&self) -> (Option<&'a str>, Option<&'a str>)
        ensures rules { option_map (λ name. name.now) result.0 ≡ rules_file self.now }
        ensures trace { option_map (λ name. name.now) result.1 ≡ trace_file self.now }
    {
        match *self {
            Job::Joined => (None, None),
            Job::Check(rules) | Job::Show(rules) => (file_of(rules), None),
            Job::Replay(rules, trace) => (file_of(rules), file_of(trace)),
        }
    }
}

/// What a command line asks for.
#[derive(Clone, Copy, Debug, PartialEq, Eq)]
pub struct Request<'a> {
    /// What is to be done.
    pub job: Job<'a>,
    /// Whether each line of a report is to be seen before more of the trace is read.
    pub by_lines: bool,
}
