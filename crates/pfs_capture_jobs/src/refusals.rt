//! Why words are refused.

ghost use Rattle.std.specs.Prelude.{Some};
ghost use Rattle.pfs_capture_jobs.specs.Mistakes.{mistake_text};

use clap::Error;
use std::fmt;

/// What is wrong with words, beside what `clap` finds wrong. (pfstrace(1))
#[derive(Clone, Copy, Debug, PartialEq, Eq)]
pub enum Mistake {
    /// The word of `--interface` is no name that an interface can have.
    Interface,
    /// A word of `--mac` is no address of an Ethernet.
    Mac,
    /// A word of `--inside` is neither an address nor a prefix.
    Inside,
    /// A word of `--outside` is neither an address nor a prefix.
    Outside,
    /// Both `--inside` and `--outside` are given of one interface.
    BothSides,
    /// `--answers` is given for two interfaces.
    AnswersTwice,
    /// `--answers` names standard output, which has the trace.
    AnswersOut,
    /// `--answers` names a file that is read as a capture.
    AnswersAreCapture,
    /// Several captures are given, but not one for each interface.
    Captures,
    /// Two captures are standard input.
    StandardTwice,
    /// A word is not UTF-8.
    NotText,
}

impl fmt::Display for Mistake {
    ghost output = { λ m. Some (mistake_text m) };

    fn fmt<W: fmt::Write>(&self, f: &mut fmt::Formatter<W>) -> fmt::Result {
        match self {
            Mistake::Interface => write!(f, "--interface: no name of an interface"),
            Mistake::Mac => write!(f, "--mac: no address such as 00:00:5e:00:53:01"),
            Mistake::Inside => write!(f, "--inside: no address and no prefix"),
            Mistake::Outside => write!(f, "--outside: no address and no prefix"),
            Mistake::BothSides => write!(f, "--inside and --outside: give one of them"),
            Mistake::AnswersTwice => write!(f, "--answers: give it once"),
            Mistake::AnswersOut => write!(f, "--answers: standard output has the trace"),
            Mistake::AnswersAreCapture => write!(f, "--answers: this is the capture"),
            Mistake::Captures => write!(
                f,
                "--interface: give one capture for all, or one for each"
            ),
            Mistake::StandardTwice => write!(f, "-: standard input is one capture"),
            Mistake::NotText => write!(f, "a word is not UTF-8"),
        }
    }
}

/// Why words are refused.
#[derive(Drop)]
pub enum WordsRefusal {
    /// `clap` does not understand them, or has told what they ask for: help or the version.
    Clap(Error),
    /// They ask for nothing that can be done.
    Mistake(Mistake),
    /// Memory was refused for what they ask.
    Memory,
}
