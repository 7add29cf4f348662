//! What a command line asks for.

use pfs_capture::CapturePoint;

/// What is written beside the trace, and how.
#[derive(Clone, Copy)]
pub struct Output<'a> {
    /// The file for what pf answered, if one is wanted.
    pub answers: Option<&'a str>,
    /// Whether each row is to be seen before more of the captures is read.
    pub by_lines: bool,
}

/// A capture's interfaces, and its file; none stands for standard input.
#[derive(Drop)]
pub struct CaptureSource<'a> {
    /// The interfaces, in the order of the words.
    pub points: Vec<CapturePoint>,
    /// The name of the file.
    pub name: Option<&'a str>,
}

/// What a command line asks for.
#[derive(Drop)]
pub struct TraceRequest<'a> {
    /// The captures that are read.
    pub sources: Vec<CaptureSource<'a>>,
    /// What is written beside the trace.
    pub output: Output<'a>,
}
