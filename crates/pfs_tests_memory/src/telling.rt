//! What is reported of a call, and which calls the words choose.

use pfs_addr_values::NoMemory;
use pfs_conf::LoadFault;
use pfs_tests_cases::CaseError;
use std::alloc::{AllocError, AllocFailed, Global};
use std::cell::Cell;
use std::io::{Error, ErrorKind};
use std::process::ExitCode;

/// Why the calls are not made to their end.
#[derive(Debug, Clone, Copy, PartialEq, Eq)]
pub enum TellingStop {
    /// Memory was refused beside the calls.
    Memory,
    /// A line could not be written, or the words not be read.
    Line,
    /// What is asked is not what a call asks for.
    Input,
}

impl From<NoMemory> for TellingStop {
    fn from(_error: NoMemory) -> TellingStop {
        TellingStop::Memory
    }
}

impl From<AllocError> for TellingStop {
    fn from(_error: AllocError) -> TellingStop {
        TellingStop::Memory
    }
}

impl<T: Drop> From<AllocFailed<T>> for TellingStop {
    fn from(_error: AllocFailed<T>) -> TellingStop {
        TellingStop::Memory
    }
}

impl From<CaseError> for TellingStop {
    fn from(error: CaseError) -> TellingStop {
        match error {
            CaseError::Memory => TellingStop::Memory,
            CaseError::Unreadable => TellingStop::Input,
        }
    }
}

impl From<LoadFault> for TellingStop {
    fn from(_error: LoadFault) -> TellingStop {
        TellingStop::Memory
    }
}

impl From<Error> for TellingStop {
    fn from(error: Error) -> TellingStop {
        if error.kind() == ErrorKind::OutOfMemory {
            TellingStop::Memory
        } else {
            TellingStop::Line
        }
    }
}

/// Tells what came of the calls: of each, where a word chooses a part of them, so that one sees in which call memory was refused; else
/// only of those that deviate, and how many there were.
#[derive(Drop)]
pub struct Teller<'a> {
    rt: &'a HostRuntime,
    lists: bool,
    /// The call that is made, or was made last: its name, and in which case it is.
    call: Cell<(&'static str, &'static str)>,
    calls: Cell<u64>,
    free_calls: Cell<u64>,
    deviations: Cell<u64>,
}

impl<'a> Teller<'a> {
    /// Of no calls so far.
    pub fn new(rt: &'a HostRuntime, lists: bool) -> Teller<'a> {
        Teller {
            rt,
            lists,
            call: Cell::new(("no call", "")),
            calls: Cell::new(0),
            free_calls: Cell::new(0),
            deviations: Cell::new(0),
        }
    }

    /// The program's allocator.
    pub fn alloc(&self) -> Global {
        self.rt.alloc()
    }

    /// What is told behind all calls.
    pub fn sum(&self) -> Result<(), TellingStop> {
        if self.lists {
            println!(self.rt; "whole")?;
            return Ok(());
        }
        let (calls, free) = (self.calls.get(), self.free_calls.get());
        let deviations = self.deviations.get();
        println!(self.rt; "{calls} calls, {free} of them take no memory: {deviations} deviate")?;
        Ok(())
    }

    fn begin(&self, kind: &str, name: &'static str, case: &'static str) -> Result<(), TellingStop> {
        self.call.set((name, case));
        raise(&self.calls);
        if self.lists {
            println!(self.rt; "{kind} {name}{case}")?;
        }
        Ok(())
    }

    /// A verdict on the last call, and whether it is what the call has to answer where no memory is refused.
    fn tell(&self, verdict: &str, deviates: bool) -> Result<(), TellingStop> {
        if self.lists {
            println!(self.rt; "{verdict}")?;
        } else if deviates {
            let (name, case) = self.call.get();
            println!(self.rt; "{name}{case}: {verdict}")?;
        }
        if deviates {
            raise(&self.deviations);
        }
        Ok(())
    }
}

fn raise(count: &Cell<u64>) {
    count.set(count.get().saturating_add(1));
}

/// A call begins that may take memory.
pub fn begin(teller: &Teller, name: &'static str) -> Result<(), TellingStop> {
    teller.begin("call", name, "")
}

/// A call begins that may take memory in this case.
pub fn begin_case(
    teller: &Teller,
    name: &'static str,
    case: &'static str,
) -> Result<(), TellingStop> {
    teller.begin("call", name, case)
}

/// A call begins that takes none.
pub fn begin_free(teller: &Teller, name: &'static str) -> Result<(), TellingStop> {
    raise(&teller.free_calls);
    teller.begin("free", name, "")
}

/// A call has ended; what follows only looks at what came of it.
pub fn end(teller: &Teller) -> Result<(), TellingStop> {
    if teller.lists {
        println!(teller.rt; "done")?;
    }
    Ok(())
}

/// It answered, and that is the plain answer.
pub fn plain(teller: &Teller, is_right: bool) -> Result<bool, TellingStop> {
    let verdict = if is_right { "plain" } else { "wrong answer" };
    teller.tell(verdict, !is_right)?;
    Ok(true)
}

/// It returned out of memory, and all that must then hold holds.
pub fn refused(teller: &Teller, is_right: bool) -> Result<bool, TellingStop> {
    let verdict = if is_right { "refused" } else { "wrong refusal" };
    teller.tell(verdict, true)?;
    Ok(false)
}

/// It answered something else.
pub fn wrong(teller: &Teller) -> Result<bool, TellingStop> {
    teller.tell("wrong error", true)?;
    Ok(true)
}

/// What came of a call that returns a value: whether it is the plain one, or none where memory was refused.
pub fn answered(teller: &Teller, is_right: Option<bool>) -> Result<bool, TellingStop> {
    match is_right {
        Some(is_right) => plain(teller, is_right),
        None => refused(teller, true),
    }
}

/// The words of the command line choose one part of the calls, or all.
pub fn is_chosen(chosen: &str, name: &str) -> bool {
    chosen.is_empty() || chosen == name
}

/// The status of a program of calls: 0, or 4 where memory was refused beside the calls, or 1.
pub fn code_of(ended: Result<(), TellingStop>) -> ExitCode {
    match ended {
        Ok(()) => ExitCode::from(0),
        Err(TellingStop::Memory) => ExitCode::from(4),
        Err(_) => ExitCode::from(1),
    }
}
