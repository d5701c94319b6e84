//! Why a row has no answer.
use ls_base::Memory;
use scheme_tokens::ReadFault;
use std::alloc::{AllocError, AllocFailed};
use std::str::Utf8Error;

/// Why a row has no answer.
#[derive(Clone, Copy)]
pub enum RowFault {
    /// The line has no tab behind its call.
    NoTab,
    /// There is no such call.
    NoCall,
    /// The argument is no JSON.
    NoJson,
    /// The argument is not what the call takes.
    BadArgument,
    /// A text of more bytes than a row may make.
    TooLong,
    /// Bytes that should be a text and are not UTF-8.
    NotUtf8,
    /// What is to be shown is not of the shape that the call shows.
    NotShown,
    /// Two ways to one answer give two answers.
    Differs,
    /// Memory ran out.
    Memory,
}

/// What is there unless a row has no answer.
pub type Row<T> = Result<T, RowFault>;

impl RowFault {
    /// The words that are printed.
    pub fn words(self) -> &'static str {
        match self {
            RowFault::NoTab => "no tab behind the call",
            RowFault::NoCall => "no such call",
            RowFault::NoJson => "the argument is no JSON",
            RowFault::BadArgument => "not what the call takes",
            RowFault::TooLong => "the text is too long",
            RowFault::NotUtf8 => "not UTF-8",
            RowFault::NotShown => "of another shape than the call shows",
            RowFault::Differs => "two ways give two answers",
            RowFault::Memory => "memory ran out",
        }
    }
}

impl From<AllocError> for RowFault {
    fn from(_: AllocError) -> Self {
        RowFault::Memory
    }
}

impl<T: Drop> From<AllocFailed<T>> for RowFault {
    fn from(_: AllocFailed<T>) -> Self {
        RowFault::Memory
    }
}

impl From<Memory> for RowFault {
    fn from(_: Memory) -> Self {
        RowFault::Memory
    }
}

impl From<Utf8Error> for RowFault {
    fn from(_: Utf8Error) -> Self {
        RowFault::NotUtf8
    }
}

impl From<ReadFault> for RowFault {
    fn from(fault: ReadFault) -> Self {
        match fault {
            ReadFault::Memory => RowFault::Memory,
            ReadFault::At { .. } => RowFault::NotShown,
        }
    }
}
