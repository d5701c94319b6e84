//! How a run ends.
ghost use Rattle.std.specs.Prelude.{◌≡◌};
ghost use Rattle.command_output.specs.Statuses.{code_of, fetch_status};

use file_fetching::FetchStop;

/// How a run ends. Each but `NoMemory` has a cause, which the contract of `run` states.
#[derive(Clone, Copy)]
pub enum Status {
    /// The command did its work.
    Done,
    /// The text was refused, or the session ended without `exit` after `shutdown`.
    Refused,
    /// The words aren't a command.
    BadWords,
    /// A read failed.
    SourceFault,
    /// A file can't be fetched.
    FilesFault,
    /// Memory ran out.
    NoMemory,
    /// A write failed.
    SinkFault,
    /// The input has a fault of frames.
    FrameFault,
    /// A text or a file is longer than its limit, or too many files are named.
    TooLong,
    /// A session took as many bytes as one may.
    Endless,
}

impl Status {
    /// The status of a run that ends where a file wasn't fetched.
    pub fn of_fetch(stop: FetchStop) -> Status
        ensures { result ≡ fetch_status stop }
    {
        match stop {
            FetchStop::Long => Status::TooLong,
            FetchStop::Failed => Status::FilesFault,
            FetchStop::Memory => Status::NoMemory,
        }
    }

    /// The number that the process ends with.
    pub fn code(self) -> u8
        ensures { result ≡ code_of self }
    {
        match self {
            Status::Done => 0,
            Status::Refused => 1,
            Status::BadWords => 2,
            Status::SourceFault | Status::FilesFault => 3,
            Status::NoMemory => 4,
            Status::SinkFault => 5,
            Status::FrameFault => 6,
            Status::TooLong => 7,
            Status::Endless => 8,
        }
    }
}
