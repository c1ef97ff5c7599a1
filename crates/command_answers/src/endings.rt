// How a run ends: with its answer shown, or by a fault; and with which exit status.
ghost use Rattle.std.specs.Prelude.{◌≡◌};

use plan_basics::Refusal;
use plan_import::ImportFault;
use sqlite::ErrorCode;
use std::alloc::AllocError;
use std::{fmt, io};

/// How a run ends that has shown its answer.
#[derive(Clone, Copy)]
pub enum Ending {
    /// Accepted, or the help that was asked for.
    Done,
    /// Refused by the plan.
    Refused,
    /// The words aren't understood.
    Misunderstood,
}

impl Ending {
    ghost use Rattle.command_answers.specs.Statuses.{ending_status};

    /// The exit status.
    pub fn status(self) -> u8
        ensures { result ≡ ending_status self }
    {
        match self {
            Ending::Done => 0,
            Ending::Refused => 1,
            Ending::Misunderstood => 2,
        }
    }
}

/// Why a run ends without its answer being shown in full.
#[derive(Clone, Copy)]
pub enum Fault {
    /// A word isn't UTF-8.
    Encoding,
    /// The words ask for nothing.
    Words,
    /// The moment is no civil minute's text.
    Moment,
    /// The text of a request is no request.
    Request,
    /// A file or a standard stream failed, or the file isn't there.
    File,
    /// The port can't be had, or it gives no connection.
    Network,
    /// Memory lacks outside the plan.
    Memory,
}

impl Fault {
    ghost use Rattle.std.specs.IoError.{error_kind};
    ghost use Rattle.command_answers.specs.Statuses.{fault_status, fault_of_words_kind};

    /// The fault where the words that the program was started with can't be had.
    pub fn of_words(error: &io::Error) -> Fault
        ensures { result ≡ fault_of_words_kind (error_kind error.now) }
    {
        match error.kind() {
            io::ErrorKind::OutOfMemory => Fault::Memory,
            _ => Fault::Encoding,
        }
    }

    /// The exit status: 2 where the words, the moment or a request are at fault, 3 where the surroundings are.
    pub fn status(self) -> u8
        ensures { result ≡ fault_status self }
    {
        match self {
            Fault::Encoding | Fault::Words | Fault::Moment | Fault::Request => 2,
            Fault::File | Fault::Network | Fault::Memory => 3,
        }
    }
}

/// Why there is no desk.
#[derive(Drop)]
pub enum NoDesk {
    /// None could be made or opened, or the load at it was refused.
    Refused(Refusal),
    /// A fault came before.
    Faulty(Fault),
}

impl fmt::Display for Fault {
    ghost use Rattle.std.specs.Prelude.{Some};
    ghost use Rattle.command_answers.specs.Words.{fault_text};

    ghost output = { λ fault. Some (fault_text fault) };

    fn fmt<W: fmt::Write>(&self, f: &mut fmt::Formatter<W>) -> fmt::Result {
        match self {
            Fault::Encoding => f.write_str("fault words (not UTF-8)"),
            Fault::Words => f.write_str("fault words"),
            Fault::Moment => f.write_str("fault moment"),
            Fault::Request => f.write_str("fault request"),
            Fault::File => f.write_str("fault file"),
            Fault::Network => f.write_str("fault network"),
            Fault::Memory => f.write_str("fault memory"),
        }
    }
}

impl From<io::Error> for Fault {
    ghost use Rattle.std.specs.Prelude.{◌≡◌};
    ghost use Rattle.std.specs.IoError.{error_kind};
    ghost use Rattle.command_answers.specs.Statuses.{fault_of_kind};

    ghost from_gives = { λ error fault. fault ≡ fault_of_kind (error_kind error) };

    fn from(error: io::Error) -> Fault {
        match error.kind() {
            io::ErrorKind::OutOfMemory => Fault::Memory,
            _ => Fault::File,
        }
    }
}

impl From<sqlite::Error> for Fault {
    ghost use Rattle.std.specs.Prelude.{◌≡◌};
    ghost use Rattle.command_answers.specs.Statuses.{fault_of_store};

    ghost from_gives = { λ error fault. fault ≡ fault_of_store error };

    fn from(error: sqlite::Error) -> Fault {
        if matches!(error, sqlite::Error::SqliteFailure(ErrorCode::OutOfMemory)) {
            Fault::Memory
        } else {
            Fault::File
        }
    }
}

impl From<AllocError> for Fault {
    ghost use Rattle.std.specs.Prelude.{◌≡◌};
    ghost use Rattle.command_answers.specs.declared.endings.Fault.{Fault};

    ghost from_gives = { λ _ fault. fault ≡ Fault.Memory };

    fn from(_e: AllocError) -> Fault {
        Fault::Memory
    }
}

impl From<ImportFault> for Fault {
    ghost use Rattle.std.specs.Prelude.{◌≡◌};
    ghost use Rattle.command_answers.specs.Statuses.{fault_of_import};

    ghost from_gives = { λ import fault. fault ≡ fault_of_import import };

    fn from(fault: ImportFault) -> Fault {
        match fault {
            ImportFault::Reader => Fault::File,
            ImportFault::Memory => Fault::Memory,
        }
    }
}
