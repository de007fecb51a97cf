//! How a run ends.

ghost use Rattle.std.specs.Prelude.{◌≡◌};
ghost use Rattle.site_server.specs.ExitStatus.{exit_status, status_of};

use crate::connection::End;

/// How a run of the program ends.
#[derive(Clone, Copy, Debug, PartialEq, Eq)]
pub enum Status {
    /// All was done.
    Done,
    /// The words are no command.
    Usage,
    /// The settings file isn't well formed.
    BadSettings,
    /// The settings or the input couldn't be read.
    ReadFault,
    /// The output couldn't be written.
    WriteFault,
    /// The store failed at its opening.
    KeeperFault,
    /// Memory was out.
    Memory,
    /// The command was refused, and a line says why.
    Refused,
    /// The audit list or the numbers of starts are used up.
    Full,
}

impl Status {
    /// The exit status of the program.
    pub fn code(self) -> u8
        ensures { result ≡ exit_status self }
    {
        match self {
            Status::Done => 0,
            Status::Usage => 2,
            Status::BadSettings => 3,
            Status::ReadFault => 4,
            Status::WriteFault => 5,
            Status::KeeperFault => 6,
            Status::Memory => 7,
            Status::Refused => 9,
            Status::Full => 10,
        }
    }
}

/// How a run ends that served one connection.
pub fn status_of(end: End) -> Status
    ensures { result ≡ status_of end }
{
    match end {
        End::Closed => Status::Done,
        End::ReadFault => Status::ReadFault,
        End::WriteFault => Status::WriteFault,
        End::Memory => Status::Memory,
    }
}
