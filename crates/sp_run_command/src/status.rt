//! How a run ends.
ghost use Rattle.std.specs.Prelude.{◌≡◌};
ghost use Rattle.sp_run_command.specs.Run.{exit_status};

/// How a run ended.
#[derive(Clone, Copy, Debug, PartialEq, Eq)]
pub enum Status {
    /// The report was written, and lists no alarm.
    Clean,
    /// The report was written, and lists alarms.
    Alarms,
    /// The files were refused, and the line that says why was written.
    Refused,
    /// The words don't fit; the usage line was written, and no file was begun.
    Usage,
    /// A file can't be read; nothing was written.
    ReadFault,
    /// A write failed; a prefix was written.
    WriteFault,
    /// Memory ran out; nothing was written.
    NoMemory,
}

impl Status {
    /// The exit status of the program.
    pub fn code(self) -> u8
        ensures { result ≡ exit_status self }
    {
        self as u8
    }
}

/// What is written for files, and its status.
#[derive(Drop)]
pub(crate) struct Answer {
    pub status: Status,
    pub text: Vec<u8>,
}
