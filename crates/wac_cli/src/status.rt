//! The status with which the program ends.

/// How a run ends.
#[derive(Clone, Copy, Debug, PartialEq, Eq)]
pub enum Status {
    /// All was done.
    Done,
    /// A line of the script or the graph was refused.
    Refused,
    /// The words of the command line do not go together.
    Usage,
    /// A read or a write failed, or memory ran out.
    Failed,
}

impl Status {
    /// The status of what was refused: for want of memory the run failed.
    pub fn refused(is_out_of_memory: bool) -> Status {
        if is_out_of_memory {
            Status::Failed
        } else {
            Status::Refused
        }
    }

    /// The number that the system gets.
    pub fn code(self) -> u8 {
        match self {
            Status::Done => 0,
            Status::Refused => 1,
            Status::Usage => 2,
            Status::Failed => 3,
        }
    }
}
