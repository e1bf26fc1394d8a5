// How a command ends.
ghost use Rattle.std.specs.Prelude.{◌≡◌};
ghost use Rattle.program_status.specs.Status.{code_of};

use crawl_traits::FileId;
use job_spec::JobFault;

/// How a command ends.
#[derive(Drop)]
pub enum Status {
    /// The command was done.
    Done,
    /// The words are no command: the first word at which none continues, or the number of words where one more is wanted.
    Usage(usize),
    /// The source's text is refused.
    JobRefused(JobFault),
    /// The volume failed.
    VolumeFault,
    /// A file has no reading, from this place on.
    Damaged { file: FileId, at: u64 },
    /// The output failed.
    SinkFault,
    /// So many keys are known and so many would be added, which is more than the job allows.
    Full { known: u64, adds: u64 },
    NoMemory,
    /// The volume keeps no job.
    NoJob,
    /// The volume keeps a job already.
    JobThere,
    /// The source failed.
    SourceFault,
}

impl Status {
    /// The number with which the program ends.
    pub fn code(&self) -> u8
        ensures { result ≡ code_of self.now }
    {
        match self {
            Status::Done => 0,
            Status::Usage(_) => 1,
            Status::JobRefused(_) => 2,
            Status::VolumeFault => 3,
            Status::Damaged { .. } => 4,
            Status::SinkFault => 5,
            Status::Full { .. } => 6,
            Status::NoMemory => 7,
            Status::NoJob => 8,
            Status::JobThere => 9,
            Status::SourceFault => 10,
        }
    }
}
