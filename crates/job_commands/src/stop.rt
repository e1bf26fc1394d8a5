// How a command ends by what a call below it answers.
ghost use Rattle.std.specs.Prelude.{◌≡◌};
ghost use Rattle.job_commands.specs.Statuses.{status_of, status_of_load, status_of_stop};

use crawl_traits::StoreFault;
use open_crawl::{LoadFault, SeedsStop};
use program_status::Status;

/// The status of a fault of the volume.
pub fn status_of(fault: StoreFault) -> Status
    ensures { result ≡ status_of fault }
{
    match fault {
        StoreFault::Volume => Status::VolumeFault,
        StoreFault::Damaged { file, at } => Status::Damaged { file, at },
        StoreFault::NoMemory => Status::NoMemory,
    }
}

/// The status where no job can be read.
pub fn status_of_load(fault: LoadFault) -> Status
    ensures { result ≡ status_of_load fault }
{
    match fault {
        LoadFault::NoJob => Status::NoJob,
        LoadFault::Store(fault) => status_of(fault),
    }
}

/// The status where no seeds can be added.
pub fn status_of_stop(stop: SeedsStop) -> Status
    ensures { result ≡ status_of_stop stop }
{
    match stop {
        SeedsStop::Full { known, adds } => Status::Full { known, adds },
        SeedsStop::Volume => Status::VolumeFault,
        SeedsStop::NoMemory => Status::NoMemory,
    }
}
