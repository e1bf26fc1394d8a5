// The line of a status, which takes no memory.
ghost use Rattle.std.specs.Prelude.{◌≡◌, ◌≤◌, ◌++◌, [], codes, IsTrue};
ghost use Rattle.std.specs.Fmt.{decimal};
ghost use Rattle.crawl_traits.specs.Causes.{Rose};
ghost use Rattle.program_status.specs.Gains.{Gains, Says};
ghost use Rattle.program_status.specs.Status.{fault_text, file_name, five_digits, printed, status_text};

use crate::pieces::{write_name, write_pieces};
use crate::status::Status;
use crawl_traits::{Failed, FileId, Sink};
use itoa::Buffer;
use job_spec::JobFault;

/// Writes a line as it stands.
fn say_plainly<W: Sink>(out: &mut W, line: &[u8]) -> Result<(), Failed>
    ensures { Says W.Sink out.old out.new (line.now) result }
{
    write_pieces(out, &[line])
}

/// Writes the line of a refusal that has a name.
fn say_named<W: Sink>(out: &mut W, fault: &[u8], name: &[u8]) -> Result<(), Failed>
    ensures { Says W.Sink out.old out.new (codes "job refused: " ++ fault.now ++ printed name.now ++ codes "\n") result }
{
    match write_pieces(out, &[b"job refused: ", fault]) {
        Ok(()) => {}
        Err(Failed) => return Err(Failed),
    }
    match write_name(out, name) {
        Ok(()) => {}
        Err(Failed) => return Err(Failed),
    }
    write_pieces(out, &[b"\n"])
}

/// Writes the line of a refusal that has a number.
fn say_counted<W: Sink>(out: &mut W, fault: &[u8], number: u64) -> Result<(), Failed>
    ensures { Says W.Sink out.old out.new (codes "job refused: " ++ fault.now ++ decimal number ++ codes "\n") result }
{
    let mut digits = Buffer::new();
    let digits = digits.format(number).as_bytes();
    write_pieces(out, &[b"job refused: ", fault, digits, b"\n"])
}

/// Writes the line of a refusal.
#[tactic(auto, unfolding(crate::specs::Status::fault_text))]
fn say_refused<W: Sink>(out: &mut W, fault: &JobFault) -> Result<(), Failed>
    ensures { Says W.Sink out.old out.new (codes "job refused: " ++ fault_text fault.now ++ codes "\n") result }
{
    match fault {
        JobFault::TooLong => say_plainly(out, b"job refused: TooLong\n"),
        JobFault::NotToml => say_plainly(out, b"job refused: NotToml\n"),
        JobFault::UnknownName { name } => say_named(out, b"UnknownName ", name.as_slice()),
        JobFault::Missing { name } => say_named(out, b"Missing ", name.as_slice()),
        JobFault::OutOfRange { name } => say_named(out, b"OutOfRange ", name.as_slice()),
        JobFault::BadSeed { line } => say_counted(out, b"BadSeed ", u64::from(*line)),
        JobFault::BadPattern { index } => say_counted(out, b"BadPattern ", *index as u64),
        JobFault::NoMemory => say_plainly(out, b"job refused: NoMemory\n"),
    }
}

/// Five zeros.
const ZEROS: &[u8; 5] = b"00000";

/// Writes the line of a damage in a file that has no number.
fn say_plain<W: Sink>(out: &mut W, name: &[u8], at: u64) -> Result<(), Failed>
    ensures { Says W.Sink out.old out.new (codes "damaged: " ++ name.now ++ codes " at " ++ decimal at ++ codes "\n") result }
{
    let mut place = Buffer::new();
    let place = place.format(at).as_bytes();
    write_pieces(out, &[b"damaged: ", name, b" at ", place, b"\n"])
}

/// Writes the line of a damage in a file with a number, between the parts of its name.
fn say_numbered<W: Sink>(
    out: &mut W,
    front: &[u8],
    number: u32,
    back: &[u8],
    at: u64,
) -> Result<(), Failed>
    ensures { Says W.Sink out.old out.new (codes "damaged: " ++ (front.now ++ five_digits number ++ back.now) ++ codes " at " ++ decimal at ++ codes "\n") result }
{
    let mut digits = Buffer::new();
    let digits = digits.format(number).as_bytes();
    let zeros = &ZEROS[digits.len().min(5)..];
    let mut place = Buffer::new();
    let place = place.format(at).as_bytes();
    write_pieces(
        out,
        &[
            b"damaged: ",
            front,
            zeros,
            digits,
            back,
            b" at ",
            place,
            b"\n",
        ],
    )
}

/// Writes the line of a damage.
#[tactic(auto, unfolding(crate::specs::Status::file_name))]
fn say_damaged<W: Sink>(out: &mut W, file: FileId, at: u64) -> Result<(), Failed>
    ensures { Says W.Sink out.old out.new (codes "damaged: " ++ file_name file ++ codes " at " ++ decimal at ++ codes "\n") result }
{
    match file {
        FileId::Job => say_plain(out, b"job", at),
        FileId::Manifest => say_plain(out, b"manifest", at),
        FileId::Journal(number) => say_numbered(out, b"journal.", number, b"", at),
        FileId::Checkpoint(number) => say_numbered(out, b"checkpoint.", number, b"", at),
        FileId::Warc(number) => say_numbered(out, b"WEB-", number, b".warc", at),
    }
}

/// Writes the line of keys that are too many.
fn say_full<W: Sink>(out: &mut W, known: u64, adds: u64) -> Result<(), Failed>
    ensures { Says W.Sink out.old out.new (codes "full: " ++ decimal known ++ codes " known, " ++ decimal adds ++ codes " new\n") result }
{
    let mut there = Buffer::new();
    let there = there.format(known).as_bytes();
    let mut more = Buffer::new();
    let more = more.format(adds).as_bytes();
    write_pieces(out, &[b"full: ", there, b" known, ", more, b" new\n"])
}

/// Writes the line of a word at which no command continues.
fn say_usage<W: Sink>(out: &mut W, word: usize) -> Result<(), Failed>
    ensures { Says W.Sink out.old out.new (codes "usage: word " ++ decimal word ++ codes "\n") result }
{
    let mut digits = Buffer::new();
    let digits = digits.format(word).as_bytes();
    write_pieces(out, &[b"usage: word ", digits, b"\n"])
}

/// Writes the line of a status.
#[tactic(auto, unfolding(crate::specs::Status::status_text))]
fn say_line<W: Sink>(out: &mut W, status: &Status) -> Result<(), Failed>
    ensures { Says W.Sink out.old out.new (status_text status.now) result }
{
    match status {
        Status::Done => Ok(()),
        Status::Usage(word) => say_usage(out, *word),
        Status::JobRefused(fault) => say_refused(out, fault),
        Status::VolumeFault => say_plainly(out, b"volume fault\n"),
        Status::Damaged { file, at } => say_damaged(out, *file, *at),
        Status::SinkFault => Ok(()),
        Status::Full { known, adds } => say_full(out, *known, *adds),
        Status::NoMemory => say_plainly(out, b"no memory\n"),
        Status::NoJob => say_plainly(out, b"no job\n"),
        Status::JobThere => say_plainly(out, b"job there\n"),
        Status::SourceFault => say_plainly(out, b"source fault\n"),
    }
}

/// Writes the line of a status, as far as the output takes it. It takes no memory.
pub fn say<W: Sink>(out: &mut W, status: &Status)
    ensures said { IsTrue (W.tells out.old) → Gains (Rose (W.faults out.old) (W.faults out.new)) (W.written out.old) (W.written out.new) (status_text status.now) }
    ensures tells { W.tells out.new ≡ W.tells out.old }
    ensures later { W.faults out.old ≤ W.faults out.new }
{
    match say_line(out, status) {
        Ok(()) => {}
        Err(Failed) => {}
    }
}
