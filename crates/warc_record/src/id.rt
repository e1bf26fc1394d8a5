// Ids of records.
ghost use Rattle.std.specs.Prelude.{◌≡◌, ◌++◌, IfOk, OnOk};
ghost use Rattle.std.specs.Fmt.{decimal};
ghost use Rattle.record_spec.specs.Record.{record_name, uuid_text, record_id};

use crawl_kinds::NoMemory;
use itoa::Buffer;
use record_spec::Naming;
use std::alloc::Global;
use uuid::Uuid;

/// Writes a number in decimal.
pub fn push_number(number: u64, into: &mut Vec<u8>) -> Result<(), NoMemory>
    ensures { OnOk result (into.new.items ≡ into.old.items ++ decimal number) }
{
    let mut digits = Buffer::new();
    into.extend_from_slice(digits.format(number).as_bytes())?;
    Ok(())
}

/// The name of a record: JOB/FILE/OFFSET/KIND.
fn record_name(alloc: Global, place: &Naming, kind: &[u8]) -> Result<Vec<u8>, NoMemory>
    ensures { IfOk result (λ name. name.items ≡ record_name place.now kind.now) }
{
    let mut name = Vec::from_slice(alloc, place.job.as_bytes())?;
    name.push(b'/')?;
    push_number(u64::from(place.file), &mut name)?;
    name.push(b'/')?;
    push_number(place.at, &mut name)?;
    name.push(b'/')?;
    name.extend_from_slice(kind)?;
    Ok(name)
}

/// Writes the version 5 UUID (RFC 9562 §5.5) of a name in the namespace of URLs, in lower case.
#[tactic(auto, unfolding(record_spec::specs::Record::uuid_text))]
fn push_uuid(name: &[u8], into: &mut Vec<u8>) -> Result<(), NoMemory>
    ensures { OnOk result (into.new.items ≡ into.old.items ++ uuid_text name.now) }
{
    let mut buffer = Uuid::encode_buffer();
    let uuid = Uuid::new_v5(&Uuid::NAMESPACE_URL, name);
    let text = uuid.hyphenated().encode_lower(&mut buffer);
    into.extend_from_slice(text.as_bytes())?;
    Ok(())
}

/// The id of a record of a kind, as `response`: `<urn:uuid:ID>` with the version 5 UUID, in the namespace of URLs, of
/// the name JOB/FILE/OFFSET/KIND.
pub fn record_id(alloc: Global, place: &Naming, kind: &[u8]) -> Result<Vec<u8>, NoMemory>
    ensures { IfOk result (λ id. id.items ≡ record_id place.now kind.now) }
{
    let name = record_name(alloc, place, kind)?;
    let mut id = Vec::from_slice(alloc, b"<urn:uuid:")?;
    push_uuid(&name, &mut id)?;
    id.push(b'>')?;
    Ok(id)
}
