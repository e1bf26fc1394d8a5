// Records of any kind.
ghost use Rattle.std.specs.Prelude.{◌≡◌, ◌++◌, IfOk, OnOk, map, flat_map, length};
ghost use Rattle.record_spec.specs.Record.{field_line, length_field, record_text};
ghost use Rattle.warc_record.specs.Fields.{pairs};

use crate::id::push_number;
use crawl_kinds::NoMemory;
use std::alloc::Global;

/// Room for the fields of a record: more than the longest address and its other fields take.
const ROOM_FOR_FIELDS: usize = 4096;

/// A field of a record (ISO 28500 §4): its name and its value.
#[derive(Clone, Copy)]
pub struct Field<'a> {
    pub name: &'a [u8],
    pub value: &'a [u8],
}

/// Writes a field: name, `: `, value, CRLF.
fn push_field(name: &[u8], value: &[u8], into: &mut Vec<u8>) -> Result<(), NoMemory>
    ensures { OnOk result (into.new.items ≡ into.old.items ++ field_line (name.now, value.now)) }
{
    into.extend_from_slice(name)?;
    into.extend_from_slice(b": ")?;
    into.extend_from_slice(value)?;
    into.extend_from_slice(b"\r\n")?;
    Ok(())
}

/// Writes fields.
fn push_fields(fields: &[Field], into: &mut Vec<u8>) -> Result<(), NoMemory>
    ensures { OnOk result (into.new.items ≡ into.old.items ++ flat_map field_line (pairs fields.now)) }
{
    for field in fields {
        push_field(field.name, field.value, into)?;
    }
    Ok(())
}

/// Writes the field that says how long the block is.
fn push_length(block: &[u8], into: &mut Vec<u8>) -> Result<(), NoMemory>
    ensures { OnOk result (into.new.items ≡ into.old.items ++ field_line (length_field block.now)) }
{
    into.extend_from_slice(b"Content-Length: ")?;
    push_number(block.len() as u64, into)?;
    into.extend_from_slice(b"\r\n")?;
    Ok(())
}

/// A record of these fields and this block (ISO 28500 §4), with the field Content-Length after the others. The
/// block is copied once.
pub fn record_bytes(alloc: Global, fields: &[Field], block: &[u8]) -> Result<Vec<u8>, NoMemory>
    ensures { IfOk result (λ bytes. bytes.items ≡ record_text (pairs fields.now) block.now) }
{
    let mut record = Vec::with_capacity(alloc, block.len() + ROOM_FOR_FIELDS)?;
    record.extend_from_slice(b"WARC/1.1\r\n")?;
    push_fields(fields, &mut record)?;
    push_length(block, &mut record)?;
    record.extend_from_slice(b"\r\n")?;
    record.extend_from_slice(block)?;
    record.extend_from_slice(b"\r\n\r\n")?;
    Ok(record)
}
