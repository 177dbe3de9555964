//! Repeated fields whose elements are not messages: what is written of their records.

ghost use Rattle.std.specs.Prelude.{◌≡◌, ◌++◌, OnOk, flat_map, is_some, true};
ghost use Rattle.std.specs.List.{list_all};
ghost use Rattle.shared_core_wire.specs.Reader.{packed_numbers};
ghost use Rattle.shared_core_wire.specs.WrittenRecords.{content_record};
ghost use Rattle.shared_core_codec.specs.ProgramRows.{kind_view};
ghost use Rattle.shared_core_codec.specs.Checking.{field_record_of};
ghost use Rattle.shared_core_canonical.specs.Found.{found_records};
ghost use Rattle.shared_core_canonical.specs.Rows.{scalar_element, found_varints, run_record, run_allows};

use crate::append::{append_content, append_varint};
use crate::single::{append_scalar, rewritten_number};
use crate::source::FoundRecords;
use shared_core_codec::rows::{Field, Kind};
use shared_core_wire::record::WireValue;
use shared_core_wire::records::Record;
use shared_core_wire::varint::read_varint;
use std::alloc::AllocError;

/// Appends the records of a field whose elements are written one by one.
pub fn append_elements(
    field: Field,
    source: &FoundRecords<'_>,
    out: &mut Vec<u8>,
) -> Result<(), AllocError>
    ensures { OnOk result (out.new.items ≡ out.old.items ++ flat_map
        (scalar_element field.number (kind_view field.kind)) (found_records source.now.records.now)) }
{
    for found in source.records {
        append_element(field, &found.value, out)?;
    }
    Ok(())
}

/// Appends what a record adds to such a field.
fn append_element(field: Field, found: &Record<'_>, out: &mut Vec<u8>) -> Result<(), AllocError>
    ensures { OnOk result (out.new.items
        ≡ out.old.items ++ scalar_element field.number (kind_view field.kind) (field_record_of found.now)) }
{
    if found.number != field.number {
        return Ok(());
    }
    append_scalar(out, false, field, found.value)
}

/// Appends the record of a field whose elements are packed, unless there are none.
pub fn append_run(
    field: Field,
    source: &FoundRecords<'_>,
    out: &mut Vec<u8>,
) -> Result<(), AllocError>
    requires { list_all (run_allows field.number) (found_records source.now.records.now) ≡ true }
    ensures { OnOk result (out.new.items ≡ out.old.items ++ content_record true field.number
        (flat_map (run_record field.number (kind_view field.kind))
        (found_records source.now.records.now))) }
{
    let mut run = Vec::new(source.alloc);
    for found in source.records {
        append_run_part(field, &found.value, &mut run)?;
    }
    append_content(out, true, field.number, run.as_slice())
}

/// Appends what a record adds to a packed run.
fn append_run_part(field: Field, found: &Record<'_>, run: &mut Vec<u8>) -> Result<(), AllocError>
    requires { run_allows field.number (field_record_of found.now) ≡ true }
    ensures { OnOk result (run.new.items
        ≡ run.old.items ++ run_record field.number (kind_view field.kind) (field_record_of found.now)) }
{
    if found.number != field.number {
        return Ok(());
    }
    match found.value {
        WireValue::Varint(value) => append_varint(run, rewritten_number(field.kind, value)),
        WireValue::Length(bytes) => append_packed(field.kind, run, bytes),
        _ => Ok(()),
    }
}

/// Appends the numbers of a packed run of a kind.
fn append_packed(kind: Kind, run: &mut Vec<u8>, packed: &[u8]) -> Result<(), AllocError>
    requires { is_some (packed_numbers packed.now) ≡ true }
    ensures { OnOk result (run.new.items
        ≡ run.old.items ++ found_varints (kind_view kind) (packed_numbers packed.now)) }
{
    let mut rest = packed;
    while !rest.is_empty() {
        let Some((number, after)) = read_varint(rest) else {
            return Ok(());
        };
        append_varint(run, rewritten_number(kind, number))?;
        rest = after;
    }
    Ok(())
}
