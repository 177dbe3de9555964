//! Fields that are not repeated, and oneofs: what is written of their records.

ghost use Rattle.std.specs.Prelude.{◌≡◌, ◌++◌, [], None, IfOk, OnOk};
ghost use Rattle.shared_core_wire.specs.Grammar.{content};
ghost use Rattle.shared_core_wire.specs.View.{value_of};
ghost use Rattle.shared_core_wire.specs.Canonical.{written_number};
ghost use Rattle.shared_core_wire.specs.Schema.{Enumeration};
ghost use Rattle.shared_core_codec.specs.ProgramRows.{kind_view};
ghost use Rattle.shared_core_canonical.specs.Found.{found_records};
ghost use Rattle.shared_core_canonical.specs.Rows.{rewritten_number, scalar_record, joined_for, last_over};
ghost use Rattle.shared_core_canonical.specs.Singles.{whole, last_view};

use crate::append::{append_content, append_number};
use crate::source::FoundRecords;
use shared_core_codec::any_table::SchemaRow;
use shared_core_codec::rows::{Field, Kind, find_in_row};
use shared_core_wire::record::WireValue;
use shared_core_wire::records::Record;
use shared_core_wire::varint::low_32;
use std::alloc::AllocError;

/// The last record of a field or of a oneof.
#[derive(Clone, Copy)]
pub struct Single<'a> {
    pub field: Field,
    pub value: WireValue<'a>,
}

/// Length-delimited bytes; of any other value, no bytes.
pub fn content_of<'a>(value: WireValue<'a>) -> &'a [u8]
    ensures { result.now ≡ content (value_of value.entry) }
{
    match value {
        WireValue::Length(bytes) => bytes,
        _ => &[],
    }
}

/// Reads the last record of a row. Joins the contents of the records of its number at the end, if there are several.
pub fn read_last<'a, R: SchemaRow>(
    row: &R,
    source: &FoundRecords<'a>,
    joined: &mut Vec<u8>,
) -> Result<Option<Single<'a>>, AllocError>
    requires { joined.old.items ≡ [] }
    ensures { IfOk result (λ last. last_view last joined.new.items
        ≡ last_over (R.view row.now) None (found_records source.now.records.now)) }
{
    let mut last: Option<Single<'a>> = None;
    for found in source.records {
        let record = found.value;
        let Some(field) = find_in_row(row, record.number) else {
            continue;
        };
        join(joined, &last, &record)?;
        last = Some(Single {
            field: Field {
                number: record.number,
                kind: field.kind,
            },
            value: record.value,
        });
    }
    Ok(last)
}

/// Joins the content of a record to those before it, if these are of its number.
fn join(
    joined: &mut Vec<u8>,
    last: &Option<Single<'_>>,
    found: &Record<'_>,
) -> Result<(), AllocError>
    ensures { OnOk result (whole (content (value_of found.now.value)) joined.new.items
        ≡ joined_for found.now.number (last_view last.now joined.old.items) ++ content (value_of found.now.value)) }
{
    let Some(before) = last else {
        joined.clear();
        return Ok(());
    };
    if before.field.number != found.number {
        joined.clear();
        return Ok(());
    }
    if joined.is_empty() {
        joined.extend_from_slice(content_of(before.value))?;
    }
    joined.extend_from_slice(content_of(found.value))
}

/// The number that is written for one that was read: an enum's is sign-extended.
pub fn rewritten_number(kind: Kind, number: u64) -> u64
    ensures { result ≡ rewritten_number (kind_view kind) number }
{
    match kind {
        Kind::U32 => low_32(number) as u64,
        Kind::Boolean => (number != 0) as u64,
        Kind::Enumeration => sign_extended(low_32(number)),
        _ => number,
    }
}

/// The number that is written for the low 32 bits of an enum.
fn sign_extended(low: u32) -> u64
    ensures { result ≡ written_number Enumeration low }
{
    let number = low as u64;
    if number < 2_147_483_648 {
        number
    } else {
        number + 18_446_744_069_414_584_320
    }
}

/// Appends the record of a value that is not a message; a default is left out in a plain field.
pub fn append_scalar(
    out: &mut Vec<u8>,
    plain: bool,
    field: Field,
    value: WireValue<'_>,
) -> Result<(), AllocError>
    ensures { OnOk result (out.new.items
        ≡ out.old.items ++ scalar_record plain field.number (kind_view field.kind) (value_of value.entry)) }
{
    match value {
        WireValue::Varint(number) => append_number(
            out,
            plain,
            field.number,
            rewritten_number(field.kind, number),
        ),
        WireValue::Length(bytes) => append_content(out, plain, field.number, bytes),
        _ => Ok(()),
    }
}
