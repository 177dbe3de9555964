//! The message `Future`, which is recursive and therefore hand-written.

ghost use Rattle.std.specs.Prelude.{◌≡◌, ◌+◌, ◌≤◌, ◌++◌, length, drop, OnOk, OnErr, is_ok, false};
ghost use Rattle.std.specs.Result.{IsErrOf};
ghost use Rattle.shared_core_wire.specs.ReadRecords.{read_records};
ghost use Rattle.shared_core_wire.specs.Schema.{Message, Repeated};
ghost use Rattle.shared_core_wire.specs.Value.{empty_value};
ghost use Rattle.shared_core_codec.specs.Table.{table};
ghost use Rattle.shared_core_codec.specs.Table as tables;
ghost use Rattle.shared_core_codec.specs.FieldParts.{message_part};
ghost use Rattle.shared_core_codec.specs.Computed.{IsComputed};
ghost use Rattle.shared_core_codec.specs.Folding.{fold_read};
ghost use Rattle.shared_core_codec.specs.Kept.{PartKept, PartsKept, RowsAfter, IsPartlyMerged};
ghost use Rattle.shared_core_codec.specs.Occurrences.{schema_accepts, RecordMerges};
ghost use Rattle.shared_core_codec.specs.Occurrences.{repeated_accepts, FieldExtends, merged_with};
ghost use Rattle.shared_core_codec.specs.RowEncoding.{capped, value_bytes, measured_row, measured_rows};
ghost use Rattle.shared_core_codec.specs.RowEncoding.{before_row, before_rows, row_size, rows_size};
ghost use Rattle.shared_core_codec.specs.RowFitting.{ValueFits, FieldFits, FieldsFit};
ghost use Rattle.shared_core_codec.specs.Equality.{part_equal, parts_equal};
ghost use Rattle.shared_core_wire.specs.declared.error.WireError.TheVariants as error;
ghost use Rattle.shared_core_parts.specs.Futures.{future_parts, future_elements, futures_part};

use shared_core_codec::message_bytes::MessageBytes;
use shared_core_codec::occurrence::Occurrence;
use shared_core_codec::record::WireRecord;
use shared_core_codec::size::Size;
use shared_core_codec::write::write_length;
use shared_core_codec::{packed, plain, repeated};
use shared_core_wire::error::WireError;
use shared_core_wire::records::Records;
use std::alloc::Global;

/// What an invocation waits for, as a tree: ids and names at each future, and the futures that it combines.
#[derive(Debug, Drop)]
pub struct Future {
    /// The ids of the awaited completions.
    pub waiting_completions: Vec<u32>,
    /// The numbers of the awaited signals.
    pub waiting_signals: Vec<u32>,
    /// The names of the awaited signals.
    pub waiting_named_signals: Vec<String>,
    /// The futures that this one combines.
    pub nested_futures: Vec<Future>,
    /// How it combines what it waits for, as the number of an enum.
    pub combinator_type: i32,
}

impl WireRecord for Future {
    ghost schema = { tables.future };

    ghost parts = { future_parts };

    fn empty(alloc: Global) -> Future {
        empty_future(alloc)
    }

    fn merge_field(&mut self, field: &Occurrence<'_>) -> Result<(), WireError> {
        merge_future_field(self, field)
    }

    fn measure(&self, size: &mut Size) {
        measure_future(self, size);
    }

    fn encode_back(&self, out: &mut [u8], end: usize) -> usize {
        encode_future(self, out, end)
    }

    ghost use Rattle.shared_core_codec.specs.EqualityRules.{parts_equal_decides};

    ghost equality = { λ a b. parts_equal_decides (future_parts a) (future_parts b) };
}

impl PartialEq for Future {
    ghost use Rattle.std.specs.Ordering.{on};
    ghost use Rattle.shared_core_codec.specs.Equality.{parts_equal};
    ghost use Rattle.shared_core_codec.specs.EqualityRules.{parts_equal_laws};
    ghost use Rattle.shared_core_parts.specs.Futures.{future_parts};

    ghost eq = { on future_parts parts_equal };

    ghost laws = { parts_equal_laws future_parts };

    fn eq(&self, other: &Future) -> bool {
        futures_equal(self, other)
    }
}

// The functions below call each other for the futures in a future, which a generic trait method cannot do at its own
// type. They do what other records get from the trait and its field functions.

fn empty_future(alloc: Global) -> Future
    ensures { future_parts result ≡ empty_value (table tables.future) }
{
    Future {
        waiting_completions: Vec::new(alloc),
        waiting_signals: Vec::new(alloc),
        waiting_named_signals: Vec::new(alloc),
        nested_futures: Vec::new(alloc),
        combinator_type: 0,
    }
}

/// Merges the records of a message into a future.
#[cycle(merge_future)]
fn merge_future(future: &mut Future, message: &MessageBytes<'_>) -> Result<(), WireError>
    ensures computed { IsComputed (λ _. future_parts future.new) result
        (fold_read (merged_with message.now.left tables.future) (future_parts future.old)
        (read_records message.now.left message.now.bytes.now)) }
    ensures kept { PartsKept (future_parts future.old) (future_parts future.new) }
    ensures partly { OnErr result (IsPartlyMerged message.now.left tables.future (future_parts future.old)
        (read_records message.now.left message.now.bytes.now) (future_parts future.new)) }
{
    for item in Records::within(message.bytes, message.left) {
        let found = item?;
        merge_future_field(future, &message.occurrence(&found))?;
    }
    Ok(())
}

/// Merges one occurrence into its field.
#[cycle(merge_future)]
#[tactic(auto, using(shared_core_codec::proofs::Keeping::rows_stay))]
fn merge_future_field(future: &mut Future, field: &Occurrence<'_>) -> Result<(), WireError>
    ensures ok { OnOk result (RecordMerges tables.future field.now (future_parts future.old)
        (future_parts future.new)) }
    ensures malformed { IsErrOf result error.Malformed → schema_accepts tables.future field.now ≡ false }
    ensures kept { RowsAfter (table tables.future) field.now.number (future_parts future.old)
        (future_parts future.new) (is_ok result) }
{
    match field.number {
        1 => packed::merge(&mut future.waiting_completions, field)?,
        2 => packed::merge(&mut future.waiting_signals, field)?,
        3 => repeated::merge(&mut future.waiting_named_signals, field)?,
        4 => extend_futures(&mut future.nested_futures, field)?,
        5 => plain::merge(&mut future.combinator_type, field)?,
        _ => {}
    }
    Ok(())
}

/// Appends the future of an occurrence, which is read into its place in the list.
#[cycle(merge_future)]
fn extend_futures(futures: &mut Vec<Future>, field: &Occurrence<'_>) -> Result<(), WireError>
    ensures ok { OnOk result (FieldExtends field.now (Message tables.future) (future_elements futures.old.items)
        (future_elements futures.new.items)) }
    ensures malformed { IsErrOf result error.Malformed → repeated_accepts field.now (Message tables.future) ≡ false }
    ensures kept { PartKept (futures_part futures.old.items) (futures_part futures.new.items) }
{
    let Some(nested) = field.nested() else {
        return Err(WireError::Malformed);
    };
    let Ok(future) = futures.push_mut(empty_future(field.alloc)) else {
        return Err(WireError::OutOfMemory);
    };
    merge_future(future, &nested)
}

#[cycle(measure_future)]
fn measure_future(future: &Future, size: &mut Size)
    ensures sum { size.new ≡ measured_rows (table tables.future) (future_parts future.now) size.old }
    ensures fit { FieldsFit (table tables.future) (future_parts future.now) }
{
    packed::measure(size, 1, &future.waiting_completions);
    packed::measure(size, 2, &future.waiting_signals);
    repeated::measure(size, 3, &future.waiting_named_signals);
    measure_futures(&future.nested_futures, size);
    plain::measure(size, 5, &future.combinator_type);
}

#[cycle(measure_future)]
fn measure_futures(futures: &Vec<Future>, size: &mut Size)
    ensures sum { size.new ≡ measured_row (Repeated 4 (Message tables.future))
        (futures_part futures.now.items) size.old }
    ensures fit { FieldFits (Repeated 4 (Message tables.future)) (futures_part futures.now.items) }
{
    let _ = size.total();
    for future in futures {
        measure_nested(future, size);
    }
}

#[cycle(measure_future)]
#[tactic(auto, using(shared_core_codec::proofs::Measuring::measured_message_is, shared_core_codec::proofs::FittingRows::fit_message))]
fn measure_nested(future: &Future, size: &mut Size)
    ensures sum { size.new ≡ capped (size.old
        + length (value_bytes 4 (Message tables.future) (message_part future_parts future.now))) }
    ensures fit { ValueFits (Message tables.future) (message_part future_parts future.now) }
{
    let mut nested = Size::new();
    measure_future(future, &mut nested);
    size.add_sized(4, &nested);
}

#[cycle(encode_future)]
fn encode_future(future: &Future, out: &mut [u8], end: usize) -> usize
    requires within { end ≤ length out.old }
    requires room { rows_size (table tables.future) (future_parts future.now) ≤ end }
    ensures start { result + rows_size (table tables.future) (future_parts future.now) ≡ end }
    ensures written { drop result out.new ≡ before_rows (table tables.future) (future_parts future.now)
        (drop end out.old) }
{
    let end = plain::write(out, end, 5, &future.combinator_type);
    let end = encode_futures(&future.nested_futures, out, end);
    let end = repeated::write(out, end, 3, &future.waiting_named_signals);
    let end = packed::write(out, end, 2, &future.waiting_signals);
    packed::write(out, end, 1, &future.waiting_completions)
}

#[cycle(encode_future)]
fn encode_futures(futures: &Vec<Future>, out: &mut [u8], end: usize) -> usize
    requires within { end ≤ length out.old }
    requires room { row_size (Repeated 4 (Message tables.future)) (futures_part futures.now.items) ≤ end }
    ensures start { result + row_size (Repeated 4 (Message tables.future)) (futures_part futures.now.items) ≡ end }
    ensures written { drop result out.new ≡ before_row (Repeated 4 (Message tables.future))
        (futures_part futures.now.items) (drop end out.old) }
{
    let mut start = end;
    for i in (0..futures.len()).rev() {
        start = encode_nested(&futures[i], out, start);
    }
    start
}

#[cycle(encode_future)]
#[tactic(auto, using(shared_core_codec::proofs::Backwards::message_before, shared_core_codec::proofs::Backwards::message_size))]
fn encode_nested(future: &Future, out: &mut [u8], end: usize) -> usize
    requires within { end ≤ length out.old }
    requires room { length (value_bytes 4 (Message tables.future) (message_part future_parts future.now)) ≤ end }
    ensures start { result + length (value_bytes 4 (Message tables.future) (message_part future_parts future.now))
        ≡ end }
    ensures written { drop result out.new ≡ value_bytes 4 (Message tables.future) (message_part future_parts future.now)
        ++ drop end out.old }
{
    let start = encode_future(future, out, end);
    write_length(out, start, 4, end - start)
}

#[cycle(futures_equal)]
#[tactic(auto, using(crate::proofs::EqualFutures::by_completions, crate::proofs::EqualFutures::by_signals, crate::proofs::EqualFutures::by_names, crate::proofs::EqualFutures::by_nested, crate::proofs::EqualFutures::by_last))]
fn futures_equal(a: &Future, b: &Future) -> bool
    ensures { result ≡ parts_equal (future_parts a.now) (future_parts b.now) }
{
    if a.waiting_completions != b.waiting_completions {
        return false;
    }
    if a.waiting_signals != b.waiting_signals {
        return false;
    }
    if a.waiting_named_signals != b.waiting_named_signals {
        return false;
    }
    if !all_equal(&a.nested_futures, &b.nested_futures) {
        return false;
    }
    a.combinator_type.eq(&b.combinator_type)
}

#[cycle(futures_equal)]
#[tactic(auto, using(crate::proofs::EqualFutures::eq_lengths))]
fn all_equal(a: &Vec<Future>, b: &Vec<Future>) -> bool
    ensures { result ≡ part_equal (futures_part a.now.items) (futures_part b.now.items) }
{
    if a.len() != b.len() {
        return false;
    }
    for i in 0..a.len() {
        if !futures_equal(&a[i], &b[i]) {
            return false;
        }
    }
    true
}
