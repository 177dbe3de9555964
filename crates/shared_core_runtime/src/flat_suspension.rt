//! A suspension as it is written before V7: all that it awaits, in three lists. One walk over its tree of futures
//! measures them, and one writes them. No list is made, and no text is copied.
//!
//! The contracts of the walks speak of any of the three lists (`AwaitedList`), so each lemma is proved once for all of
//! them. Measuring a chain of futures is a loop; writing begins with the innermost future, and cannot be one.

ghost use Rattle.std.specs.Prelude.{◌≡◌, ◌+◌, ◌-◌, ◌^◌, ◌<◌, ◌≤◌, ◌++◌, length, drop, MatchOption};
ghost use Rattle.shared_core_base.specs.declared.header.MessageType.TheVariants as types;
ghost use Rattle.shared_core_wire.specs.Canonical.{size};
ghost use Rattle.shared_core_wire.specs.Encoding.{shortest_varint, key_bytes};
ghost use Rattle.shared_core_wire.specs.Fitting.{ElementsFit, Fits};
ghost use Rattle.shared_core_codec.specs.Table.{table};
ghost use Rattle.shared_core_codec.specs.Table as tables;
ghost use Rattle.shared_core_codec.specs.RowEncoding.{capped, measured_message};
ghost use Rattle.shared_core_parts.specs.Futures.{future_parts, future_elements};
ghost use Rattle.shared_core_runtime.specs.Flattening.{flattened, messages_in, preorder};
ghost use Rattle.shared_core_runtime.specs.AwaitedLists.{AwaitedList, Completions, Signals, awaited_list, own_list};
ghost use Rattle.shared_core_runtime.specs.AwaitedLists.{kind_in, list_bytes, list_row, list_row_size, of_list};
ghost use Rattle.shared_core_runtime.specs.AwaitedLists.{size_in, end_in};

use crate::suspension_message::SuspensionMessage;
use shared_core_base::header::MessageType;
use shared_core_codec::record::WireRecord;
use shared_core_codec::size::Size;
use shared_core_codec::write::write_length;
use shared_core_codec::{packed, repeated};
use shared_core_message::frame::FramePayload;
use shared_core_parts::future::Future;

/// A suspension that is written as a `SuspensionMessageV6`, with the places of its lists, which are measured once.
#[derive(Drop)]
pub struct FlatSuspension<'a> {
    /// The suspension.
    pub suspension: &'a SuspensionMessage,
    /// Where the packed run of the completions ends in the payload, which begins with it.
    completions_end: usize,
    /// Where that of the signals ends, and the names begin.
    signals_end: usize,
    /// The number of bytes of the payload.
    len: u32,
    ghost completions: { completions_end
        ≡ list_row_size Completions (messages_in (⟦<SuspensionMessage as WireRecord>⟧.parts suspension.now)) },
    ghost signals: { signals_end ≡ completions_end
        + list_row_size Signals (messages_in (⟦<SuspensionMessage as WireRecord>⟧.parts suspension.now)) },
    ghost whole: { len
        ≡ size table tables.suspension_v6 (flattened (⟦<SuspensionMessage as WireRecord>⟧.parts suspension.now)) },
    ghost fits: { ∥ Fits table (flattened (⟦<SuspensionMessage as WireRecord>⟧.parts suspension.now))
        (table tables.suspension_v6) ∥₁ },
}

impl<'a> FlatSuspension<'a> {
    /// Measures the lists of a suspension. None if the payload has more than 4,294,967,295 bytes. Does not allocate.
    pub fn new(suspension: &'a SuspensionMessage) -> Option<FlatSuspension<'a>>
        ensures { MatchOption result
            (2 ^ 32 ≤ size table tables.suspension_v6
            (flattened (⟦<SuspensionMessage as WireRecord>⟧.parts suspension.now)))
            (λ flat. flat.suspension.now ≡ suspension.now) }
    {
        let sizes = measure_lists(suspension);
        let mut runs = Size::new();
        add_run(&mut runs, 1, &sizes.completions);
        let completions_end = runs.total() as usize;
        add_run(&mut runs, 2, &sizes.signals);
        let signals_end = runs.total() as usize;
        let len = runs.total() + sizes.names.total();
        if len >= Size::LIMIT {
            return None;
        }
        Some(FlatSuspension {
            suspension,
            completions_end,
            signals_end,
            len: len as u32,
        })
    }
}

impl<'a> FramePayload for FlatSuspension<'a> {
    ghost frame_type = { types.Suspension };

    ghost payload_schema = { tables.suspension_v6 };

    ghost payload_parts = { λ flat. flattened (⟦<SuspensionMessage as WireRecord>⟧.parts flat.suspension.now) };

    fn frame_ty() -> MessageType
        ensures { result ≡ types.Suspension }
    {
        MessageType::Suspension
    }

    fn payload_len(&self) -> Option<u32> {
        Some(self.len)
    }

    fn fill(&self, out: &mut [u8]) {
        let Some(future) = &self.suspension.awaiting_on else {
            return;
        };
        let (runs, names) = out.split_at_mut(self.signals_end);
        let (completions, signals) = runs.split_at_mut(self.completions_end);
        write_lists(future, completions, signals, names);
    }
}

/// The sizes of the elements of the three lists.
#[derive(Drop)]
struct ListSizes {
    completions: Size,
    signals: Size,
    names: Size,
}

/// Where what is written of each of the three lists begins, in a slice of its own.
#[derive(Drop)]
struct ListEnds {
    completions: usize,
    signals: usize,
    names: usize,
}

/// The sizes of the lists of a suspension, which are empty if it awaits nothing.
fn measure_lists(suspension: &SuspensionMessage) -> ListSizes
    ensures sum { (list : AwaitedList) → size_in list result ≡ capped (length (list_bytes list
        (awaited_list list (messages_in (⟦<SuspensionMessage as WireRecord>⟧.parts suspension.now))))) }
    ensures fit { (list : AwaitedList) → ElementsFit table
        (awaited_list list (messages_in (⟦<SuspensionMessage as WireRecord>⟧.parts suspension.now))) (kind_in list) }
{
    let mut sizes = ListSizes {
        completions: Size::new(),
        signals: Size::new(),
        names: Size::new(),
    };
    let Some(future) = &suspension.awaiting_on else {
        return sizes;
    };
    measure_future(future, &mut sizes);
    sizes
}

/// Adds a packed run whose numbers have this size, or nothing if there are none.
fn add_run(size: &mut Size, number: u32, run: &Size)
    ensures none { run.now ≡ 0 → size.new ≡ size.old }
    ensures some { 0 < run.now → size.new ≡ measured_message number run.now size.old }
    ensures bound { size.new ≤ 2 ^ 32 }
{
    let _ = size.total();
    if run.total() > 0 {
        size.add_sized(number, run);
    }
    let _ = size.total();
}

/// Adds the sizes of the elements of the three lists, in a future and those nested in it.
#[cycle(measure_future)]
fn measure_future(future: &Future, sizes: &mut ListSizes)
    ensures sum { (list : AwaitedList) → size_in list sizes.new ≡ capped (size_in list sizes.old
        + length (list_bytes list (awaited_list list (preorder (future_parts future.now))))) }
    ensures fit { (list : AwaitedList) → ElementsFit table (awaited_list list (preorder (future_parts future.now)))
        (kind_in list) }
{
    measure_own(future, sizes);
    measure_futures(&future.nested_futures, sizes);
}

#[cycle(measure_future)]
fn measure_futures(futures: &Vec<Future>, sizes: &mut ListSizes)
    ensures sum { (list : AwaitedList) → size_in list sizes.new ≡ capped (size_in list sizes.old
        + length (list_bytes list (awaited_list list (messages_in (future_elements futures.now.items))))) }
    ensures fit { (list : AwaitedList) → ElementsFit table
        (awaited_list list (messages_in (future_elements futures.now.items))) (kind_in list) }
{
    let _ = sizes.completions.total();
    let _ = sizes.signals.total();
    let _ = sizes.names.total();
    if futures.is_empty() {
        return;
    }
    let last = futures.len() - 1;
    for i in 0..last {
        measure_future(&futures[i], sizes);
    }
    // in the last place, so that the compiler makes a loop of a chain of futures
    measure_future(&futures[last], sizes);
}

/// Adds the sizes of the elements of a future's own lists.
#[inline(always)]
fn measure_own(future: &Future, sizes: &mut ListSizes)
    ensures sum { (list : AwaitedList) → size_in list sizes.new ≡ capped (size_in list sizes.old
        + length (list_bytes list (own_list list (future_parts future.now)))) }
    ensures fit { (list : AwaitedList) → ElementsFit table (own_list list (future_parts future.now)) (kind_in list) }
{
    packed::measure_run(&mut sizes.completions, &future.waiting_completions);
    packed::measure_run(&mut sizes.signals, &future.waiting_signals);
    repeated::measure(&mut sizes.names, 3, &future.waiting_named_signals);
}

/// Writes the three lists, each into a slice of exactly its length: the numbers as packed runs, and the names.
fn write_lists(future: &Future, completions: &mut [u8], signals: &mut [u8], names: &mut [u8])
    requires len { (list : AwaitedList) →
        length (of_list list completions.old signals.old names.old)
        ≡ list_row_size list (preorder (future_parts future.now)) }
    requires fit { (list : AwaitedList) → ElementsFit table (awaited_list list (preorder (future_parts future.now)))
        (kind_in list) }
    ensures { (list : AwaitedList) → of_list list completions.new signals.new names.new
        ≡ list_row list (preorder (future_parts future.now)) }
{
    let mut ends = ListEnds {
        completions: completions.len(),
        signals: signals.len(),
        names: names.len(),
    };
    write_future(future, completions, signals, names, &mut ends);
    write_head(completions, ends.completions, 1);
    write_head(signals, ends.signals, 2);
}

/// Writes the key and the length of the packed run that is in the slice from `start` on, if it is not empty.
fn write_head(out: &mut [u8], start: usize, number: u32)
    requires room { start < length out.old
        → length (key_bytes number 2) + length (shortest_varint (length out.old - start)) ≡ start }
    ensures none { length out.old ≤ start → out.new ≡ out.old }
    ensures some { start < length out.old → out.new
        ≡ key_bytes number 2 ++ (shortest_varint (length out.old - start) ++ drop start out.old) }
{
    if start < out.len() {
        let _ = write_length(out, start, number, out.len() - start);
    }
}

/// Writes the elements of the three lists, of a future and those nested in it, before `ends`.
#[cycle(write_future)]
fn write_future(
    future: &Future,
    completions: &mut [u8],
    signals: &mut [u8],
    names: &mut [u8],
    ends: &mut ListEnds,
)
    requires within { (list : AwaitedList) → end_in list ends.old
        ≤ length (of_list list completions.old signals.old names.old) }
    requires room { (list : AwaitedList) → length (list_bytes list
        (awaited_list list (preorder (future_parts future.now)))) ≤ end_in list ends.old }
    ensures starts { (list : AwaitedList) → end_in list ends.new + length (list_bytes list
        (awaited_list list (preorder (future_parts future.now)))) ≡ end_in list ends.old }
    ensures written { (list : AwaitedList) →
        drop (end_in list ends.new) (of_list list completions.new signals.new names.new)
        ≡ list_bytes list (awaited_list list (preorder (future_parts future.now)))
        ++ drop (end_in list ends.old) (of_list list completions.old signals.old names.old) }
{
    write_futures(&future.nested_futures, completions, signals, names, ends);
    write_own(future, completions, signals, names, ends);
}

#[cycle(write_future)]
fn write_futures(
    futures: &Vec<Future>,
    completions: &mut [u8],
    signals: &mut [u8],
    names: &mut [u8],
    ends: &mut ListEnds,
)
    requires within { (list : AwaitedList) → end_in list ends.old
        ≤ length (of_list list completions.old signals.old names.old) }
    requires room { (list : AwaitedList) → length (list_bytes list
        (awaited_list list (messages_in (future_elements futures.now.items)))) ≤ end_in list ends.old }
    ensures starts { (list : AwaitedList) → end_in list ends.new + length (list_bytes list
        (awaited_list list (messages_in (future_elements futures.now.items)))) ≡ end_in list ends.old }
    ensures written { (list : AwaitedList) →
        drop (end_in list ends.new) (of_list list completions.new signals.new names.new)
        ≡ list_bytes list (awaited_list list (messages_in (future_elements futures.now.items)))
        ++ drop (end_in list ends.old) (of_list list completions.old signals.old names.old) }
{
    for i in (0..futures.len()).rev() {
        write_future(&futures[i], completions, signals, names, ends);
    }
}

/// Writes the elements of a future's own lists before `ends`.
#[inline(always)]
fn write_own(
    future: &Future,
    completions: &mut [u8],
    signals: &mut [u8],
    names: &mut [u8],
    ends: &mut ListEnds,
)
    requires within { (list : AwaitedList) → end_in list ends.old
        ≤ length (of_list list completions.old signals.old names.old) }
    requires room { (list : AwaitedList) → length (list_bytes list (own_list list (future_parts future.now)))
        ≤ end_in list ends.old }
    ensures starts { (list : AwaitedList) → end_in list ends.new
        + length (list_bytes list (own_list list (future_parts future.now))) ≡ end_in list ends.old }
    ensures written { (list : AwaitedList) →
        drop (end_in list ends.new) (of_list list completions.new signals.new names.new)
        ≡ list_bytes list (own_list list (future_parts future.now))
        ++ drop (end_in list ends.old) (of_list list completions.old signals.old names.old) }
{
    ends.completions = packed::write_run(
        completions,
        ends.completions,
        &future.waiting_completions,
    );
    ends.signals = packed::write_run(signals, ends.signals, &future.waiting_signals);
    ends.names = repeated::write(names, ends.names, 3, &future.waiting_named_signals);
}
