//! Notifications of any type: their ids and their results.

ghost use Rattle.std.specs.Prelude.{◌≡◌, ◌↔◌, ◌++◌, IsTrue, IfErr, IfOk, OnOk};
ghost use Rattle.journal_c_api.specs.Notifications.{IsNotificationCode, ReadsNotification, RejectsResult};
ghost use Rattle.journal_c_api.specs.Notifications.{WritesNotification, id_name, notification_bytes};
ghost use Rattle.journal_c_api.specs.Notifications.{notification_numbers, result_bytes, result_kind};

use crate::outcome::{CallError, write_over};
use crate::payloads::decoded;
use shared_core::header::MessageType;
use shared_core::messages::{
    Notification, NotificationId, NotificationResult, NotificationTemplate,
};
use shared_core::wire::WireRecord;
use std::alloc::Global;

/// The number of numbers that a notification is written as.
const NOTIFICATION_NUMBERS: usize = 4;

/// Reads the id and the result of a notification of any type. Writes its four numbers: the kind of its id, the number
/// of the id, the length of a signal's name in bytes, and the kind of its result. As bytes it writes the name, and
/// after it the result's canonical payload or text. Returns the number of these bytes; if there is no room for them,
/// the numbers are written nevertheless.
///
/// `UnknownType` if the code is that of no notification, then `NoRoom` if there is room for fewer than four numbers,
/// then `Malformed`, `NoId`, `NoResult`, and last `TooLong` if the result's payload would have more than 4,294,967,295
/// bytes.
pub fn write_notification(
    alloc: Global,
    code: u16,
    payload: &[u8],
    numbers: &mut [u64],
    out: &mut [u8],
) -> Result<usize, CallError>
    ensures { WritesNotification code payload.now numbers.old numbers.new out.old out.new result }
{
    if !is_notification(code) {
        return Err(CallError::UnknownType);
    }
    if numbers.len() < NOTIFICATION_NUMBERS {
        return Err(CallError::NoRoom);
    }
    let notification = read_notification(alloc, payload)?;
    let bytes = bytes_of(alloc, &notification)?;
    write_over(&numbers_of(&notification), numbers);
    write_over(&bytes, out);
    Ok(bytes.len())
}

/// Whether a code is that of a type of notifications, named or custom.
fn is_notification(code: u16) -> bool
    ensures { IsTrue result ↔ IsNotificationCode code }
{
    match MessageType::try_from(code) {
        Ok(ty) => ty.is_notification(),
        Err(_) => false,
    }
}

/// The notification that a payload means, by what all notifications have in common.
fn read_notification(alloc: Global, payload: &[u8]) -> Result<Notification, CallError>
    ensures { ReadsNotification payload.now result }
{
    let template = decoded::<NotificationTemplate>(alloc, payload)?;
    let id = template.id.ok_or(CallError::NoId)?;
    let result = template.result.ok_or(CallError::NoResult)?;
    Ok(Notification { id, result })
}

/// The four numbers of a notification.
fn numbers_of(notification: &Notification) -> [u64; NOTIFICATION_NUMBERS]
    ensures { result ≡ notification_numbers notification.now }
{
    let name_length = name_of(&notification.id).len() as u64;
    let outcome = result_kind(&notification.result);
    match &notification.id {
        NotificationId::CompletionId(number) => [0, u64::from(*number), name_length, outcome],
        NotificationId::SignalId(number) => [1, u64::from(*number), name_length, outcome],
        NotificationId::SignalName(_) => [2, 0, name_length, outcome],
    }
}

/// The kind of a result.
fn result_kind(outcome: &NotificationResult) -> u64
    ensures { result ≡ result_kind outcome.now }
{
    match outcome {
        NotificationResult::Void(_) => 0,
        NotificationResult::Value(_) => 1,
        NotificationResult::Failure(_) => 2,
        NotificationResult::InvocationId(_) => 3,
        NotificationResult::StateKeys(_) => 4,
    }
}

/// The bytes of a notification: its signal's name, and its result after it.
fn bytes_of(alloc: Global, notification: &Notification) -> Result<Vec<u8>, CallError>
    ensures ok { IfOk result (λ bytes. bytes.items ≡ notification_bytes notification.now) }
    ensures err { IfErr result (RejectsResult notification.now.result) }
{
    let mut bytes = Vec::new(alloc);
    bytes.extend_from_slice(name_of(&notification.id).as_bytes())?;
    append_result(&notification.result, &mut bytes)?;
    Ok(bytes)
}

/// The name of a signal; empty for a number.
fn name_of(id: &NotificationId) -> &str
    ensures { result.now ≡ id_name id.now }
{
    match id {
        NotificationId::SignalName(name) => name.as_str(),
        _ => "",
    }
}

/// Appends the bytes of a result. After an error the buffer may hold more than it held.
fn append_result(outcome: &NotificationResult, out: &mut Vec<u8>) -> Result<(), CallError>
    ensures ok { OnOk result (out.new.items ≡ out.old.items ++ result_bytes outcome.now) }
    ensures err { IfErr result (RejectsResult outcome.now) }
{
    match outcome {
        NotificationResult::Void(_) => {}
        NotificationResult::Value(value) => value.encode_payload_into(out)?,
        NotificationResult::Failure(failure) => failure.encode_payload_into(out)?,
        NotificationResult::InvocationId(id) => out.extend_from_slice(id.as_bytes())?,
        NotificationResult::StateKeys(keys) => keys.encode_payload_into(out)?,
    }
    Ok(())
}
