//! The program of the README: it reads a stream, changes one command, and writes the stream again.
#![tactic(auto)]

mod callers;

use anyhow::Result;
use bytes::Bytes;
use shared_core::encoding::{DecodeMessage, Decoder, Encoder, Item};
use shared_core::header::MessageType;
use shared_core::messages::{EndMessage, SetStateCommandMessage, Value};
use shared_core::version::Version;
use shared_core::wire::WireRecord;
use std::alloc::Global;

/// A value of these bytes.
fn value(content: &'static [u8]) -> Option<Value> {
    Some(Value {
        content: Bytes::from_static(content),
    })
}

/// A stream of two messages: a command that sets the state `count` to 1, and the end.
fn recorded(alloc: Global) -> Result<Vec<u8>> {
    let encoder = Encoder::new(Version::V8);
    let mut command = SetStateCommandMessage::empty(alloc);
    command.key = Bytes::from_static(b"count");
    command.value = value(b"1");
    let mut stream = Vec::new(alloc);
    encoder.encode_into(&command, &mut stream)?;
    encoder.encode_into(&EndMessage::empty(alloc), &mut stream)?;
    Ok(stream)
}

/// Reads the messages received, and writes them again, with each state set to 2.
fn change(alloc: Global, decoder: &mut Decoder, out: &mut Vec<u8>) -> Result<()> {
    for item in decoder.items() {
        // a header of an unknown type is an item too, and is left out
        let Item::Message(message) = item? else {
            continue;
        };
        if let MessageType::SetStateCommand = message.ty() {
            let mut command: SetStateCommandMessage = message.decode_as(alloc)?;
            command.value = value(b"2");
            Encoder::new(Version::V8).encode_into(&command, out)?;
        } else {
            out.extend_from_slice(&message.header().to_bytes())?;
            out.extend_from_slice(message.payload().as_slice())?;
        }
    }
    Ok(())
}

fn main(rt: HostRuntime) -> Result<()> {
    let alloc = rt.alloc();
    let stream = Bytes::from_vec(recorded(alloc)?)?;

    // a stream may come in chunks of any size
    let half = stream.len() / 2;
    let mut decoder = Decoder::new(alloc, Version::V8);
    decoder.push(stream.slice(..half)?)?;
    decoder.push(stream.slice(half..)?)?;

    let mut changed = Vec::new(alloc);
    change(alloc, &mut decoder, &mut changed)?;
    println!(rt; "{} bytes in no message", decoder.pending())?;

    decoder.push(Bytes::from_vec(changed)?)?;
    for item in decoder.items() {
        if let Item::Message(message) = item? {
            println!(rt; "written: {:?}", message.ty())?;
        }
    }
    Ok(())
}
