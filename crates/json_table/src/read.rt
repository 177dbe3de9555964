//! Reading a value: its entries are appended in the order of the text. That of an array or an object is set once those
//! within it are there.

ghost use Rattle.std.specs.Prelude.{◌≡◌, ◌≢◌, ◌∷◌, ◌++◌, [], ◌<◌, length, None, Err, OnOk, OnErr};
ghost use Rattle.json.specs.Json.{value, items, members};
ghost use Rattle.json_table.specs.Reads.{ReadsValue, ReadsItems, ReadsMembers};

use json::{Error, Node as Entry, Reader, Token};

/// Appends an entry.
#[inline(always)]
fn push<'a>(entries: &mut Vec<Entry<'a>>, next: Entry<'a>) -> Result<(), Error>
    ensures ok { OnOk result (entries.new.items ≡ entries.old.items ++ next.entry ∷ []) }
    ensures error { OnErr result (result ≡ Err Error.OutOfMemory) }
{
    if entries.len() < entries.capacity() {
        entries.push_reserved(next);
        return Ok(());
    }
    match entries.push(next) {
        Ok(()) => Ok(()),
        Err(_) => Err(Error::OutOfMemory),
    }
}

/// Appends the entries of the next value of a reader.
#[cycle(read)]
#[inline(always)]
pub fn read_value<'a>(
    reader: &mut Reader<'a>,
    depth: usize,
    entries: &mut Vec<Entry<'a>>,
) -> Result<(), Error>
    ensures ok { OnOk result (ReadsValue depth reader.old reader.new entries.old.items entries.new.items) }
    ensures shorter { OnOk result (length reader.new < length reader.old) }
    ensures invalid { result ≡ Err Error.Invalid → value depth reader.old ≡ None }
    ensures never { (result ≢ Err Error.TooLong) × (result ≢ Err Error.DuplicateKey) }
{
    let Some(token) = reader.next() else {
        return Err(Error::Invalid);
    };
    match token {
        Token::String(text) => push(entries, Entry::String(text)),
        Token::Number(text) => push(entries, Entry::Number(text)),
        Token::Bool(b) => push(entries, Entry::Bool(b)),
        Token::Null => push(entries, Entry::Null),
        Token::BeginArray => {
            if depth == 0 {
                return Err(Error::Invalid);
            }
            read_array(reader, depth - 1, entries)
        }
        Token::BeginObject => {
            if depth == 0 {
                return Err(Error::Invalid);
            }
            read_object(reader, depth - 1, entries)
        }
        Token::EndObject | Token::EndArray | Token::Key(_) | Token::Bad => Err(Error::Invalid),
    }
}

/// Appends the entries of an array whose opening bracket was read.
#[cycle(read)]
#[inline(never)]
fn read_array<'a>(
    reader: &mut Reader<'a>,
    depth: usize,
    entries: &mut Vec<Entry<'a>>,
) -> Result<(), Error>
    ensures ok { OnOk result (ReadsItems depth reader.old reader.new entries.old.items entries.new.items) }
    ensures shorter { OnOk result (length reader.new < length reader.old) }
    ensures invalid { result ≡ Err Error.Invalid → items (value depth) (length reader.old) reader.old ≡ None }
    ensures never { (result ≢ Err Error.TooLong) × (result ≢ Err Error.DuplicateKey) }
{
    let at = entries.len();
    push(entries, Entry::Array(0))?;
    while !reader.take_end_array() {
        read_value(reader, depth, entries)?;
    }
    push(entries, Entry::EndArray)?;
    let end = entries.len();
    entries[at] = Entry::Array(end);
    Ok(())
}

/// Appends the entries of an object whose opening brace was read.
#[cycle(read)]
#[inline(never)]
fn read_object<'a>(
    reader: &mut Reader<'a>,
    depth: usize,
    entries: &mut Vec<Entry<'a>>,
) -> Result<(), Error>
    ensures ok { OnOk result (ReadsMembers depth reader.old reader.new entries.old.items entries.new.items) }
    ensures shorter { OnOk result (length reader.new < length reader.old) }
    ensures invalid { result ≡ Err Error.Invalid → members (value depth) (length reader.old) reader.old ≡ None }
    ensures never { (result ≢ Err Error.TooLong) × (result ≢ Err Error.DuplicateKey) }
{
    let at = entries.len();
    push(entries, Entry::Object(0))?;
    while let Some(key) = reader.next_key()? {
        push(entries, Entry::Key(key))?;
        read_value(reader, depth, entries)?;
    }
    push(entries, Entry::EndObject)?;
    let end = entries.len();
    entries[at] = Entry::Object(end);
    Ok(())
}
