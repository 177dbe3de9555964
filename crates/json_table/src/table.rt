//! The table of a value.

ghost use Rattle.std.specs.Prelude.{◌≡◌, ◌≢◌, ◌<◌, length, Some, None, Err, IfOk, OnOk};
ghost use Rattle.json.specs.Json.{value, document};

use crate::node::Node;
use crate::read::read_value;
use json::{Error, Node as Entry, Reader, Scratch, Tape};
use std::alloc::Global;
use std::marker::Model;

/// What holds the entries of a table.
#[derive(Drop)]
enum Storage<'a> {
    /// Those that the crate `json` made of a whole text.
    Tape(Tape<'a>),
    /// Those that were read one by one.
    List(Vec<Entry<'a>>),
}

/// A value of JSON as a flat list of entries. A contract sees the value.
#[derive(Drop)]
pub struct Table<'a> {
    storage: Storage<'a>,
}

impl<'a> Model for Table<'a> {
    ghost use Rattle.json.specs.Json.{Json};
    ghost use Rattle.json_table.specs.Codes.{value_code};

    ghost Value = { Json };

    ghost coded = { value_code };

    ghost use Rattle.json_table.specs.Tables.{stored_value, HasValue};

    ghost view = { λ a. stored_value a.storage };

    ghost invariant = { λ a. HasValue a.storage };
}

impl<'a> Table<'a> {
    /// Returns the value that a text is, whose arrays and objects may be nested 128 deep. The table borrows from the
    /// text and from the buffers, which grow to five bytes for each byte of the text.
    ///
    /// `Invalid` if the text is no such value, `TooLong` if it has more than 4,294,967,040 bytes, and `OutOfMemory`.
    pub fn parse(alloc: Global, text: &'a str, scratch: &'a mut Scratch) -> Result<Table<'a>, Error>
        ensures ok { IfOk result (λ table. document text.now ≡ Some table) }
        ensures invalid { result ≡ Err Error.Invalid → document text.now ≡ None }
        ensures too_long { result ≡ Err Error.TooLong → 4294967040 < length text.now }
        ensures never_duplicate { result ≢ Err Error.DuplicateKey }
    {
        let tape = Tape::parse(text, scratch, Vec::new(alloc))?;
        Ok(Table {
            storage: Storage::Tape(tape),
        })
    }

    /// Returns the next value of a reader, whose arrays and objects may be nested `depth` deep. Room for this many
    /// entries is made before; a table with more of them grows.
    ///
    /// `Invalid` if there is no such value, and `OutOfMemory`. Where the reader stands after an error is not specified.
    pub fn read(
        alloc: Global,
        reader: &mut Reader<'a>,
        depth: usize,
        room: usize,
    ) -> Result<Table<'a>, Error>
        ensures ok { IfOk result (λ table. value depth reader.old ≡ Some (table, reader.new)) }
        ensures shorter { OnOk result (length reader.new < length reader.old) }
        ensures invalid { result ≡ Err Error.Invalid → value depth reader.old ≡ None }
        ensures never_too_long { result ≢ Err Error.TooLong }
        ensures never_duplicate { result ≢ Err Error.DuplicateKey }
    {
        let mut entries = Vec::with_capacity(alloc, room)?;
        read_value(reader, depth, &mut entries)?;
        Ok(Table {
            storage: Storage::List(entries),
        })
    }

    /// Returns the value.
    #[inline(always)]
    pub fn root(&self) -> Node<'_, 'a>
        ensures { result ≡ self.now }
    {
        match &self.storage {
            Storage::Tape(tape) => Node::of_entries(tape.nodes()),
            Storage::List(entries) => Node::of_entries(entries),
        }
    }
}
