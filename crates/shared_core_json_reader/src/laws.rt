//! Laws of reading and writing, each the contract of a function.

ghost use Rattle.shared_core_json_reader.specs.Laws.{JsonIsReadBack, ReadsCanonical, IsReadAgain};
ghost use Rattle.shared_core_json_reader.specs.Laws.{WellFormedIsReadBack, PrintedIsReadBack};

/// A text whose tokens are those of the JSON of a value, with bytes as texts or without, is read as the canonical
/// payload of the value, if it has at most one hundred levels.
pub fn json_is_read_back(texts: bool, schema: u32)
    ensures { JsonIsReadBack texts schema }
{}

/// Each payload that is read is canonical, if it is not too long for a header.
pub fn read_payloads_are_canonical(schema: u32)
    ensures { ReadsCanonical schema }
{}

/// Reading and writing again changes nothing more: a payload that was read, written as JSON with bytes as texts or
/// without, is read again as the same bytes.
pub fn reading_and_writing_again(texts: bool, schema: u32)
    ensures { IsReadAgain texts schema }
{}

/// The JSON of each well-formed payload, however it is encoded, is read as its canonical payload.
pub fn well_formed_payloads_are_read_back(texts: bool, schema: u32)
    ensures printed { PrintedIsReadBack texts schema }
    // and so is any text with the same tokens
    ensures tokens { WellFormedIsReadBack texts schema }
{}
