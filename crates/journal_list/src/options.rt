//! Command lines without a file and options: a chunk size and `v9`.

ghost use Rattle.std.specs.Prelude.{◌≡◌, ◌≤◌, ◌↔◌, ℕ, codes, map, IfSome, IsNone, IsTrue, string_bytes};
ghost use Rattle.shared_core_base.specs.Version.{version_number};
ghost use Rattle.shared_core_base.specs.declared.version.Version.{Version as AnyVersion};
ghost use Rattle.journal_list.specs.Options.{IsChunkSize, AreOptions};

use shared_core_base::version::Version;

const DEFAULT_CHUNK_SIZE: usize = 4096;

const MAX_CHUNK_SIZE: usize = 65536;

/// Returns the version, and how many bytes are read at a time, by the arguments after the program's name. They are one
/// to five digits from 1 to 65,536, or none for 4,096; and after it `v9`, or nothing for V8. Returns `None` for other
/// arguments.
pub fn options(args: &[String]) -> Option<(Version, usize)>
    ensures some { IfSome result (λ found. AreOptions (map string_bytes args.now) found.0 found.1) }
    ensures none { IsNone result → (version : AnyVersion) → (chunk_size : ℕ)
        → AreOptions (map string_bytes args.now) version chunk_size → ⊥ }
    ensures low { IfSome result (λ found. 1 ≤ found.1) }
    ensures high { IfSome result (λ found. found.1 ≤ 65536) }
    ensures spoken { IfSome result (λ found. 5 ≤ version_number found.0) }
{
    match args {
        [] => Some((Version::V8, DEFAULT_CHUNK_SIZE)),
        [word] if is_v9(word.as_str()) => Some((Version::V9, DEFAULT_CHUNK_SIZE)),
        [word] => Some((Version::V8, chunk_size_of(word.as_str())?)),
        [word, last] if is_v9(last.as_str()) => Some((Version::V9, chunk_size_of(word.as_str())?)),
        _ => None,
    }
}

/// The argument that selects V9.
fn is_v9(word: &str) -> bool
    ensures { IsTrue result ↔ word.now ≡ codes "v9" }
{
    word == "v9"
}

/// One to five digits, from 1 to 65,536.
fn chunk_size_of(word: &str) -> Option<usize>
    ensures some { IfSome result (IsChunkSize word.now) }
    ensures none { IsNone result → (chunk_size : ℕ) → IsChunkSize word.now chunk_size → ⊥ }
    ensures low { IfSome result (λ chunk_size. 1 ≤ chunk_size) }
    ensures high { IfSome result (λ chunk_size. chunk_size ≤ 65536) }
{
    // `parse` would accept a sign
    if 5 < word.len() || word.as_bytes().first() == Some(&b'+') {
        return None;
    }
    let chunk_size = word.parse::<usize>().ok()?;
    if 1 <= chunk_size && chunk_size <= MAX_CHUNK_SIZE {
        Some(chunk_size)
    } else {
        None
    }
}
