//! Two texts, and what they have in common at their beginnings and ends, in whole characters.

ghost use Rattle.std.specs.Prelude.{◌≡◌, ◌≤◌, length, reverse};
ghost use Rattle.diff_lines.specs.Parted.{back, between, char_start, common, common_back, difference_at, from_char};
ghost use Rattle.diff_lines.specs.Parted.{front, is_inner, is_inner_at};

/// Two texts in parts: each is what both begin with, what only it has, and what both end with.
#[derive(Clone, Copy, Drop)]
pub struct Parted<'a> {
    pub front: &'a [u8],
    pub recorded: &'a [u8],
    pub replayed: &'a [u8],
    pub back: &'a [u8],
}

/// Two texts in parts. Both begin with all up to the first character in which they differ, and end with all of the
/// rests that is the same.
pub fn part_texts<'a>(recorded: &'a [u8], replayed: &'a [u8]) -> Parted<'a>
    ensures front { result.front.now ≡ front recorded.now replayed.now }
    ensures back { result.back.now ≡ back recorded.now replayed.now }
    ensures recorded { result.recorded.now ≡ between recorded.now replayed.now recorded.now }
    ensures replayed { result.replayed.now ≡ between recorded.now replayed.now replayed.now }
{
    let at = difference_at(recorded, replayed);
    let (front, recorded) = recorded.split_at(at);
    let (_front, replayed) = replayed.split_at(at);
    let back = common_back(recorded, replayed);
    let (recorded, _back) = recorded.split_at(recorded.len() - back.len());
    let (replayed, _back) = replayed.split_at(replayed.len() - back.len());
    Parted {
        front,
        recorded,
        replayed,
        back,
    }
}

/// Where the first character begins in which two texts differ.
fn difference_at(recorded: &[u8], replayed: &[u8]) -> usize
    ensures at { result ≡ difference_at recorded.now replayed.now }
    ensures recorded { result ≤ length recorded.now }
    ensures replayed { result ≤ length replayed.now }
{
    char_start(recorded, common(recorded, replayed))
}

/// How many bytes two texts have in common at their beginnings.
fn common(recorded: &[u8], replayed: &[u8]) -> usize
    ensures count { result ≡ common recorded.now replayed.now }
    ensures recorded { result ≤ length recorded.now }
    ensures replayed { result ≤ length replayed.now }
{
    let mut count = 0usize;
    let mut left = recorded;
    let mut other = replayed;
    while let [byte, rest @ ..] = left {
        let [other_byte, other_rest @ ..] = other else {
            return count;
        };
        if byte != other_byte {
            return count;
        }
        count += 1;
        left = rest;
        other = other_rest;
    }
    count
}

/// What two texts have in common at their ends, from the first character on that is whole.
fn common_back<'a>(recorded: &'a [u8], replayed: &[u8]) -> &'a [u8]
    ensures back { result.now ≡ common_back recorded.now replayed.now }
    ensures recorded { length result.now ≤ length recorded.now }
    ensures replayed { length result.now ≤ length replayed.now }
{
    let count = count_back(recorded, replayed);
    from_char(&recorded[recorded.len() - count..])
}

/// How many bytes two texts have in common at their ends.
#[tactic(auto, using(crate::proofs::Parting::none_at_end))]
fn count_back(recorded: &[u8], replayed: &[u8]) -> usize
    ensures count { result ≡ common (reverse recorded.now) (reverse replayed.now) }
    ensures recorded { result ≤ length recorded.now }
    ensures replayed { result ≤ length replayed.now }
{
    let mut count = 0usize;
    let mut left = recorded;
    let mut other = replayed;
    while let [rest @ .., byte] = left {
        let [other_rest @ .., other_byte] = other else {
            return count;
        };
        if byte != other_byte {
            return count;
        }
        count += 1;
        left = rest;
        other = other_rest;
    }
    count
}

/// Where the character begins that has the byte at this place of a text, or the place itself, if the text ends there.
pub fn char_start(text: &[u8], place: usize) -> usize
    ensures start { result ≡ char_start text.now place }
    ensures before { result ≤ place }
{
    let mut at = place;
    while at > 0 && is_inner_at(text, at) {
        at -= 1;
    }
    at
}

/// Whether a text has a byte at this place that is within a character, and not the first of one.
fn is_inner_at(text: &[u8], place: usize) -> bool
    ensures { result ≡ is_inner_at text.now place }
{
    match text.get(place) {
        Some(byte) => is_inner(*byte),
        None => false,
    }
}

/// The bytes of a text from the first one on that begins a character.
pub fn from_char(text: &[u8]) -> &[u8]
    ensures bytes { result.now ≡ from_char text.now }
    ensures few { length result.now ≤ length text.now }
{
    let mut left = text;
    while let [byte, rest @ ..] = left {
        if !is_inner(*byte) {
            return left;
        }
        left = rest;
    }
    left
}

/// Whether a byte of a text is within a character, and not the first of one.
fn is_inner(byte: u8) -> bool
    ensures { result ≡ is_inner byte }
{
    0x80 <= byte && byte < 0xc0
}
