//! Ranges of numbers, and how a text says one.

ghost use Rattle.std.specs.Prelude.{◌≡◌, ◌<◌, IfSome, map};
ghost use Rattle.show_lines.specs.Filter.{is_in};
ghost use Rattle.show_lines.specs.Ranges.{above, below, between, bounded_range, down_from, exactly, no_digits};
ghost use Rattle.show_lines.specs.Ranges.{number_in, number_said, plain_range, range_said, unit_of, units, up_from};
ghost use Rattle.show_lines.specs.Ranges.{with_bytes, without_sign, without_unit};

/// The numbers from the first to the last, and none if that is less.
#[derive(Clone, Copy, Debug, PartialEq, Eq, Drop)]
pub struct Range {
    /// The least number.
    pub first: u128,
    /// The greatest number.
    pub last: u128,
}

impl Range {
    /// Whether it has a number.
    pub fn has(&self, number: u128) -> bool
        ensures { result ≡ is_in self.now number }
    {
        self.first <= number && number <= self.last
    }
}

/// Units of bytes, as they end a number, with their sizes: the longer ones first.
const UNITS: [(&str, u128); 7] = [
    ("kib", 1 << 10),
    ("mib", 1 << 20),
    ("gib", 1 << 30),
    ("kb", 1_000),
    ("mb", 1_000_000),
    ("gb", 1_000_000_000),
    ("b", 1),
];

/// A number that may have a fraction: the nearest whole numbers, down and up.
#[derive(Clone, Copy)]
struct Amount {
    floor: u128,
    ceiling: u128,
}

/// The range that a text in lower case says: 49, 40-60, >49, >=1mb or <2kb, where digits may have commas among them and
/// a fraction after them. None for other texts, and for numbers beyond 128 bits.
pub fn range_of(text: &str) -> Option<Range>
    ensures { result ≡ range_said text.now }
{
    if let Some(text) = text.strip_prefix(">=") {
        return Some(from(amount_of(text)?.ceiling));
    }
    if let Some(text) = text.strip_prefix(">") {
        return above(amount_of(text)?);
    }
    bounded_range(text)
}

/// The range up to a number or below it, or a plain one.
fn bounded_range(text: &str) -> Option<Range>
    ensures { result ≡ bounded_range text.now }
{
    if let Some(text) = text.strip_prefix("<=") {
        return Some(up_to(amount_of(text)?.floor));
    }
    if let Some(text) = text.strip_prefix("<") {
        return Some(below(amount_of(text)?));
    }
    plain_range(text)
}

/// The range of two numbers with a dash between them, or of one number.
fn plain_range(text: &str) -> Option<Range>
    ensures { result ≡ plain_range text.now }
{
    match text.split_once('-') {
        Some((first, last)) => between(first, last),
        None => exactly(without_sign(text)),
    }
}

/// A text without the sign that it may begin with.
fn without_sign(text: &str) -> &str
    ensures { result.now ≡ without_sign text.now }
{
    text.strip_prefix("=").unwrap_or(text)
}

/// The range of one number: empty if that has a fraction.
fn exactly(text: &str) -> Option<Range>
    ensures { result ≡ exactly text.now }
{
    let amount = amount_of(text)?;
    Some(Range {
        first: amount.ceiling,
        last: amount.floor,
    })
}

/// The numbers above one.
fn above(amount: Amount) -> Option<Range>
    ensures { result ≡ above amount }
{
    Some(from(amount.floor.checked_add(1)?))
}

/// The numbers below one; none below 0.
fn below(amount: Amount) -> Range
    ensures { result ≡ below amount }
{
    match amount.ceiling.checked_sub(1) {
        Some(last) => up_to(last),
        None => Range { first: 1, last: 0 },
    }
}

/// The numbers from this one on.
fn from(first: u128) -> Range
    ensures { result ≡ up_from first }
{
    Range {
        first,
        last: u128::MAX,
    }
}

/// The numbers up to this one.
fn up_to(last: u128) -> Range
    ensures { result ≡ down_from last }
{
    Range { first: 0, last }
}

/// The range between two texts. The first may give its unit to the second.
fn between(first: &str, last: &str) -> Option<Range>
    ensures { result ≡ between first.now last.now }
{
    let (first, first_unit) = split_unit(first);
    let (last, last_unit) = split_unit(last);
    let unit = first_unit.unwrap_or(1);
    Some(Range {
        first: scaled(first, unit)?.ceiling,
        last: scaled(last, last_unit.unwrap_or(unit))?.floor,
    })
}

/// The number that a text says, with a unit or without one.
fn amount_of(text: &str) -> Option<Amount>
    ensures { result ≡ number_said text.now }
{
    let (digits, unit) = split_unit(text);
    scaled(digits, unit.unwrap_or(1))
}

/// A text without the unit at its end, and the size of that.
fn split_unit(text: &str) -> (&str, Option<u128>)
    ensures text { result.0.now ≡ (without_unit units text.now).0 }
    ensures unit { result.1 ≡ (without_unit units text.now).1 }
{
    without_unit(text, &UNITS)
}

/// A text without the first of these units that it ends with, and the size of that.
fn without_unit<'a>(text: &'a str, units: &[(&'static str, u128)]) -> (&'a str, Option<u128>)
    ensures text { result.0.now ≡ (without_unit (map unit_of units.now) text.now).0 }
    ensures unit { result.1 ≡ (without_unit (map unit_of units.now) text.now).1 }
{
    for (unit, size) in units {
        if let Some(digits) = text.strip_suffix(*unit) {
            return (digits, Some(*size));
        }
    }
    (text, None)
}

/// What digits say, with a point among them or without one.
#[derive(Clone, Copy, Drop)]
struct Digits {
    /// The number that they are without the point.
    parts: u128,
    /// How many parts are one: ten times as many with each digit after the point.
    one: u128,
    has_point: bool,
    has_digit: bool,
}

impl Digits {
    ghost use Rattle.show_lines.specs.Ranges.{no_digits, with_byte, with_digit, scaled_digits};

    /// None yet.
    fn new() -> Digits
        ensures { result ≡ no_digits }
    {
        Digits {
            parts: 0,
            one: 1,
            has_point: false,
            has_digit: false,
        }
    }

    /// With one more byte: a digit, a comma, which is passed over, or a point, which comes once. None for another one,
    /// or if a number has more than 128 bits.
    fn with_byte(self, byte: u8) -> Option<Digits>
        ensures value { result ≡ with_byte self byte }
        ensures positive { 0 < self.one → IfSome result (λ next. 0 < next.one) }
    {
        match byte {
            b',' => Some(self),
            b'.' if !self.has_point => Some(Digits {
                has_point: true,
                ..self
            }),
            b'0'..=b'9' => self.with_digit(byte - b'0'),
            _ => None,
        }
    }

    /// With one more digit.
    fn with_digit(self, digit: u8) -> Option<Digits>
        ensures value { result ≡ with_digit self digit }
        ensures positive { 0 < self.one → IfSome result (λ next. 0 < next.one) }
    {
        let parts = self.parts.checked_mul(10)?.checked_add(u128::from(digit))?;
        let one = if self.has_point {
            self.one.checked_mul(10)?
        } else {
            self.one
        };
        Some(Digits {
            parts,
            one,
            has_point: self.has_point,
            has_digit: true,
        })
    }

    /// The number that they say in a unit. None if there is no digit.
    fn scaled(self, unit: u128) -> Option<Amount>
        requires { 0 < self.one }
        ensures { result ≡ scaled_digits unit self }
    {
        if !self.has_digit {
            return None;
        }
        let parts = self.parts.checked_mul(unit)?;
        let up = parts.checked_add(self.one - 1)?;
        Some(Amount {
            floor: parts / self.one,
            ceiling: up / self.one,
        })
    }
}

/// The digits of a text.
fn digits_of(text: &[u8]) -> Option<Digits>
    ensures value { result ≡ with_bytes no_digits text.now }
    ensures positive { IfSome result (λ digits. 0 < digits.one) }
{
    let mut digits = Digits::new();
    for byte in text {
        digits = digits.with_byte(*byte)?;
    }
    Some(digits)
}

/// The number that the digits of a text say in a unit.
fn scaled(digits: &str, unit: u128) -> Option<Amount>
    ensures { result ≡ number_in unit digits.now }
{
    digits_of(digits.as_bytes())?.scaled(unit)
}
