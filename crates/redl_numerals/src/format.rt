//! The forms of numbers.

ghost use Rattle.std.specs.Prelude.{◌≡◌};
ghost use Rattle.redl_numerals.specs.Formats.{custom_format, format_in, format_of, is_no_comma, is_zero, legal, padded};

use redl_reading::run;

/// The form of a number.
#[derive(Clone, Copy, Debug, PartialEq, Eq)]
pub enum Format {
    /// Digits: 1, 2, 3.
    Decimal,
    /// The same with a zero before the first ten.
    DecimalZero,
    /// The same with zeros up to this width.
    Padded(usize),
    /// I, II, III.
    UpperRoman,
    /// The same in small letters.
    LowerRoman,
    /// A, B, .. Z, AA, BB.
    UpperLetter,
    /// The same in small letters.
    LowerLetter,
    /// 1st, 2nd, 3rd.
    Ordinal,
    /// No text.
    Nothing,
    /// A sign in place of a number.
    Bullet,
}

impl Format {
    /// The form in a level where all numbers are legal, or not.
    pub fn within(self, is_legal: bool) -> Format
        ensures { result ≡ format_in is_legal self }
    {
        if is_legal {
            return self.legal();
        }
        self
    }

    fn legal(self) -> Format
        ensures { result ≡ legal self }
    {
        match self {
            Format::DecimalZero => Format::DecimalZero,
            Format::Nothing => Format::Nothing,
            _ => Format::Decimal,
        }
    }
}

/// The form with this name. `examples` are of a form of one's own.
pub fn read_format(name: &[u8], examples: &[u8]) -> Format
    ensures { result ≡ format_of name.now examples.now }
{
    if name == b"decimalZero".as_slice() {
        Format::DecimalZero
    } else if name == b"upperRoman".as_slice() {
        Format::UpperRoman
    } else if name == b"lowerRoman".as_slice() {
        Format::LowerRoman
    } else if name == b"upperLetter".as_slice() {
        Format::UpperLetter
    } else if name == b"lowerLetter".as_slice() {
        Format::LowerLetter
    } else if name == b"ordinal".as_slice() {
        Format::Ordinal
    } else if name == b"none".as_slice() {
        Format::Nothing
    } else if name == b"bullet".as_slice() {
        Format::Bullet
    } else if name == b"custom".as_slice() {
        custom_format(examples)
    } else {
        Format::Decimal
    }
}

fn custom_format(examples: &[u8]) -> Format
    ensures { result ≡ custom_format examples.now }
{
    let (example, _) = run(examples, is_no_comma);
    padded(example)
}

// The form of which this is the first number.
fn padded(example: &[u8]) -> Format
    ensures { result ≡ padded example.now }
{
    let (_, rest) = run(example, is_zero);
    if rest == b"1".as_slice() {
        return Format::Padded(example.len());
    }
    Format::Decimal
}

fn is_no_comma(byte: u8) -> bool
    ensures { result ≡ is_no_comma byte }
{
    byte != b','
}

fn is_zero(byte: u8) -> bool
    ensures { result ≡ is_zero byte }
{
    byte == b'0'
}
