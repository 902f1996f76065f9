// Values whose texts are lent. Nothing here takes memory.
ghost use Rattle.awk_numbers.specs.declared.number.Number.TheVariants as number;
ghost use Rattle.awk_text.specs.Lents.{lent_value};
ghost use Rattle.awk_text.specs.Numerals.{looks_in, most_digits, number_in};
ghost use Rattle.awk_text.specs.Values.{number_of, numeric, order, text_of, truth};
ghost use Rattle.std.specs.Char.{is_ascii_digit};
ghost use Rattle.std.specs.Cmp.Lexicographic.{slice_cmp};
ghost use Rattle.std.specs.List.{list_all};
ghost use Rattle.std.specs.Ordering.{nat_cmp};
ghost use Rattle.std.specs.Prelude.{IfNone, IfSome, Ok, Some, false, length, true, ◌<◌, ◌≡◌, ◌≤◌, ◌⊎◌};

use crate::buffer::Buffer;
use crate::fault::Fault;
use crate::numeral;
use crate::value::Value;
use awk_numbers::number::{Number, Numbers};
use awk_numbers::operators;
use std::cmp::Ordering;

/// The most digits of a number that is read without a look at its range.
fn most_digits(numbers: Numbers) -> usize
    ensures { result ≡ most_digits numbers }
{
    match numbers {
        Numbers::Whole => 18,
        Numbers::Double => 15,
    }
}

/// The number that the text is by the profile, where it is 1 to 18 digits and nothing else, 15 in profile double;
/// `None` exactly where it is not. Takes no memory.
pub fn few_digits(numbers: Numbers, text: &[u8]) -> Option<i64>
    ensures number { IfSome result (λ n. number_in numbers text.now ≡ Ok (number.Whole n)) }
    ensures looks { IfSome result (λ n. looks_in numbers text.now ≡ Some (number.Whole n)) }
    ensures few { IfSome result
        (λ n. (0 < length text.now) × (length text.now ≤ 18) × (list_all is_ascii_digit text.now ≡ true)) }
    ensures only { IfNone result
        ((length text.now ≡ 0) ⊎ (most_digits numbers < length text.now)
        ⊎ (list_all is_ascii_digit text.now ≡ false)) }
{
    if text.is_empty() || text.len() > most_digits(numbers) {
        return None;
    }
    let mut value: u64 = 0;
    for b in text {
        if !b.is_ascii_digit() {
            return None;
        }
        value = value * 10 + u64::from(*b - b'0');
    }
    Some(value as i64)
}

/// A value of a script whose text, if it has one, stands elsewhere.
#[derive(Clone, Copy, Drop)]
pub enum Lent<'a> {
    Unset,
    Num(i64),
    /// In profile double, a number with a fraction, or beyond 2^53.
    Real(f64),
    Text(&'a [u8]),
    /// A text from outside, which may look numeric.
    Input(&'a [u8]),
}

impl<'a> Lent<'a> {
    /// The value, lent.
    pub fn of(value: &'a Value) -> Lent<'a>
        ensures { lent_value result ≡ value.now }
    {
        match value {
            Value::Unset => Lent::Unset,
            Value::Num(number) => Lent::Num(*number),
            Value::Real(number) => Lent::Real(*number),
            Value::Text(text) => Lent::Text(text.bytes()),
            Value::Input(text) => Lent::Input(text.bytes()),
        }
    }

    /// The number by the profile: of a text the one that it begins with.
    ///
    /// Fails with `Fault::OutOfRange` where that is out of range.
    pub fn number(self, numbers: Numbers) -> Result<Number, Fault>
        ensures { result ≡ number_of numbers (lent_value self.entry) }
    {
        match self {
            Lent::Unset => Ok(Number::Whole(0)),
            Lent::Num(number) => Ok(Number::Whole(number)),
            Lent::Real(number) => Ok(Number::Real(number)),
            Lent::Text(text) | Lent::Input(text) => match few_digits(numbers, text) {
                Some(number) => Ok(Number::Whole(number)),
                None => numeral::number_in(numbers, text),
            },
        }
    }

    /// The number of a value that is compared and tested as a number.
    #[inline(always)]
    fn numeric(self, numbers: Numbers) -> Option<Number>
        ensures { result ≡ numeric numbers (lent_value self.entry) }
    {
        match self {
            Lent::Unset => Some(Number::Whole(0)),
            Lent::Num(number) => Some(Number::Whole(number)),
            Lent::Real(number) => Some(Number::Real(number)),
            Lent::Text(_) => None,
            Lent::Input(text) => match few_digits(numbers, text) {
                Some(number) => Some(Number::Whole(number)),
                None => numeral::looks_in(numbers, text),
            },
        }
    }

    /// The text: a number's is written into the buffer.
    pub fn text(self, buffer: &'a mut Buffer) -> &'a [u8]
        ensures { result.now ≡ text_of (lent_value self.entry) }
    {
        match self {
            Lent::Unset => &[],
            Lent::Num(number) => buffer.text(Number::Whole(number)),
            Lent::Real(number) => buffer.text(Number::Real(number)),
            Lent::Text(text) | Lent::Input(text) => text,
        }
    }

    /// Whether it is true by the profile: a number that is not 0, or a text that is not empty. A text from outside that
    /// looks numeric is a number here.
    pub fn truth(self, numbers: Numbers) -> bool
        ensures { result ≡ truth numbers (lent_value self.entry) }
    {
        match self.numeric(numbers) {
            Some(number) => operators::truth(number),
            None => match self {
                Lent::Text(text) | Lent::Input(text) => !text.is_empty(),
                Lent::Unset | Lent::Num(_) | Lent::Real(_) => false,
            },
        }
    }

    /// The order of the texts of two values, byte by byte: out of line, for the buffers that numbers are written into.
    #[inline(never)]
    fn compare_texts(self, other: Lent<'a>) -> Ordering
        ensures { result ≡ slice_cmp nat_cmp (text_of (lent_value self.entry)) (text_of (lent_value other.entry)) }
    {
        let (mut first, mut second) = (Buffer::new(), Buffer::new());
        self.text(&mut first).cmp(other.text(&mut second))
    }

    /// The order of two values by the profile: of their numbers where each is a number, unset, or a text from outside
    /// that looks numeric, and else of their texts, byte by byte.
    #[inline(always)]
    pub fn compare(self, numbers: Numbers, other: Lent<'a>) -> Ordering
        ensures { result ≡ order numbers (lent_value self.entry) (lent_value other.entry) }
    {
        if let (Some(a), Some(b)) = (self.numeric(numbers), other.numeric(numbers)) {
            return operators::order(a, b);
        }
        self.compare_texts(other)
    }
}
