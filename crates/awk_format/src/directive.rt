// The conversion specifications of a format.
ghost use Rattle.std.specs.Prelude.{◌≡◌, ◌≤◌, drop, length, IfOk, IfErr};
ghost use Rattle.std.specs.Char.{is_ascii_digit};
ghost use Rattle.std.specs.List.{prefix_len};
ghost use Rattle.awk_text.specs.Numerals.{drop_while};
ghost use Rattle.awk_format.specs.Directives.{columns_of, conversion_of, directive_of, flags_of, is_flag, precision_of};
ghost use Rattle.awk_format.specs.Directives.{after_precision, double_conversion, tail_of, whole_conversion, with_flag};

use awk_numbers::number::Numbers;
use awk_text::fault::Fault;
use awk_text::numeral::leading_digits;

/// The greatest width and the greatest precision.
const MOST_COLUMNS: u64 = u16::MAX as u64;

/// The flags of a conversion specification.
#[derive(Clone, Copy, PartialEq, Eq, Drop)]
pub struct Flags {
    /// `-`: the fill is on the right.
    pub left: bool,
    /// `+`: a sign stands before a number that is not negative too.
    pub plus: bool,
    /// A space stands where a sign would.
    pub space: bool,
    /// `#`: the alternative form.
    pub alternate: bool,
    /// `0`: the fill is zeros.
    pub zero: bool,
}

impl Flags {
    /// These and the one that the byte is.
    fn with(self, b: u8) -> Flags
        ensures { result ≡ with_flag b self }
    {
        match b {
            b'-' => Flags { left: true, ..self },
            b'+' => Flags { plus: true, ..self },
            b' ' => Flags {
                space: true,
                ..self
            },
            b'#' => Flags {
                alternate: true,
                ..self
            },
            b'0' => Flags { zero: true, ..self },
            _ => self,
        }
    }
}

/// What a conversion specification makes of its value.
#[derive(Clone, Copy, PartialEq, Eq, Drop)]
pub enum Conversion {
    /// `d` and `i`.
    Signed,
    /// `u`.
    Unsigned,
    /// `o`.
    Octal,
    /// `x`.
    LowerHex,
    /// `X`.
    UpperHex,
    /// `s`.
    Text,
    /// `c`.
    Byte,
    /// `f` and `F`.
    Fixed,
    /// `e`.
    LowerExponential,
    /// `E`.
    UpperExponential,
    /// `g`.
    LowerGeneral,
    /// `G`.
    UpperGeneral,
}

/// A conversion specification. POSIX.1-2017, XBD 5, "File Format Notation".
#[derive(Clone, Copy, PartialEq, Eq, Drop)]
pub struct Directive {
    pub flags: Flags,
    /// The least number of bytes of the field.
    pub width: usize,
    pub precision: Option<u16>,
    pub conversion: Conversion,
}

fn is_flag(b: u8) -> bool
    ensures { result ≡ is_flag b }
{
    matches!(b, b'-' | b'+' | b' ' | b'#' | b'0')
}

fn count_flags(text: &[u8]) -> usize
    ensures count { result ≡ prefix_len is_flag text.now }
    ensures within { result ≤ length text.now }
{
    for (i, b) in text.iter().enumerate() {
        if !is_flag(*b) {
            return i;
        }
    }
    text.len()
}

fn flags_of(run: &[u8]) -> Flags
    ensures { result ≡ flags_of run.now }
{
    let mut flags = Flags {
        left: false,
        plus: false,
        space: false,
        alternate: false,
        zero: false,
    };
    for b in run {
        flags = flags.with(*b);
    }
    flags
}

/// The width or precision that the text begins with, 0 where it has no digit, and what follows.
///
/// Fails with `Fault::Format` where it is over `MOST_COLUMNS`.
fn columns(text: &[u8]) -> Result<(u16, &[u8]), Fault>
    ensures ok { IfOk result (λ r. columns_of text.now ≡ Ok r.0) }
    ensures rest { IfOk result (λ r. r.1.now ≡ drop_while is_ascii_digit text.now) }
    ensures err { IfErr result (λ e. columns_of text.now ≡ Err e) }
{
    let (count, value) = leading_digits(text);
    if MOST_COLUMNS < value {
        return Err(Fault::Format);
    }
    Ok((value as u16, &text[count..]))
}

/// The precision that the text begins with, where a `.` stands there, and what follows.
///
/// Fails with `Fault::Format` where it is over `MOST_COLUMNS`.
fn read_precision(text: &[u8]) -> Result<(Option<u16>, &[u8]), Fault>
    ensures ok { IfOk result (λ r. precision_of text.now ≡ Ok r.0) }
    ensures rest { IfOk result (λ r. r.1.now ≡ after_precision text.now) }
    ensures err { IfErr result (λ e. precision_of text.now ≡ Err e) }
{
    match text {
        [b'.', after @ ..] => {
            let (precision, rest) = columns(after)?;
            Ok((Some(precision), rest))
        }
        _ => Ok((None, text)),
    }
}

fn whole_conversion(b: u8) -> Result<Conversion, Fault>
    ensures { result ≡ whole_conversion b }
{
    match b {
        b'd' | b'i' => Ok(Conversion::Signed),
        b'u' => Ok(Conversion::Unsigned),
        b'o' => Ok(Conversion::Octal),
        b'x' => Ok(Conversion::LowerHex),
        b'X' => Ok(Conversion::UpperHex),
        b's' => Ok(Conversion::Text),
        b'c' => Ok(Conversion::Byte),
        _ => Err(Fault::Format),
    }
}

fn double_conversion(b: u8) -> Result<Conversion, Fault>
    ensures { result ≡ double_conversion b }
{
    match b {
        b'f' | b'F' => Ok(Conversion::Fixed),
        b'e' => Ok(Conversion::LowerExponential),
        b'E' => Ok(Conversion::UpperExponential),
        b'g' => Ok(Conversion::LowerGeneral),
        b'G' => Ok(Conversion::UpperGeneral),
        _ => whole_conversion(b),
    }
}

/// Fails with `Fault::Format` where the byte is no conversion specifier of the profile.
fn conversion_of(numbers: Numbers, b: u8) -> Result<Conversion, Fault>
    ensures { result ≡ conversion_of numbers b }
{
    match numbers {
        Numbers::Whole => whole_conversion(b),
        Numbers::Double => double_conversion(b),
    }
}

/// The conversion specification of the profile whose `%` stands before this text, and what follows it.
///
/// Fails with `Fault::Format` where there is none.
pub fn read_directive(numbers: Numbers, text: &[u8]) -> Result<(Directive, &[u8]), Fault>
    ensures ok { IfOk result (λ r. directive_of numbers text.now ≡ Ok r.0) }
    ensures rest { IfOk result (λ r. r.1.now ≡ drop 1 (tail_of text.now)) }
    ensures err { IfErr result (λ e. directive_of numbers text.now ≡ Err e) }
{
    let (run, after_flags) = text.split_at(count_flags(text));
    let flags = flags_of(run);
    let (width, after_width) = columns(after_flags)?;
    let (precision, tail) = read_precision(after_width)?;
    let [b, rest @ ..] = tail else {
        return Err(Fault::Format);
    };
    let conversion = conversion_of(numbers, *b)?;
    Ok((
        Directive {
            flags,
            width: usize::from(width),
            precision,
            conversion,
        },
        rest,
    ))
}
