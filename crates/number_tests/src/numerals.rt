// Texts, the numbers that they begin with, and whether they look numeric.
use awk_numbers::number::{Number, NumberFault};
use awk_numbers::numeral;

enum Want {
    Whole(i64),
    /// The double of this bit pattern.
    Real(u64),
    OutOfRange,
}

const ROWS: [(&[u8], Want, bool); 66] = [
    (b"0", Want::Whole(0), true),
    (b"1", Want::Whole(1), true),
    (b"12", Want::Whole(12), true),
    (b"+5", Want::Whole(5), true),
    (b"-5", Want::Whole(-5), true),
    (b" 7", Want::Whole(7), true),
    (b"\x09-7.5\x0a", Want::Real(0xc01e000000000000), true),
    (b"1.", Want::Whole(1), true),
    (b"-.5", Want::Real(0xbfe0000000000000), true),
    (b".5", Want::Real(0x3fe0000000000000), true),
    (b"1e3", Want::Whole(1000), true),
    (b"1E3", Want::Whole(1000), true),
    (b"1e+3", Want::Whole(1000), true),
    (b"1e-3", Want::Real(0x3f50624dd2f1a9fc), true),
    (b"1e", Want::Whole(1), false),
    (b"1e+", Want::Whole(1), false),
    (b"1ex", Want::Whole(1), false),
    (b"0x10", Want::Whole(0), false),
    (b"inf", Want::Whole(0), false),
    (b"nan", Want::Whole(0), false),
    (b"+inf", Want::Whole(0), false),
    (b"-nan", Want::Whole(0), false),
    (b"infinity", Want::Whole(0), false),
    (b"", Want::Whole(0), false),
    (b"-", Want::Whole(0), false),
    (b"+", Want::Whole(0), false),
    (b".", Want::Whole(0), false),
    (b" ", Want::Whole(0), false),
    (b".e5", Want::Whole(0), false),
    (b"e5", Want::Whole(0), false),
    (b"1.5.3", Want::Real(0x3ff8000000000000), false),
    (b"1..2", Want::Whole(1), false),
    (b"--1", Want::Whole(0), false),
    (b"+-1", Want::Whole(0), false),
    (b"1 2", Want::Whole(1), false),
    (b"1  ", Want::Whole(1), true),
    (b"1\x0b", Want::Whole(1), true),
    (b"12abc", Want::Whole(12), false),
    (b"0.1", Want::Real(0x3fb999999999999a), true),
    (b"9007199254740993", Want::Whole(9007199254740992), true),
    (b"9007199254740995", Want::Real(0x4340000000000002), true),
    (b"9007199254740992.5", Want::Whole(9007199254740992), true),
    (
        b"9007199254740993.0000000000000000000000000000001",
        Want::Real(0x4340000000000001),
        true,
    ),
    (b"1e308", Want::Real(0x7fe1ccf385ebc8a0), true),
    (
        b"1.7976931348623157e308",
        Want::Real(0x7fefffffffffffff),
        true,
    ),
    (
        b"1.7976931348623158e308",
        Want::Real(0x7fefffffffffffff),
        true,
    ),
    (b"1.7976931348623159e308", Want::OutOfRange, false),
    (b"1e309", Want::OutOfRange, false),
    (b"-1e309", Want::OutOfRange, false),
    (b"1e400x", Want::OutOfRange, false),
    (
        b"2.2250738585072011e-308",
        Want::Real(0x000fffffffffffff),
        true,
    ),
    (
        b"2.2250738585072014e-308",
        Want::Real(0x0010000000000000),
        true,
    ),
    (b"5e-324", Want::Real(0x0000000000000001), true),
    (b"2.4703282292062327e-324", Want::Whole(0), true),
    (
        b"2.4703282292062328e-324",
        Want::Real(0x0000000000000001),
        true,
    ),
    (b"2e-324", Want::Whole(0), true),
    (b"1e-400", Want::Whole(0), true),
    (b"-1e-400", Want::Whole(0), true),
    (b"-0", Want::Whole(0), true),
    (b"0e999999999999", Want::Whole(0), true),
    (b"000000000000000000001", Want::Whole(1), true),
    (
        b"0.000000000000000000000000000001",
        Want::Real(0x39b4484bfeebc2a0),
        true,
    ),
    (
        b"123456789012345678901234567890",
        Want::Real(0x45f8ee90ff6c373e),
        true,
    ),
    (b"1e00000000000000000000001", Want::Whole(10), true),
    (b"1_000", Want::Whole(1), false),
    (b"\xef\xbc\x91", Want::Whole(0), false),
];

const CONSTANTS: [(&[u8], usize); 7] = [
    (b"1.5.3", 3),
    (b"1e", 1),
    (b"0x10", 1),
    (b".5e+2x", 5),
    (b"12 ", 2),
    (b"x1", 0),
    (b"-1", 0),
];

fn is_wanted(got: Result<Number, NumberFault>, want: &Want) -> bool {
    match (got, want) {
        (Ok(Number::Whole(n)), Want::Whole(m)) => n == *m,
        (Ok(Number::Real(x)), Want::Real(bits)) => x.is_finite() && x.to_bits() == *bits,
        (Err(NumberFault::OutOfRange), Want::OutOfRange) => true,
        _ => false,
    }
}

#[test]
fn numbers_of_texts(rt: HostRuntime) {
    for (i, (text, want, looks)) in ROWS.iter().enumerate() {
        assert!(rt; is_wanted(numeral::number(text), want), "row {i}");
        let numeric = numeral::looks_numeric(text);
        assert_eq!(rt; numeric.is_some(), *looks, "looks, row {i}");
        if let Some(x) = numeric {
            assert!(rt; is_wanted(Ok(x), want), "its number, row {i}");
        }
    }
}

#[test]
fn constants_of_scripts(rt: HostRuntime) {
    for (i, (text, length)) in CONSTANTS.iter().enumerate() {
        let found = match numeral::constant(text) {
            Some((count, _)) => count,
            None => 0,
        };
        assert_eq!(rt; found, *length, "row {i}");
    }
}
