// Operators of both profiles at their edges. What is wanted is a numeral, or the name of a fault.
use awk_numbers::number::{Number, NumberFault, Numbers};
use awk_numbers::{functions, numeral, operators};

const DOUBLE: [(&[u8], u8, &[u8], &[u8]); 70] = [
    (b"0.1", b'+', b"0.2", b"0.30000000000000004"),
    (b"1", b'+', b"2", b"3"),
    (b"9007199254740992", b'+', b"1", b"9007199254740992"),
    (b"9007199254740993", b'+', b"0", b"9007199254740992"),
    (b"9007199254740991", b'+', b"1", b"9007199254740992"),
    (b"-9007199254740992", b'-', b"1", b"-9007199254740992"),
    (b"9007199254740992", b'+', b"3", b"9007199254740996"),
    (b"1e308", b'+', b"1e308", b"F1"),
    (
        b"1.7976931348623157e308",
        b'+',
        b"1e291",
        b"1.7976931348623157e+308",
    ),
    (b"1.7976931348623157e308", b'+', b"1e292", b"F1"),
    (b"0.5", b'+', b"0.5", b"1"),
    (b"1e16", b'+', b"1", b"10000000000000000"),
    (b"1e16", b'-', b"1", b"10000000000000000"),
    (b"0.3", b'-', b"0.1", b"0.19999999999999998"),
    (b"1", b'-', b"1", b"0"),
    (b"-1", b'+', b"1", b"0"),
    (b"5e-324", b'-', b"5e-324", b"0"),
    (b"2.5", b'-', b"2.5", b"0"),
    (b"1.1", b'*', b"1.1", b"1.2100000000000002"),
    (b"3", b'*', b"4", b"12"),
    (b"94906267", b'*', b"94906267", b"9007199515875288"),
    (b"94906266", b'*', b"94906266", b"9007199326062756"),
    (b"-3", b'*', b"0", b"0"),
    (b"-0.5", b'*', b"0", b"0"),
    (b"1e200", b'*', b"1e200", b"F1"),
    (b"1e-200", b'*', b"1e-200", b"0"),
    (b"5e-324", b'*', b"0.5", b"0"),
    (b"5e-324", b'*', b"0.6", b"5e-324"),
    (b"4503599627370497", b'*', b"2", b"9007199254740994"),
    (b"4503599627370497", b'*', b"3", b"13510798882111492"),
    (b"0.1", b'*', b"3", b"0.30000000000000004"),
    (b"9007199254740993", b'*', b"1", b"9007199254740992"),
    (b"1", b'/', b"3", b"0.3333333333333333"),
    (b"6", b'/', b"3", b"2"),
    (b"7", b'/', b"2", b"3.5"),
    (b"-7", b'/', b"2", b"-3.5"),
    (b"1", b'/', b"0", b"F2"),
    (b"0", b'/', b"0", b"F2"),
    (b"0", b'/', b"5", b"0"),
    (b"0", b'/', b"-5", b"0"),
    (b"1", b'/', b"-0.0", b"F2"),
    (b"1e308", b'/', b"1e-10", b"F1"),
    (b"5e-324", b'/', b"2", b"0"),
    (b"5e-324", b'/', b"3", b"0"),
    (b"1", b'/', b"49", b"0.02040816326530612"),
    (b"9007199254740992", b'/', b"3", b"3002399751580330.5"),
    (b"7", b'%', b"3", b"1"),
    (b"-7", b'%', b"3", b"-1"),
    (b"7", b'%', b"-3", b"1"),
    (b"-7.5", b'%', b"2", b"-1.5"),
    (b"5.5", b'%', b"2", b"1.5"),
    (b"1e308", b'%', b"3", b"2"),
    (b"1.7976931348623157e308", b'%', b"7", b"5"),
    (b"1e308", b'%', b"5e-324", b"0"),
    (b"1e300", b'%', b"1e-300", b"4.891554850853602e-301"),
    (b"0.3", b'%', b"0.1", b"0.09999999999999998"),
    (b"5e-324", b'%', b"3", b"5e-324"),
    (b"3", b'%', b"5e-324", b"0"),
    (
        b"2.2250738585072014e-308",
        b'%',
        b"2e-308",
        b"2.250738585072016e-309",
    ),
    (b"-1e17", b'%', b"10", b"0"),
    (b"1", b'%', b"1e308", b"1"),
    (b"-0.1", b'%', b"1e300", b"-0.1"),
    (b"9007199254740993", b'%', b"7", b"4"),
    (b"1e22", b'%', b"97", b"25"),
    (b"123456789.125", b'%', b"0.0625", b"0"),
    (b"-6", b'%', b"3", b"0"),
    (b"0.5", b'%', b"0.5", b"0"),
    (b"1", b'%', b"0", b"F2"),
    (b"0", b'%', b"5", b"0"),
    (b"1.5", b'%', b"-0.0", b"F2"),
];

const WHOLE: [(i64, u8, i64, Result<i64, NumberFault>); 10] = [
    (9223372036854775807, b'+', 1, Err(NumberFault::OutOfRange)),
    (9223372036854775806, b'+', 1, Ok(9223372036854775807)),
    (-9223372036854775808, b'-', 1, Err(NumberFault::OutOfRange)),
    (9007199254740992, b'+', 1, Ok(9007199254740993)),
    (4294967296, b'*', 2147483648, Err(NumberFault::OutOfRange)),
    (4294967296, b'*', -2147483648, Ok(-9223372036854775808)),
    (7, b'/', 2, Ok(3)),
    (-7, b'/', 2, Ok(-3)),
    (1, b'/', 0, Err(NumberFault::ZeroDivisor)),
    (-9223372036854775808, b'/', -1, Err(NumberFault::OutOfRange)),
];

const REMAINDERS: [(i64, i64, Result<i64, NumberFault>); 6] = [
    (7, 3, Ok(1)),
    (-7, 3, Ok(-1)),
    (7, -3, Ok(1)),
    (-6, 3, Ok(0)),
    (-9223372036854775808, -1, Ok(0)),
    (1, 0, Err(NumberFault::ZeroDivisor)),
];

fn result_of(numbers: Numbers, x: Number, sign: u8, y: Number) -> Result<Number, NumberFault> {
    match sign {
        b'+' => operators::add(numbers, x, y),
        b'-' => operators::sub(numbers, x, y),
        b'*' => operators::mul(numbers, x, y),
        b'%' => operators::rem(numbers, x, y),
        _ => operators::div(numbers, x, y),
    }
}

pub(crate) fn is_same(x: Number, y: Number) -> bool {
    match (x, y) {
        (Number::Whole(m), Number::Whole(n)) => m == n,
        (Number::Real(a), Number::Real(b)) => a == b,
        _ => false,
    }
}

pub(crate) fn is_wanted(got: Result<Number, NumberFault>, want: &[u8]) -> bool {
    match got {
        Ok(x) => match numeral::looks_numeric(want) {
            Some(y) => is_same(x, y),
            None => false,
        },
        Err(NumberFault::OutOfRange) => want == b"F1".as_slice(),
        Err(NumberFault::ZeroDivisor) => want == b"F2".as_slice(),
    }
}

pub(crate) fn operand(text: &[u8]) -> Number {
    numeral::number(text).unwrap_or(Number::Whole(0))
}

#[test]
fn doubles(rt: HostRuntime) {
    for (i, (left, sign, right, want)) in DOUBLE.iter().enumerate() {
        let got = result_of(Numbers::Double, operand(left), *sign, operand(right));
        assert!(rt; is_wanted(got, want), "row {i}");
    }
}

pub(crate) fn is_wanted_whole(
    got: Result<Number, NumberFault>,
    want: Result<i64, NumberFault>,
) -> bool {
    match (got, want) {
        (Ok(Number::Whole(n)), Ok(m)) => n == m,
        (Err(NumberFault::OutOfRange), Err(NumberFault::OutOfRange)) => true,
        (Err(NumberFault::ZeroDivisor), Err(NumberFault::ZeroDivisor)) => true,
        _ => false,
    }
}

#[test]
fn whole_numbers(rt: HostRuntime) {
    for (i, (left, sign, right, want)) in WHOLE.iter().enumerate() {
        let got = result_of(
            Numbers::Whole,
            Number::Whole(*left),
            *sign,
            Number::Whole(*right),
        );
        assert!(rt; is_wanted_whole(got, *want), "row {i}");
    }
    for (i, (left, right, want)) in REMAINDERS.iter().enumerate() {
        let got = match operators::whole_rem(*left, *right) {
            Ok(n) => Ok(Number::Whole(n)),
            Err(fault) => Err(fault),
        };
        assert!(rt; is_wanted_whole(got, *want), "remainder {i}");
    }
}

const ROOTS: [(&[u8], &[u8]); 6] = [
    (b"2", b"1.4142135623730951"),
    (b"49", b"7"),
    (b"0", b"0"),
    (b"0.25", b"0.5"),
    (b"5e-324", b"2.2227587494850775e-162"),
    (b"-1", b"F1"),
];

#[test]
fn square_roots(rt: HostRuntime) {
    for (i, (text, want)) in ROOTS.iter().enumerate() {
        assert!(rt;
            is_wanted(functions::square_root(operand(text)), want),
            "row {i}"
        );
    }
}
