// Powers of both profiles. What is wanted is a numeral, or the name of a fault.
use crate::operators::{is_same, is_wanted, is_wanted_whole, operand};
use awk_numbers::number::{Number, NumberFault, Numbers};
use awk_numbers::{operators, powers};

// The C library gives the same, but for 2^-1074 and 10^-309, which are 1 over what is beyond the largest double, and
// for 3^34 and 10^23, which lie halfway between two doubles.
const FIRST: &[(&[u8], &[u8], &[u8])] = &[
    (b"2", b"10", b"1024"),
    (b"10", b"-3", b"0.001"),
    (b"10", b"-2", b"0.01"),
    (b"10", b"-1", b"0.1"),
    (b"-8", b"0.3333333333333333", b"F1"),
    (b"0", b"-1", b"F2"),
    (b"0", b"0", b"1"),
    (b"7", b"0", b"1"),
    (b"0.5", b"0", b"1"),
    (b"0", b"0.5", b"0"),
    (b"0", b"3", b"0"),
    (b"0", b"-0.5", b"F2"),
    (b"2", b"1024", b"F1"),
    (b"2", b"1023", b"8.98846567431158e+307"),
    (b"2", b"-1074", b"0"),
    (b"2", b"-1022", b"2.2250738585072014e-308"),
    (b"2", b"-1023", b"1.1125369292536007e-308"),
    (b"-2", b"3", b"-8"),
    (b"-2", b"-3", b"-0.125"),
    (b"-2", b"63", b"-9.223372036854776e+18"),
    (b"-2", b"64", b"1.8446744073709552e+19"),
    (b"-1", b"1e300", b"1"),
    (b"-1", b"-1e300", b"1"),
    (b"-1", b"9007199254740991", b"-1"),
    (b"-1", b"9007199254740993", b"1"),
    (b"4", b"0.5", b"2"),
    (b"2", b"0.5", b"1.4142135623730951"),
    (b"1.1", b"10", b"2.5937424601000023"),
    (b"9", b"1.5", b"27"),
    (b"8", b"0.3333333333333333", b"2"),
    (b"27", b"0.3333333333333333", b"3"),
];

const SECOND: &[(&[u8], &[u8], &[u8])] = &[
    (b"3", b"34", b"1.6677181699666568e+16"),
    (b"3", b"33", b"5559060566555523"),
    (b"10", b"15", b"1000000000000000"),
    (b"10", b"16", b"1e+16"),
    (b"10", b"22", b"1e+22"),
    (b"10", b"23", b"1e+23"),
    (b"10", b"300", b"1e+300"),
    (b"10", b"308", b"1e+308"),
    (b"10", b"309", b"F1"),
    (b"10", b"-300", b"1e-300"),
    (b"10", b"-308", b"1e-308"),
    (b"10", b"-309", b"0"),
    (b"1e-300", b"2", b"0"),
    (b"0.5", b"1074", b"5e-324"),
    (b"0.5", b"1075", b"0"),
    (b"0.5", b"1076", b"0"),
    (b"0.5", b"-1074", b"F1"),
    (b"0.5", b"-1023", b"8.98846567431158e+307"),
    (b"1", b"1e308", b"1"),
    (b"1", b"-1e308", b"1"),
    (b"1.0000000000000002", b"1e16", b"9.21143870499353"),
    (b"0.9999999999999999", b"1e17", b"1.5078657172714957e-05"),
    (b"1.0000000000000002", b"-1e18", b"3.691929035829014e-97"),
    (b"2", b"0.1", b"1.0717734625362931"),
    (b"1e308", b"0.1", b"6.309573444801958e+30"),
    (b"5e-324", b"0.5", b"2.2227587494850775e-162"),
    (b"5e-324", b"0.1", b"4.6706622762338734e-33"),
    (b"5e-324", b"-0.5", b"4.4989137945431964e+161"),
    (b"5e-324", b"2", b"0"),
    (b"5e-324", b"-1", b"F1"),
    (
        b"2.2250738585072014e-308",
        b"0.25",
        b"1.221338669755462e-77",
    ),
];

const THIRD: &[(&[u8], &[u8], &[u8])] = &[
    (b"1.7976931348623157e308", b"1.0000000000000002", b"F1"),
    (
        b"1.7976931348623157e308",
        b"0.9999999999999999",
        b"1.797693134862174e+308",
    ),
    (b"1.7976931348623157e308", b"-1", b"5.562684646268003e-309"),
    (b"94906266", b"2", b"9007199326062756.0"),
    (b"94906267", b"2", b"9007199515875288.0"),
    (b"2097152", b"2.5", b"6369051672525773"),
    (b"-0.5", b"2", b"0.25"),
    (b"-0.5", b"3", b"-0.125"),
    (b"-1.5", b"-3", b"-0.2962962962962963"),
    (b"2.5", b"2", b"6.25"),
    (b"0.1", b"3", b"0.0010000000000000002"),
    (b"0.1", b"20", b"1.0000000000000011e-20"),
    (b"-0.1", b"-0.1", b"F1"),
    (b"7", b"0.5", b"2.6457513110645907"),
    (b"3", b"0.5", b"1.7320508075688772"),
    (b"100", b"0.5", b"10"),
    (b"1000", b"0.6666666666666666", b"99.99999999999997"),
    (b"1e16", b"0.5", b"100000000"),
    (b"1e16", b"0.25", b"10000"),
    (b"81", b"0.75", b"27"),
    (b"16", b"-0.5", b"0.25"),
    (b"0.25", b"-0.5", b"2"),
    (b"0.25", b"0.5", b"0.5"),
    (b"1.5", b"700.25", b"2.0319085310875348e+123"),
    (b"1e5", b"1e5", b"F1"),
    (b"1e-5", b"1e5", b"0"),
    (b"1e-5", b"-1e5", b"F1"),
    (b"123.456", b"-7.89", b"3.1475216724926214e-17"),
    (b"0.7", b"0.7", b"0.779055912670449"),
    (b"65536", b"0.0625", b"2"),
    (b"1048576", b"0.05", b"2"),
];

const WHOLE: &[(i64, i64, Result<i64, NumberFault>)] = &[
    (2, 10, Ok(1024)),
    (0, 0, Ok(1)),
    (-5, 0, Ok(1)),
    (0, 7, Ok(0)),
    (0, -1, Err(NumberFault::ZeroDivisor)),
    (1, -9, Ok(1)),
    (-1, -9, Ok(-1)),
    (-1, 9223372036854775807, Ok(-1)),
    (-1, -9223372036854775808, Ok(1)),
    (2, -1, Ok(0)),
    (-2, -3, Ok(0)),
    (2, 62, Ok(4611686018427387904)),
    (2, 63, Err(NumberFault::OutOfRange)),
    (-2, 63, Ok(-9223372036854775808)),
    (-2, 64, Err(NumberFault::OutOfRange)),
    (3, 39, Ok(4052555153018976267)),
    (3, 40, Err(NumberFault::OutOfRange)),
    (10, 18, Ok(1000000000000000000)),
    (10, 19, Err(NumberFault::OutOfRange)),
    (7, 9223372036854775807, Err(NumberFault::OutOfRange)),
    (3037000499, 2, Ok(9223372030926249001)),
    (3037000500, 2, Err(NumberFault::OutOfRange)),
];

#[test]
fn doubles(rt: HostRuntime) {
    for (i, (left, right, want)) in FIRST.iter().enumerate() {
        let got = operators::pow(Numbers::Double, operand(left), operand(right));
        assert!(rt; is_wanted(got, want), "row {i}");
    }
}

#[test]
fn doubles_of_any_size(rt: HostRuntime) {
    for (i, (left, right, want)) in SECOND.iter().enumerate() {
        let got = operators::pow(Numbers::Double, operand(left), operand(right));
        assert!(rt; is_wanted(got, want), "row {i}");
    }
}

#[test]
fn doubles_with_fractions(rt: HostRuntime) {
    for (i, (left, right, want)) in THIRD.iter().enumerate() {
        let got = operators::pow(Numbers::Double, operand(left), operand(right));
        assert!(rt; is_wanted(got, want), "row {i}");
    }
}

#[test]
fn whole_numbers(rt: HostRuntime) {
    for (i, (left, right, want)) in WHOLE.iter().enumerate() {
        let got = operators::pow(Numbers::Whole, Number::Whole(*left), Number::Whole(*right));
        assert!(rt; is_wanted_whole(got, *want), "row {i}");
    }
}

fn product(x: Number, y: Number) -> Number {
    operators::mul(Numbers::Double, x, y).unwrap_or(Number::Whole(-1))
}

fn is_right(got: Result<Number, NumberFault>, want: Number) -> bool {
    match got {
        Ok(x) => is_same(x, want),
        Err(_) => false,
    }
}

#[test]
fn roots_of_squares(rt: HostRuntime) {
    for n in 1..=1000_i64 {
        let x = Number::Whole(n);
        let root = powers::pow(product(x, x), Number::Real(0.5));
        assert!(rt; is_right(root, x), "the root of {n} squared");
    }
}

#[test]
fn cubes_of_roots(rt: HostRuntime) {
    for n in 1..=200_i64 {
        let x = Number::Whole(n);
        let square = product(x, x);
        let cube = powers::pow(square, Number::Real(1.5));
        assert!(rt;
            is_right(cube, product(square, x)),
            "{n} squared to the power 1.5"
        );
    }
}
