use sb_fixed::{
    micrometres, nanometres, print_scaled, ratio, round_micro, round_nano, round_whole,
};
use sb_fraction::{Fraction, Unit};
use std::alloc::{AllocError, Global};
use std::test::Fail;

// A text, and the length in nanometres that it writes in metres.
const IN_METRES: [(&[u8], Option<i128>); 26] = [
    (b"3.4999999999999996", Some(3_500_000_000)),
    (b"1.E+99", None),
    (b"-1.E+99", None),
    (b"1.E-99", Some(0)),
    (b"1.E+999999999999", None),
    (b"1.E-999999999999", Some(0)),
    (b"1.E+99999999999999999999999999999999999999999999", None),
    (b"0.E+99999", Some(0)),
    (b"-0.", Some(0)),
    (b"12", Some(12_000_000_000)),
    (b"+12.", Some(12_000_000_000)),
    (b"-12.50E+3", Some(-12_500_000_000_000)),
    (b"12.5E-003", Some(12_500_000)),
    (b"12.5E2", Some(1_250_000_000_000)),
    (b"6.12E-17", Some(0)),
    (b"0.0000000005", Some(1)),
    (b"-0.0000000005", Some(-1)),
    (b"0.00000000049999999999", Some(0)),
    (b"-0.00000000049999999999", Some(0)),
    (b"5.E-10", Some(1)),
    (b"5.E-11", Some(0)),
    (b"1000000.", Some(1_000_000_000_000_000)),
    (b"1000000.0000000004", Some(1_000_000_000_000_000)),
    (b"1000000.0000000005", None),
    (b"-1000000.0000000004", Some(-1_000_000_000_000_000)),
    (b"-1000000.0000000005", None),
];

// The same in millimetres.
const IN_MILLIMETRES: [(&[u8], Option<i128>); 9] = [
    (b"0.4", Some(400_000)),
    (b"0.0000005", Some(1)),
    (b"-0.0000005", Some(-1)),
    (b"-0.0000004", Some(0)),
    (b"1000000000.", Some(1_000_000_000_000_000)),
    (b"1000000000.0000004", Some(1_000_000_000_000_000)),
    (b"1000000000.0000005", None),
    (b"-1000000000.0000004", Some(-1_000_000_000_000_000)),
    (b"-1000000000.0000005", None),
];

#[test]
fn lengths_in_nanometres(rt: HostRuntime) -> Result<(), Fail> {
    for (text, want) in IN_METRES {
        let found = nanometres(text, Unit::Metre).ok();
        assert_eq!(rt; found, want, "{text:?} in metres");
    }
    for (text, want) in IN_MILLIMETRES {
        let found = nanometres(text, Unit::Millimetre).ok();
        assert_eq!(rt; found, want, "{text:?} in millimetres");
    }
    Ok(())
}

// A text, and the length in micrometres that it writes in a unit.
const IN_MICROMETRES: [(&[u8], Unit, Option<i64>); 16] = [
    (b"0.0000005", Unit::Metre, Some(1)),
    (b"-0.0000005", Unit::Metre, Some(-1)),
    (b"0.0000004999", Unit::Metre, Some(0)),
    (b"1000000.", Unit::Metre, Some(1_000_000_000_000)),
    (b"1000000.0000004", Unit::Metre, Some(1_000_000_000_000)),
    (b"1000000.0000005", Unit::Metre, None),
    (b"-1000000.0000004", Unit::Metre, Some(-1_000_000_000_000)),
    (b"-1000000.0000005", Unit::Metre, None),
    (b"12.5", Unit::Millimetre, Some(12_500)),
    (b"0.0005", Unit::Millimetre, Some(1)),
    (b"-0.0005", Unit::Millimetre, Some(-1)),
    (b"-0.0004", Unit::Millimetre, Some(0)),
    (
        b"1000000000.0004",
        Unit::Millimetre,
        Some(1_000_000_000_000),
    ),
    (b"1000000000.0005", Unit::Millimetre, None),
    (
        b"-1000000000.0004",
        Unit::Millimetre,
        Some(-1_000_000_000_000),
    ),
    (b"-1000000000.0005", Unit::Millimetre, None),
];

#[test]
fn lengths_in_micrometres(rt: HostRuntime) -> Result<(), Fail> {
    for (text, unit, want) in IN_MICROMETRES {
        let found = micrometres(text, unit).ok();
        assert_eq!(rt; found, want, "{text:?}");
    }
    Ok(())
}

// A text, and the number that it writes, in units of 10^-12.
const RATIOS: [(&[u8], Option<i128>); 13] = [
    (b"1.", Some(1_000_000_000_000)),
    (b"-1", Some(-1_000_000_000_000)),
    (b"6.12E-17", Some(0)),
    (b"1.E-12", Some(1)),
    (b"0.0000000000005", Some(1)),
    (b"-0.0000000000005", Some(-1)),
    (b"-0.0000000000004999", Some(0)),
    (b"9.9999999999995E-01", Some(1_000_000_000_000)),
    (b"1.E+12", Some(1_000_000_000_000_000_000_000_000)),
    (
        b"1000000000000.0000000000004",
        Some(1_000_000_000_000_000_000_000_000),
    ),
    (b"1000000000000.0000000000005", None),
    (
        b"-1000000000000.0000000000004",
        Some(-1_000_000_000_000_000_000_000_000),
    ),
    (b"-1000000000000.0000000000005", None),
];

#[test]
fn ratios_in_units(rt: HostRuntime) -> Result<(), Fail> {
    for (text, want) in RATIOS {
        let found = ratio(text).ok();
        assert_eq!(rt; found, want, "{text:?}");
    }
    Ok(())
}

// A front, ten thousand zeros, and a back.
fn with_zeros(alloc: Global, front: &[u8], back: &[u8]) -> Result<Vec<u8>, AllocError> {
    let mut text = Vec::from_slice(alloc, front)?;
    for _ in 0..10_000 {
        text.push(b'0')?;
    }
    text.extend_from_slice(back)?;
    Ok(text)
}

#[test]
fn texts_of_ten_thousand_digits(rt: HostRuntime) -> Result<(), Fail> {
    let rows: [(&[u8], &[u8], Option<i128>); 6] = [
        (b"", b"1.", Some(1_000_000_000)),
        (b"1", b".E-10000", Some(1_000_000_000)),
        (b"0.", b"1E+10001", Some(1_000_000_000)),
        (b"0.", b"1", Some(0)),
        (b"1", b".", None),
        (b"1.", b"5E+09999", None),
    ];
    for (front, back, want) in rows {
        let text = with_zeros(rt.alloc(), front, back)?;
        let found = nanometres(&text, Unit::Metre).ok();
        assert_eq!(rt; found, want, "{front:?}, zeros, {back:?}");
    }
    Ok(())
}

#[test]
fn fractions_are_rounded(rt: HostRuntime) {
    let half = Fraction::new(1, 2000);
    assert_eq!(rt; round_micro(&half), 1, "half a micrometre");
    assert_eq!(rt; round_micro(&Fraction::new(-1, 2000)), -1, "below zero");
    assert_eq!(rt;
        round_micro(&Fraction::new(1, 3)),
        333,
        "a third of a millimetre"
    );
    assert_eq!(rt;
        round_nano(&Fraction::new(1, 3), 0),
        333_333,
        "in nanometres"
    );
    assert_eq!(rt;
        round_nano(&half, 500),
        0,
        "half a micrometre, less as much"
    );
    assert_eq!(rt;
        round_nano(&Fraction::new(-1, 2_000_000), 0),
        -1,
        "minus half a nanometre"
    );
    let largest = Fraction::new(100_000_000_000_000_000_000_000_000_000_000, 1);
    assert_eq!(rt;
        round_nano(&largest, -1_000_000_000_000),
        100_000_000_000_000_000_000_000_001_000_000_000_000,
        "the largest fraction and shift"
    );
    assert_eq!(rt; round_whole(&Fraction::new(5, 2)), 3, "a half goes up");
    assert_eq!(rt;
        round_whole(&Fraction::new(-5, 2)),
        -3,
        "and away from zero"
    );
    assert_eq!(rt;
        round_whole(&Fraction::new(12, 5)),
        2,
        "less than a half does not"
    );
}

// A number, its places, and its text.
const PRINTED: [(i128, u32, &[u8]); 9] = [
    (1, 6, b"0.000001"),
    (-1, 6, b"-0.000001"),
    (0, 6, b"0.000000"),
    (12_345, 3, b"12.345"),
    (-12_500_000, 6, b"-12.500000"),
    (7, 1, b"0.7"),
    (-10, 1, b"-1.0"),
    (i128::MAX, 1, b"17014118346046923173168730371588410572.7"),
    (i128::MIN, 9, b"-170141183460469231731687303715.884105728"),
];

#[test]
fn numbers_with_places(rt: HostRuntime) -> Result<(), Fail> {
    for (value, places, want) in PRINTED {
        let mut text = Vec::from_slice(rt.alloc(), b"x,")?;
        if 1 <= places && places <= 9 {
            print_scaled(&mut text, value, places)?;
        }
        assert_eq!(rt; &text[..2], b"x,".as_slice(), "what stood there stays");
        assert_eq!(rt; &text[2..], want, "{value} with {places} places");
    }
    Ok(())
}
