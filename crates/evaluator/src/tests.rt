//! Expressions good and bad, from tables; memories of other lengths.
use crate::evaluation::evaluate;
use crate::limits::Limits;
use crate::rate::Formula;
use crate::refusal::Refusal;
use crate::scope::{FirstPlaces, Scope};
use arithmetic::plain::Plain;
use arithmetic::traced::Traced;
use std::test::Fail;

const LOWEST: i32 = -2147483648;

const HIGHEST: i32 = 2147483647;

const READINGS: [i32; 3] = [1200, 650, -9];

// expression, the number and the mask over the readings
const GOOD: [(&[u8], i32, u32); 12] = [
    (&[0x40, 7, 0, 0, 0], 7, 0),
    (&[0x40, 0x78, 0x56, 0x34, 0x12], 305419896, 0),
    (&[0x40, 0xff, 0xff, 0xff, 0xff], -1, 0),
    (&[0x40, 0, 0, 0, 0x80], -2147483648, 0),
    (&[0x41, 0], 1200, 1),
    (&[0x41, 2], -9, 4),
    (&[0x41, 0, 0x41, 1, 0x43], 550, 3),
    (&[0x41, 1, 0x41, 0, 0x43], -550, 3),
    (&[0x41, 0, 0x41, 1, 0x45, 0x41, 2, 0x46], 650, 7),
    (&[0x41, 2, 0x40, 0, 0, 0, 0, 0x47], 1, 4),
    (&[0x41, 2, 0x41, 2, 0x48, 0x49], 0, 4),
    (
        &[0x41, 0, 0x40, 0xff, 0xff, 0xff, 0x7f, 0x44],
        2147483647,
        1,
    ),
];

// expression, why it has no value
const BAD: [(&[u8], Refusal); 18] = [
    (&[], Refusal::BadExpression(0)),
    (&[0x4a], Refusal::BadExpression(0)),
    (&[0x3f], Refusal::BadExpression(0)),
    (&[0x00], Refusal::BadExpression(0)),
    (&[0x40, 1, 2, 3], Refusal::BadExpression(0)),
    (&[0x41], Refusal::BadExpression(0)),
    (&[0x41, 3], Refusal::WrongVariable(0)),
    (&[0x41, 255], Refusal::WrongVariable(0)),
    (&[0x42], Refusal::BadExpression(0)),
    (&[0x49], Refusal::BadExpression(0)),
    (&[0x41, 0, 0x42], Refusal::BadExpression(2)),
    (&[0x41, 0, 0x41, 9, 0x42], Refusal::WrongVariable(2)),
    (&[0x41, 9, 0x4a], Refusal::WrongVariable(0)),
    (&[0x41, 0, 0x4a, 0x41, 9], Refusal::BadExpression(2)),
    (&[0x41, 0, 0x41, 1], Refusal::BadExpression(0)),
    (&[0x41, 0, 0x40, 0, 0, 0], Refusal::BadExpression(2)),
    (&[0x41, 0, 0x49, 0x41], Refusal::BadExpression(3)),
    (
        &[0x40, 0, 0, 0, 0, 0x40, 0, 0, 0, 0, 0x40],
        Refusal::BadExpression(10),
    ),
];

// variable 0 sixteen times, and the sum of all
const SIXTEEN_VALUES: [u8; 47] = [
    0x41, 0x00, 0x41, 0x00, 0x41, 0x00, 0x41, 0x00, 0x41, 0x00, 0x41, 0x00, 0x41, 0x00, 0x41, 0x00,
    0x41, 0x00, 0x41, 0x00, 0x41, 0x00, 0x41, 0x00, 0x41, 0x00, 0x41, 0x00, 0x41, 0x00, 0x41, 0x00,
    0x42, 0x42, 0x42, 0x42, 0x42, 0x42, 0x42, 0x42, 0x42, 0x42, 0x42, 0x42, 0x42, 0x42, 0x42,
];

// one more than can be stacked; and the same where the last variable does not exist
const SEVENTEEN_VALUES: [u8; 50] = [
    0x41, 0x00, 0x41, 0x00, 0x41, 0x00, 0x41, 0x00, 0x41, 0x00, 0x41, 0x00, 0x41, 0x00, 0x41, 0x00,
    0x41, 0x00, 0x41, 0x00, 0x41, 0x00, 0x41, 0x00, 0x41, 0x00, 0x41, 0x00, 0x41, 0x00, 0x41, 0x00,
    0x41, 0x00, 0x42, 0x42, 0x42, 0x42, 0x42, 0x42, 0x42, 0x42, 0x42, 0x42, 0x42, 0x42, 0x42, 0x42,
    0x42, 0x42,
];

const SEVENTEENTH_UNKNOWN: [u8; 50] = [
    0x41, 0x00, 0x41, 0x00, 0x41, 0x00, 0x41, 0x00, 0x41, 0x00, 0x41, 0x00, 0x41, 0x00, 0x41, 0x00,
    0x41, 0x00, 0x41, 0x00, 0x41, 0x00, 0x41, 0x00, 0x41, 0x00, 0x41, 0x00, 0x41, 0x00, 0x41, 0x00,
    0x41, 0x4d, 0x42, 0x42, 0x42, 0x42, 0x42, 0x42, 0x42, 0x42, 0x42, 0x42, 0x42, 0x42, 0x42, 0x42,
    0x42, 0x42,
];

fn formula(limits: Limits, code: &[u8]) -> Formula<'_> {
    Formula { limits, code }
}

#[test]
fn good_expressions(rt: HostRuntime) -> Result<(), Fail> {
    let Some(limits) = Limits::new(LOWEST, HIGHEST) else {
        return Err(Fail::new("no limits"));
    };
    for (code, number, mask) in GOOD {
        assert!(rt; Formula { limits, code }.plain_rate(&READINGS)? == number);
        assert_eq!(rt;
            Formula { limits, code }.traced_rate(&READINGS)?,
            Traced { number, mask }
        );
    }
    Ok(())
}

#[test]
fn bad_expressions(rt: HostRuntime) -> Result<(), Fail> {
    let Some(limits) = Limits::new(LOWEST, HIGHEST) else {
        return Err(Fail::new("no limits"));
    };
    for (code, refusal) in BAD {
        assert_eq!(rt;
            Formula { limits, code }.plain_rate(&READINGS),
            Err(refusal)
        );
        assert_eq!(rt;
            Formula { limits, code }.traced_rate(&READINGS),
            Err(refusal)
        );
    }
    Ok(())
}

#[test]
fn seventeen_values(rt: HostRuntime) -> Result<(), Fail> {
    let Some(limits) = Limits::new(LOWEST, HIGHEST) else {
        return Err(Fail::new("no limits"));
    };
    assert_eq!(rt;
        formula(limits, &SIXTEEN_VALUES).plain_rate(&READINGS),
        Ok(19200)
    );
    assert_eq!(rt;
        formula(limits, &SEVENTEEN_VALUES).plain_rate(&READINGS),
        Err(Refusal::BadExpression(32))
    );
    assert_eq!(rt;
        formula(limits, &SEVENTEENTH_UNKNOWN).plain_rate(&READINGS),
        Err(Refusal::BadExpression(32))
    );
    Ok(())
}

#[test]
fn sixty_five_bytes(rt: HostRuntime) -> Result<(), Fail> {
    let Some(limits) = Limits::new(LOWEST, HIGHEST) else {
        return Err(Fail::new("no limits"));
    };
    let mut code = [0x49u8; 65];
    code[0] = 0x41;
    code[1] = 0;
    assert_eq!(rt; formula(limits, &code[0..64]).plain_rate(&READINGS), Ok(1));
    assert_eq!(rt;
        formula(limits, &code).plain_rate(&READINGS),
        Err(Refusal::BadExpression(0))
    );
    Ok(())
}

#[test]
fn rates_are_limited(rt: HostRuntime) -> Result<(), Fail> {
    let Some(limits) = Limits::new(0, 1000) else {
        return Err(Fail::new("no limits"));
    };
    assert_eq!(rt; formula(limits, &[0x41, 0]).plain_rate(&READINGS), Ok(1000));
    assert_eq!(rt; formula(limits, &[0x41, 2]).plain_rate(&READINGS), Ok(0));
    assert_eq!(rt;
        formula(limits, &[0x41, 0]).traced_rate(&READINGS),
        Ok(Traced {
            number: 1000,
            mask: 1,
        })
    );
    assert!(rt; Limits::new(1, 0).is_none());
    assert!(rt; Limits::new(1, 1).is_some());
    Ok(())
}

#[test]
fn too_many_readings(rt: HostRuntime) -> Result<(), Fail> {
    let Some(limits) = Limits::new(LOWEST, HIGHEST) else {
        return Err(Fail::new("no limits"));
    };
    let readings = [5; 33];
    assert_eq!(rt;
        formula(limits, &[0x41, 31]).plain_rate(&readings[0..32]),
        Ok(5)
    );
    assert_eq!(rt;
        formula(limits, &[0x41, 31]).plain_rate(&readings),
        Err(Refusal::Readings)
    );
    Ok(())
}

#[test]
fn memories_of_other_lengths(rt: HostRuntime) {
    let scope = FirstPlaces { count: 255 };
    let code = [0x41, 200];
    let mut right = [3; 1040];
    let mut short = [3; 1039];
    let mut long = [3; 1041];
    assert_eq!(rt; evaluate(&Plain {}, &scope, &code, &mut right), Ok(3));
    assert_eq!(rt;
        evaluate(&Plain {}, &scope, &code, &mut short),
        Err(Refusal::Memory)
    );
    assert_eq!(rt;
        evaluate(&Plain {}, &scope, &code, &mut long),
        Err(Refusal::Memory)
    );
    assert_eq!(rt;
        evaluate(&Plain {}, &scope, &code, &mut []),
        Err(Refusal::Memory)
    );
}

#[test]
fn numbers_of_refusals(rt: HostRuntime) {
    assert!(rt;
        Refusal::BadExpression(12).number() == 6 && Refusal::BadExpression(12).place() == 12
    );
    assert!(rt; Refusal::WrongVariable(3).number() == 7 && Refusal::WrongVariable(3).place() == 3);
    assert!(rt; Refusal::Memory.number() == 11 && Refusal::Memory.place() == 0);
    assert!(rt; Refusal::Readings.number() == 15 && Refusal::Readings.place() == 0);
}
