//! The arithmetics at the ends of the range, from tables.
use crate::Arithmetic;
use crate::operators::{Combining, Operator};
use crate::plain::Plain;
use crate::traced::Traced;
use crate::tracing::Tracing;

const LOWEST: i32 = -2147483648;

const HIGHEST: i32 = 2147483647;

// operator, first, second, what it gives
const BINARY: [(Operator, i32, i32, i32); 24] = [
    (Operator::Add, 2, 3, 5),
    (Operator::Add, HIGHEST, 1, HIGHEST),
    (Operator::Add, LOWEST, -1, LOWEST),
    (Operator::Add, LOWEST, HIGHEST, -1),
    (Operator::Subtract, 2, 3, -1),
    (Operator::Subtract, LOWEST, 1, LOWEST),
    (Operator::Subtract, HIGHEST, -1, HIGHEST),
    (Operator::Subtract, 0, LOWEST, HIGHEST),
    (Operator::Multiply, -4, 5, -20),
    (Operator::Multiply, 65536, 65536, HIGHEST),
    (Operator::Multiply, 65536, -65536, LOWEST),
    (Operator::Multiply, LOWEST, -1, HIGHEST),
    (Operator::Multiply, LOWEST, 1, LOWEST),
    (Operator::Lesser, -7, 7, -7),
    (Operator::Lesser, LOWEST, HIGHEST, LOWEST),
    (Operator::Greater, -7, 7, 7),
    (Operator::Greater, LOWEST, HIGHEST, HIGHEST),
    (Operator::LessThan, 2, 3, 1),
    (Operator::LessThan, 3, 3, 0),
    (Operator::LessThan, HIGHEST, LOWEST, 0),
    (Operator::LessThan, LOWEST, HIGHEST, 1),
    (Operator::Equal, 3, 3, 1),
    (Operator::Equal, LOWEST, HIGHEST, 0),
    (Operator::Equal, LOWEST, LOWEST, 1),
];

// operator, first copy, second copy, what it gives, and the mask that masks 1 and 2 give
const COMBINED: [(Combining, i32, i32, i32, u32); 9] = [
    (Combining::Sum, 30, 80, 110, 3),
    (Combining::Sum, HIGHEST, HIGHEST, HIGHEST, 3),
    (Combining::Sum, LOWEST, -1, LOWEST, 3),
    (Combining::Least, 30, 0, 0, 3),
    (Combining::Greatest, 30, 0, 30, 3),
    (Combining::Least, LOWEST, HIGHEST, LOWEST, 3),
    (Combining::Greatest, LOWEST, HIGHEST, HIGHEST, 3),
    (Combining::Left, 30, 0, 30, 1),
    (Combining::Left, LOWEST, HIGHEST, LOWEST, 1),
];

// low, high, number, the nearest within; low where low is over high
const LIMITED: [(i32, i32, i32, i32); 7] = [
    (0, 100, 50, 50),
    (0, 100, 101, 100),
    (0, 100, -1, 0),
    (5, 5, HIGHEST, 5),
    (LOWEST, HIGHEST, HIGHEST, HIGHEST),
    (LOWEST, LOWEST, HIGHEST, LOWEST),
    (100, 0, 50, 100),
];

#[test]
fn operators_on_two_values(rt: HostRuntime) {
    for (operator, first, second, gives) in BINARY {
        assert!(rt; Plain {}.binary(operator, first, second) == gives);
        let traced = Tracing {}.binary(
            operator,
            Traced {
                number: first,
                mask: 1,
            },
            Traced {
                number: second,
                mask: 4,
            },
        );
        assert_eq!(rt;
            traced,
            Traced {
                number: gives,
                mask: 5,
            }
        );
    }
}

#[test]
fn not_of_one_value(rt: HostRuntime) {
    assert!(rt; Plain {}.inverted(0) == 1);
    assert!(rt; Plain {}.inverted(-1) == 0);
    assert!(rt; Plain {}.inverted(LOWEST) == 0);
    assert!(rt; Plain {}.inverted(HIGHEST) == 0);
    assert_eq!(rt;
        Tracing {}.inverted(Traced { number: 0, mask: 6 }),
        Traced { number: 1, mask: 6 }
    );
}

#[test]
fn copies_combined(rt: HostRuntime) {
    for (operator, first, second, gives, mask) in COMBINED {
        assert!(rt; Plain {}.combined(operator, first, second) == gives);
        let traced = Tracing {}.combined(
            operator,
            Traced {
                number: first,
                mask: 1,
            },
            Traced {
                number: second,
                mask: 2,
            },
        );
        assert_eq!(rt;
            traced,
            Traced {
                number: gives,
                mask,
            }
        );
    }
}

#[test]
fn values_limited(rt: HostRuntime) {
    for (low, high, number, nearest) in LIMITED {
        assert!(rt; Plain {}.limited(low, high, number) == nearest);
        let traced = Tracing {}.limited(low, high, Traced { number, mask: 9 });
        assert_eq!(rt;
            traced,
            Traced {
                number: nearest,
                mask: 9,
            }
        );
    }
}

#[test]
fn readings_and_constants(rt: HostRuntime) {
    assert!(rt; Plain {}.reading(7, LOWEST) == LOWEST);
    assert_eq!(rt;
        Tracing {}.reading(0, 12),
        Traced {
            number: 12,
            mask: 1,
        }
    );
    assert_eq!(rt;
        Tracing {}.reading(31, -5),
        Traced {
            number: -5,
            mask: 2147483648,
        }
    );
    assert_eq!(rt;
        Tracing {}.reading(32, -5),
        Traced {
            number: -5,
            mask: 0,
        }
    );
    assert_eq!(rt;
        Tracing {}.constant(HIGHEST),
        Traced {
            number: HIGHEST,
            mask: 0,
        }
    );
}

#[test]
fn numbers_of_operators(rt: HostRuntime) {
    for byte in 0..=255u8 {
        match Operator::try_from(byte) {
            Ok(operator) => assert!(rt; u8::from(operator) == byte && byte >= 0x42 && byte <= 0x48),
            Err(unknown) => assert!(rt; unknown.0 == byte && (byte < 0x42 || byte > 0x48)),
        }
        match Combining::try_from(byte) {
            Ok(operator) => assert!(rt; u8::from(operator) == byte && byte < 4),
            Err(unknown) => assert!(rt; unknown.0 == byte && byte >= 4),
        }
    }
}
