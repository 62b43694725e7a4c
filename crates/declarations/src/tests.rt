//! Declarations good and bad, from tables.
use crate::list::Declarations;
use crate::program::{owners_live, read_declarations};
use rules::faults::{LoadFault, ReadingFault};
use rules::program::{Kind, Policy};
use rules::scopes::{may_read, may_set};
use std::process::Abort;
use std::test::Fail;

// a program of one declaration, whether it is accepted
const SINGLE: [(&[u8], bool); 20] = [
    (
        b"\x01\x00\x00\x00\x00\x00\x00\x00\x00\x00\x00\x00\x00\x00\x00\x00\x00",
        true,
    ),
    (
        b"\x01\x00\x00\x00\x00\xfb\xff\xff\xff\xfb\xff\xff\xff\x05\x00\x00\x00",
        true,
    ),
    (
        b"\x01\x00\x00\x00\x00\x05\x00\x00\x00\xfb\xff\xff\xff\x05\x00\x00\x00",
        true,
    ),
    (
        b"\x01\x01\x00\x00\x1e\x00\x00\x00\x00\x00\x00\x00\x80\xff\xff\xff\x7f",
        true,
    ),
    (
        b"\x01\x02\x00\x00\x00\x07\x00\x00\x00\x00\x00\x00\x00\x64\x00\x00\x00",
        true,
    ),
    (
        b"\x01\x02\x01\x01\x00\x07\x00\x00\x00\x00\x00\x00\x00\x64\x00\x00\x00",
        true,
    ),
    (
        b"\x01\x02\x02\x02\x00\x07\x00\x00\x00\x00\x00\x00\x00\x64\x00\x00\x00",
        true,
    ),
    (
        b"\x01\x03\x02\x03\x00\x07\x00\x00\x00\x00\x00\x00\x00\x64\x00\x00\x00",
        true,
    ),
    (
        b"\x01\x00\x00\x00\x00\xfa\xff\xff\xff\xfb\xff\xff\xff\x05\x00\x00\x00",
        false,
    ),
    (
        b"\x01\x00\x00\x00\x00\x06\x00\x00\x00\xfb\xff\xff\xff\x05\x00\x00\x00",
        false,
    ),
    (
        b"\x01\x00\x00\x00\x00\x00\x00\x00\x00\x01\x00\x00\x00\xff\xff\xff\xff",
        false,
    ),
    (
        b"\x01\x04\x00\x00\x00\x00\x00\x00\x00\x00\x00\x00\x00\x00\x00\x00\x00",
        false,
    ),
    (
        b"\x01\x02\x03\x00\x00\x00\x00\x00\x00\x00\x00\x00\x00\x00\x00\x00\x00",
        false,
    ),
    (
        b"\x01\x02\x00\x04\x00\x00\x00\x00\x00\x00\x00\x00\x00\x00\x00\x00\x00",
        false,
    ),
    (
        b"\x01\x00\x01\x00\x00\x00\x00\x00\x00\x00\x00\x00\x00\x00\x00\x00\x00",
        false,
    ),
    (
        b"\x01\x00\x00\x01\x00\x00\x00\x00\x00\x00\x00\x00\x00\x00\x00\x00\x00",
        false,
    ),
    (
        b"\x01\x00\x00\x00\x01\x00\x00\x00\x00\x00\x00\x00\x00\x00\x00\x00\x00",
        false,
    ),
    (
        b"\x01\x01\x01\x00\x00\x00\x00\x00\x00\x00\x00\x00\x00\x00\x00\x00\x00",
        false,
    ),
    (
        b"\x01\x01\x00\x01\x00\x00\x00\x00\x00\x00\x00\x00\x00\x00\x00\x00\x00",
        false,
    ),
    (
        b"\x01\x03\x00\x00\x01\x00\x00\x00\x00\x00\x00\x00\x00\x00\x00\x00\x00",
        false,
    ),
];

// an input, a private of thread 1 and an output, with a byte of main's block after them
const THREE: &[u8] =
    b"\x03\x00\x00\x00\x00\x00\x00\x00\x00\xf6\xff\xff\xff\x0a\x00\x00\x00\x01\x00\x00\x01\x05\x00\x00\x00\x00\x00\x00\x00\x64\x00\x00\x00\x03\x02\x03\x00\x01\x00\x00\x00\x01\x00\x00\x00\x01\x00\x00\x00\x02";

// the same with a last declaration of no known kind
const LAST_BAD: &[u8] =
    b"\x03\x00\x00\x00\x00\x00\x00\x00\x00\xf6\xff\xff\xff\x0a\x00\x00\x00\x01\x00\x00\x01\x05\x00\x00\x00\x00\x00\x00\x00\x64\x00\x00\x00\x04\x02\x03\x00\x01\x00\x00\x00\x01\x00\x00\x00\x01\x00\x00\x00\x02";

// the same with two declarations of no known kind
const LAST_TWO_BAD: &[u8] =
    b"\x03\x00\x00\x00\x00\x00\x00\x00\x00\xf6\xff\xff\xff\x0a\x00\x00\x00\x04\x00\x00\x01\x05\x00\x00\x00\x00\x00\x00\x00\x64\x00\x00\x00\x04\x02\x03\x00\x01\x00\x00\x00\x01\x00\x00\x00\x01\x00\x00\x00\x02";

// number of the variable, thread, whether the thread reads it, whether it sets it
const SCOPES: [(u8, usize, bool, bool); 8] = [
    (0, 0, true, false),
    (0, 1, true, false),
    (1, 0, false, false),
    (1, 1, true, true),
    (2, 0, true, true),
    (2, 1, true, true),
    (3, 0, false, false),
    (255, 0, false, false),
];

#[test]
fn single_declarations(rt: HostRuntime) {
    for (program, accepted) in SINGLE {
        match read_declarations(program) {
            Ok(declarations) => {
                assert!(rt; accepted);
                assert!(rt; declarations.as_slice().len() == 1);
            }
            Err(fault) => {
                assert!(rt; !accepted);
                assert_eq!(rt; fault, LoadFault::BadDeclaration(1));
            }
        }
    }
}

#[test]
fn fields_of_declarations(rt: HostRuntime) -> Result<(), Fail> {
    let declarations = read_declarations(THREE)?;
    let list = declarations.as_slice();
    assert!(rt; list.len() == 3);
    let private = list[1];
    assert_eq!(rt; private.kind(), Kind::Private);
    assert!(rt; private.owner() == 1);
    assert!(rt; private.initial() == 5);
    assert!(rt; private.low() == 0);
    assert!(rt; private.high() == 100);
    let output = list[2];
    assert_eq!(rt; output.kind(), Kind::Output);
    assert_eq!(rt; output.policy(), Policy::Mod);
    assert!(rt; u8::from(output.operator()) == 3);
    assert!(rt; list[0].low() == -10);
    Ok(())
}

fn refused(rt: &impl Abort, program: &[u8], fault: LoadFault) -> Result<(), Fail> {
    match read_declarations(program) {
        Ok(_) => Err(Fail::new("accepted")),
        Err(met) => {
            assert_eq!(rt; met, fault);
            Ok(())
        },
    }
}

#[test]
fn lengths_and_counts(rt: HostRuntime) -> Result<(), Fail> {
    let mut long = [0u8; 4097];
    refused(&rt, &[], LoadFault::BadLength)?;
    refused(&rt, &long, LoadFault::BadLength)?;
    assert!(rt; read_declarations(&long[..4096])?.as_slice().len() == 0);
    long[0] = 32;
    assert!(rt; read_declarations(&long[..4096])?.as_slice().len() == 32);
    assert!(rt; read_declarations(&long[..513])?.as_slice().len() == 32);
    refused(
        &rt,
        &long[..512],
        LoadFault::CutDeclaration(ReadingFault::Cut(497)),
    )?;
    long[0] = 33;
    refused(&rt, &long[..4096], LoadFault::TooManyVariables)?;
    refused(&rt, &long, LoadFault::BadLength)
}

#[test]
fn places_of_faults(rt: HostRuntime) -> Result<(), Fail> {
    assert!(rt; read_declarations(THREE)?.as_slice().len() == 3);
    refused(
        &rt,
        &THREE[..1],
        LoadFault::CutDeclaration(ReadingFault::Cut(1)),
    )?;
    refused(
        &rt,
        &THREE[..32],
        LoadFault::CutDeclaration(ReadingFault::Cut(17)),
    )?;
    refused(
        &rt,
        &THREE[..48],
        LoadFault::CutDeclaration(ReadingFault::Cut(33)),
    )?;
    refused(&rt, LAST_BAD, LoadFault::BadDeclaration(33))?;
    refused(
        &rt,
        &LAST_BAD[..48],
        LoadFault::CutDeclaration(ReadingFault::Cut(33)),
    )?;
    refused(&rt, &LAST_TWO_BAD[..48], LoadFault::BadDeclaration(17))
}

#[test]
fn owners_among_threads(rt: HostRuntime) -> Result<(), Fail> {
    let declarations = read_declarations(THREE)?;
    assert!(rt; owners_live(&declarations, 2).is_ok());
    assert_eq!(rt;
        owners_live(&declarations, 1),
        Err(LoadFault::BadDeclaration(17))
    );
    assert_eq!(rt;
        owners_live(&declarations, 0),
        Err(LoadFault::BadDeclaration(1))
    );
    assert!(rt; owners_live(&Declarations::none(), 0).is_ok());
    Ok(())
}

#[test]
fn scopes_of_threads(rt: HostRuntime) -> Result<(), Fail> {
    let declarations = read_declarations(THREE)?;
    for (number, thread, reads, sets) in SCOPES {
        assert!(rt; may_read(declarations.as_slice(), thread, number) == reads);
        assert!(rt; may_set(declarations.as_slice(), thread, number) == sets);
    }
    Ok(())
}
