// What the calls on a queens board refuse, by which stop, and that a refusal alters nothing.
use super::refused;
use puzzles::{Given, Puzzle, decode, encode, fill, first_false};
use queens::Queens;
use rows::{Fault, Stop};
use std::test::Fail;

const ANSWER: [u8; 4] = [1, 3, 0, 2];

const FITTING: [Given; 257] = [Given { place: 3, value: 3 }; 257];

const OFF_THE_BOARD: [Given; 3] = [
    Given { place: 0, value: 0 },
    Given { place: 4, value: 0 },
    Given { place: 0, value: 9 },
];

#[test]
fn sizes(rt: HostRuntime) {
    let mut queens = Queens::new();
    assert_eq!(rt; queens.size(), 1);
    refused(&rt, queens.make(0, &[]), Stop::Size(0));
    refused(&rt, queens.make(13, &[]), Stop::Size(13));
    assert_eq!(rt; queens.size(), 1);
    assert!(rt; queens.make(12, &[]).is_ok());
    assert_eq!(rt; queens.size(), 12);
    refused(&rt, queens.make(usize::MAX, &[]), Stop::Size(u64::MAX));
    assert_eq!(rt; queens.size(), 12);
}

#[test]
fn entries(rt: HostRuntime) {
    let mut queens = Queens::new();
    refused(&rt, queens.make(5, &FITTING), Stop::Count(257));
    refused(&rt, queens.make(13, &FITTING), Stop::Size(13));
    assert_eq!(rt; queens.size(), 1);
    assert!(rt; queens.make(5, &FITTING[0..256]).is_ok());
    assert_eq!(rt; queens.rows(), 10 + 14 + 256);
    refused(&rt, queens.make(4, &OFF_THE_BOARD), Stop::Entry(1));
    refused(&rt, queens.make(5, &OFF_THE_BOARD), Stop::Entry(2));
    assert_eq!(rt; queens.rows(), 10 + 14 + 256);
}

#[test]
fn givens_are_held(rt: HostRuntime) -> Result<(), Fail> {
    let mut queens = Queens::new();
    let given = [Given { place: 2, value: 0 }];
    queens.make(4, &given)?;
    assert!(rt; queens.is_answer(&ANSWER));
    assert!(rt; !queens.is_answer(&[2, 0, 3, 1]));
    Ok(())
}

#[test]
fn no_answers(rt: HostRuntime) -> Result<(), Fail> {
    let mut queens = Queens::new();
    queens.make(4, &[])?;
    assert!(rt; queens.is_answer(&ANSWER));
    assert!(rt; !queens.is_answer(&[]));
    assert!(rt; !queens.is_answer(&[1, 3, 0]));
    assert!(rt; !queens.is_answer(&[1, 3, 0, 2, 0]));
    assert!(rt; !queens.is_answer(&[1, 3, 0, 4]));
    assert!(rt; !queens.is_answer(&[1, 3, 0, 255]));
    assert!(rt; !queens.is_answer(&[1, 3, 0, 0]));
    assert!(rt; !queens.is_answer(&[0, 1, 2, 3]));
    assert!(rt; !queens.is_answer(&[3, 2, 1, 0]));
    Ok(())
}

#[test]
fn filling_is_refused(rt: HostRuntime) -> Result<(), Fail> {
    let mut queens = Queens::new();
    queens.make(4, &[])?;
    let mut values = [true; 25];
    refused(&rt, fill(&queens, &ANSWER, &mut values), Stop::Small(26));
    refused(&rt, encode(&queens, &[9], &mut values), Stop::Small(26));
    assert!(rt; values[24]);
    let mut values = [true; 26];
    refused(&rt, fill(&queens, &[1, 3, 0], &mut values), Stop::Length(3));
    refused(
        &rt,
        encode(&queens, &[1, 3, 0, 2, 0], &mut values),
        Stop::Length(5),
    );
    refused(
        &rt,
        encode(&queens, &[1, 3, 0, 4], &mut values),
        Stop::Wrong(0),
    );
    assert!(rt; values[0] && values[25]);
    Ok(())
}

#[test]
fn decoding_is_refused(rt: HostRuntime) -> Result<(), Fail> {
    let mut queens = Queens::new();
    queens.make(4, &[])?;
    let mut values = [false; 27];
    assert!(rt; encode(&queens, &ANSWER, &mut values).is_ok());
    assert!(rt; !values[26]);
    let mut answer = [7u8; 5];
    refused(
        &rt,
        decode(&queens, &values, &mut answer[0..3]),
        Stop::Small(4),
    );
    refused(&rt, decode(&queens, &values, &mut answer), Stop::Length(27));
    assert_eq!(rt;
        first_false(&queens, &values),
        Err(Fault::here(Stop::Length(27)))
    );
    values[25] = !values[25];
    refused(
        &rt,
        decode(&queens, &values[0..26], &mut answer),
        Stop::Wrong(0),
    );
    assert!(rt; answer[0] == 7 && answer[4] == 7);
    values[25] = !values[25];
    assert!(rt; decode(&queens, &values[0..26], &mut answer).is_ok());
    assert!(rt; answer[0] == 1 && answer[3] == 2 && answer[4] == 7);
    Ok(())
}

#[test]
fn a_byte_too_large_takes_no_cell(rt: HostRuntime) -> Result<(), Fail> {
    let mut queens = Queens::new();
    queens.make(4, &[])?;
    let mut values = [true; 26];
    assert!(rt; fill(&queens, &[1, 3, 200, 2], &mut values).is_ok());
    assert!(rt; !values[8] && !values[9] && !values[10] && !values[11]);
    assert_eq!(rt; first_false(&queens, &values), Ok(Some(2)));
    Ok(())
}
