// Examples worked out by hand.
use crate::{Bill, Fault, Kind, Row, Stop, count_true, judge, negated, positive, variable};
use std::test::Fail;

#[test]
fn literals(rt: HostRuntime) {
    assert_eq!(rt; positive(0), Some(0));
    assert_eq!(rt; positive(32_767), Some(65_534));
    assert_eq!(rt; positive(32_768), None);
    assert_eq!(rt; negated(6), 7);
    assert_eq!(rt; negated(65_535), 65_534);
    assert_eq!(rt; variable(65_535), 32_767);
}

// By kind: the shortest and longest length, and whether 0, 1 and 2 true positions make a row true.
#[test]
fn kinds(rt: HostRuntime) -> Result<(), Fail> {
    let table = [
        (1u64, 0usize, 16usize, false, true, false),
        (2, 0, 16, false, true, true),
        (3, 0, 3, false, true, true),
        (4, 3, 3, false, true, false),
    ];
    for (number, low, high, none, one, two) in table {
        let kind = Kind::try_from(number)?;
        assert_eq!(rt; u64::from(u8::from(kind)), number);
        for len in 0..20usize {
            assert_eq!(rt; kind.has_length(len), low <= len && len <= high);
        }
        assert_eq!(rt;
            (kind.is_met_by(0), kind.is_met_by(1), kind.is_met_by(2)),
            (none, one, two)
        );
    }
    assert_eq!(rt; Kind::try_from(0), Err(Fault::here(Stop::Make(0))));
    assert_eq!(rt; Kind::try_from(5), Err(Fault::here(Stop::Make(5))));
    Ok(())
}

#[test]
fn rows_are_judged(rt: HostRuntime) {
    let values = [true, false];
    assert_eq!(rt; count_true(&values, &[0, 0, 2, 3]), Ok(3));
    assert_eq!(rt; judge(Kind::Cover, &values, &[0, 0]), Ok(false));
    assert_eq!(rt; judge(Kind::Clauses, &values, &[0, 0]), Ok(true));
    assert_eq!(rt; judge(Kind::Cover, &values, &[2, 3]), Ok(true));
    assert_eq!(rt; judge(Kind::Cover, &values, &[]), Ok(false));
    assert_eq!(rt; judge(Kind::Short, &values, &[2, 2, 3]), Ok(true));
    assert_eq!(rt; judge(Kind::Triples, &values, &[0, 3, 2]), Ok(false));
    assert_eq!(rt;
        judge(Kind::Triples, &values, &[4, 0]),
        Err(Fault::here(Stop::Row(2)))
    );
    assert_eq!(rt;
        judge(Kind::Cover, &values, &[9; 17]),
        Err(Fault::here(Stop::Row(17)))
    );
    assert_eq!(rt;
        judge(Kind::Cover, &values, &[0, 3, 4, 6]),
        Err(Fault::here(Stop::Literal(2)))
    );
}

#[test]
fn faults_in_words(rt: HostRuntime) -> Result<(), Fail> {
    let table = [
        (Stop::Size(13), "stop 1 SIZE, place 13, depth 0"),
        (Stop::Count(257), "stop 2 COUNT, place 257, depth 0"),
        (Stop::Length(5), "stop 3 LENGTH, place 5, depth 0"),
        (Stop::Entry(2), "stop 4 ENTRY, place 2, depth 0"),
        (Stop::Wrong(1), "stop 5 WRONG, place 1, depth 0"),
        (Stop::Twice(3), "stop 6 TWICE, place 3, depth 0"),
        (Stop::Joint, "stop 7 JOINT, place 0, depth 0"),
        (Stop::Big, "stop 8 BIG, place 0, depth 0"),
        (Stop::Row(17), "stop 9 ROW, place 17, depth 0"),
        (Stop::Literal(4), "stop 10 LITERAL, place 4, depth 0"),
        (Stop::Bill(6), "stop 11 BILL, place 6, depth 0"),
        (Stop::Owed(0), "stop 12 OWED, place 0, depth 0"),
        (Stop::Small(64), "stop 13 SMALL, place 64, depth 0"),
        (
            Stop::Make(u64::MAX),
            "stop 14 MAKE, place 18446744073709551615, depth 0",
        ),
    ];
    for (stop, words) in table {
        let fault = Fault::here(stop);
        let shown = format!(in rt.alloc(); "{fault}")?;
        assert!(rt; shown.as_str() == words);
    }
    Ok(())
}

#[test]
fn bills_in_words(rt: HostRuntime) -> Result<(), Fail> {
    let mut bill = Bill::empty();
    assert!(rt; format!(in rt.alloc(); "{bill}")?.as_str() == "none");
    bill.counts[0] = 1;
    bill.counts[16] = 70_000;
    assert!(rt; format!(in rt.alloc(); "{bill}")?.as_str() == "1 of length 0, 70000 of length 16");
    Ok(())
}

#[test]
fn buffers_fill_up(rt: HostRuntime) {
    let mut row = Row::new();
    for literal in 0..16u16 {
        assert!(rt; row.push(literal));
    }
    assert!(rt; !row.push(99));
    assert!(rt; row.literals().len() == 16);
    assert_eq!(rt; row.literals()[15], 15);
}
