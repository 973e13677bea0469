use crate::*;
use std::test::Fail;
use weights::{Adding, WeightSource};

fn opened(rt: &HostRuntime) -> Result<Book<Adding>, Fail> {
    Book::open(rt.alloc(), Adding::new()).map_err(|_| Fail::new("no memory"))
}

// The number of a refusal, or 0: the values that the tests have.
fn number(res: Result<(), BookFault>) -> u8 {
    res.err().map_or(0, |fault| fault.number())
}

#[test]
fn limits_of_a_booking(rt: HostRuntime) -> Result<(), Fail> {
    let mut book = opened(&rt)?;
    let cases = [
        (0, 0, 1, 0),
        (0, 63, 20, 0),
        (0, 64, 300, 0),
        (0, 744, 4_000, 0),
        (0, 745, 1, 3),
        (0, 744, 1, 5),
        (0, 744, 20_001, 3),
        (63, 64, 20_000, 0),
        (63, 65, 20_001, 3),
        (64, 64, 1, 3),
        (u64::MAX, u64::MAX, u64::MAX, 3),
    ];
    for (meter, hour, amount, answer) in cases {
        assert_eq!(rt; number(book.book(meter, hour, amount)), answer);
    }
    for (hour, sum) in [
        (0, 1),
        (63, 20),
        (64, 20_300),
        (65, 0),
        (744, 4_000),
        (745, 0),
    ] {
        assert_eq!(rt; book.sum(hour), sum);
    }
    for (meter, missing) in [
        (0, Ok(741)),
        (1, Ok(745)),
        (63, Ok(744)),
        (64, Err(BookFault::OutOfRange)),
    ] {
        assert_eq!(rt; book.missing(meter, 745), missing);
    }
    assert_eq!(rt; book.missing(0, 3), Ok(0));
    assert_eq!(rt; book.weight(0), Ok(4_321));
    Ok(())
}

#[test]
fn greatest_weight_of_a_meter(rt: HostRuntime) -> Result<(), Fail> {
    let mut book = opened(&rt)?;
    for _ in 0..749 {
        assert_eq!(rt; number(book.carry(5, 20_000)), 0);
    }
    assert_eq!(rt; number(book.book(5, 100, 20_000)), 0);
    assert_eq!(rt; number(book.book(5, 101, 1)), 6);
    assert_eq!(rt; number(book.book(5, 100, 1)), 5);
    assert_eq!(rt; number(book.carry(5, 1)), 6);
    assert_eq!(rt; number(book.carry(64, 1)), 3);
    assert!(rt; book.is_marked(5, 100) && !book.is_marked(5, 101) && !book.is_marked(4, 100));
    assert_eq!(rt; book.sum(101), 0);
    assert_eq!(rt; book.missing(5, 744), Ok(743));
    assert_eq!(rt; book.weight(5), Ok(15_000_000));
    assert_eq!(rt; book.release().weight(5), Ok(15_000_000));
    Ok(())
}
