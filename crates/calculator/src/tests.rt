use crate::{RequestFault, reply_to};
use std::alloc::{AllocError, Global};
use std::process::Abort;
use std::test::Fail;

// The words of a request, parted by blanks, and the line of its figures or of its refusal.
type Case<'a> = (&'a str, Result<&'a str, &'a str>);

fn words(heap: Global, text: &str) -> Result<Vec<String>, AllocError> {
    text.split_whitespace()
        .map(|word| String::from_str(heap, word))
        .try_collect(heap)
}

fn told(rt: &impl Abort, heap: Global, cases: &[Case]) -> Result<(), Fail> {
    for (request, answer) in cases {
        match (reply_to(heap, &words(heap, request)?), answer) {
            (Ok(line), Ok(text)) => assert!(rt; line.as_str() == *text),
            (Err(fault), Err(text)) => assert!(rt; fault.to_string(heap)?.as_str() == *text),
            _ => return Err(Fail::from("figures where a refusal is due, or the reverse")),
        }
    }
    Ok(())
}

#[test]
fn cuts_and_refusals(rt: HostRuntime) -> Result<(), Fail> {
    let cases = [
        ("largest 11 6 6 2", Ok("5 5 1")),
        ("running 2 1 1 1", Ok("0 1 1")),
        ("largest 0 0 0", Ok("0 0")),
        ("largest 1 0 0", Err("REFUSED 9")),
        ("running 3000000001 1", Err("REFUSED 8")),
        ("running 5 18446744073709551615 1", Err("REFUSED 6")),
        (
            "largest 5 1 1 1 1 1 1 1 1 1 1 1 1 1 1 1 1 1",
            Err("REFUSED 3"),
        ),
    ];
    told(&rt, rt.alloc(), &cases)
}

#[test]
fn totals_and_fees(rt: HostRuntime) -> Result<(), Fail> {
    let cases = [
        ("total 1 1", Ok("1")),
        ("total 1280000 2000", Ok("2560000")),
        ("total 1280001 1", Err("REFUSED 3")),
        ("total 1 4294967296", Err("REFUSED 3")),
        ("fee 2022 1 744 0 1067 1000", Ok("9062")),
        ("fee 2022 1 744 1 1067 1000", Ok("22995")),
        ("fee 2022 7 24 2 1067 100", Ok("106")),
        ("fee 2022 7 24 1 1067 100", Err("REFUSED 3")),
        ("fee 2022 3 744 1 1067 100", Err("REFUSED 3")),
        ("fee 2022 1 744 0 1067 2560001", Err("REFUSED 3")),
        (
            "fee 2022 1 744 18446744073709551615 1067 1",
            Err("REFUSED 3"),
        ),
    ];
    told(&rt, rt.alloc(), &cases)
}

#[test]
fn bad_usage(rt: HostRuntime) -> Result<(), Fail> {
    for request in [
        "",
        "largest",
        "largest 10",
        "largest 10 18446744073709551616",
        "largest ten 1",
        "smallest 10 1",
        "total 1",
        "fee 2022 1 744 0 1067",
    ] {
        let reply = reply_to(rt.alloc(), &words(rt.alloc(), request)?);
        assert_eq!(rt; reply.err(), Some(RequestFault::BadUsage));
    }
    Ok(())
}
