use crate::{CutFault, CutRule, LargestRemainder, RunningCut, share_out};
use std::process::Abort;

// The number that a cut is refused with, or 0: the values of the tables below.
fn answer<R: CutRule>(rule: &R, total: u64, weights: &[u64], places: &mut [u64]) -> u8 {
    rule.cut(total, weights, places)
        .err()
        .map_or(0, CutFault::number)
}

#[test]
fn worked_figures(rt: HostRuntime) {
    let mut places = [0; 3];
    assert_eq!(rt; answer(&LargestRemainder, 10, &[6, 6, 2], &mut places), 0);
    assert_eq!(rt; places, [4, 4, 2]);
    assert_eq!(rt; answer(&LargestRemainder, 11, &[6, 6, 2], &mut places), 0);
    assert_eq!(rt; places, [5, 5, 1]);
    assert_eq!(rt; answer(&LargestRemainder, 2, &[1, 1, 1], &mut places), 0);
    assert_eq!(rt; places, [1, 1, 0]);
    assert_eq!(rt; answer(&RunningCut, 2, &[1, 1, 1], &mut places), 0);
    assert_eq!(rt; places, [0, 1, 1]);
    assert_eq!(rt; answer(&LargestRemainder, 0, &[0, 0], &mut places), 0);
    assert_eq!(rt; places, [0, 0, 1]);
    assert_eq!(rt; answer(&LargestRemainder, 1, &[0, 0], &mut places), 9);
    assert_eq!(rt; places, [0, 0, 1]);
}

// A total, weights, how many places there are, and the number that the cut is refused with, or 0.
#[derive(Clone, Copy)]
struct Case<'a>(u64, &'a [u64], usize, u8);

fn judged<R: CutRule>(rt: &impl Abort, rule: &R, cases: &[Case]) {
    for case in cases {
        let mut places = [7; 17];
        let room = case.2.min(17);
        assert_eq!(rt; answer(rule, case.0, case.1, &mut places[0..room]), case.3);
    }
}

#[test]
fn limits_of_both_rules(rt: HostRuntime) {
    let cases = [
        Case(16, &[1; 16], 16, 0),
        Case(16, &[1; 17], 17, 3),
        Case(0, &[], 0, 0),
        Case(1, &[], 0, 9),
        Case(5, &[999_999_999, 1], 2, 0),
        Case(5, &[1_000_000_000, 1], 2, 6),
        Case(5, &[u64::MAX, u64::MAX], 2, 6),
        Case(3_000_000_000, &[1, 2], 2, 0),
        Case(3_000_000_001, &[1, 2], 2, 8),
        Case(16, &[1; 16], 15, 10),
    ];
    judged(&rt, &LargestRemainder, &cases);
    judged(&rt, &RunningCut, &cases);
}

#[test]
fn first_refusal_counts(rt: HostRuntime) {
    let cases = [
        Case(u64::MAX, &[u64::MAX; 17], 15, 3),
        Case(u64::MAX, &[u64::MAX; 16], 15, 10),
        Case(u64::MAX, &[u64::MAX; 15], 15, 6),
        Case(u64::MAX, &[0; 15], 15, 8),
    ];
    judged(&rt, &LargestRemainder, &cases);
    judged(&rt, &RunningCut, &cases);
}

#[test]
fn shared_out_in_full(rt: HostRuntime) {
    let mut shares = [0; 16];
    shares[0] = 1_000_000_000;
    shares[1] = 2_000_000_000;
    assert_eq!(rt;
        share_out(&LargestRemainder, 3_000_000_000, &[1, 2]),
        Ok(shares)
    );
}
