// The worked file of July 2022, fields at their limits, spare bits, and windows.
use crate::{Window, Word, collect_words};
use std::process::Abort;
use std::test::Fail;

// The kind of a word and its fields, from the highest bits down: a table of words would take a line for each field.
fn kind_and_fields(word: Word) -> [u32; 5] {
    match word {
        Word::Period { year, month, hours } => [1, year, month, hours, 0],
        Word::Segment(given) => [2, given.segment, given.service, given.tariff, 0],
        Word::Factor { segment, factor } => [3, segment, factor, 0, 0],
        Word::Meter {
            segment,
            user,
            station,
            meter,
        } => [4, segment, user, station, meter],
        Word::Select(spot) => [5, spot.segment, spot.meter, spot.hour, 0],
        Word::Amount { amount } => [6, amount, 0, 0, 0],
        Word::Carried { meter, amount } => [7, meter, amount, 0, 0],
    }
}

fn both_ways(rt: &impl Abort, rows: &[(u32, [u32; 5])]) -> Result<(), Fail> {
    for (bits, fields) in rows {
        let word = Word::decode(*bits).ok_or("no word")?;
        assert_eq!(rt; kind_and_fields(word), *fields);
        assert_eq!(rt; word.encode(), Some(*bits));
    }
    Ok(())
}

#[test]
fn worked_file(rt: HostRuntime) -> Result<(), Fail> {
    both_ways(
        &rt,
        &[
            (0x17E67002, [1, 2022, 7, 2, 0]),
            (0x2000042B, [2, 0, 0, 1067, 0]),
            (0x300003E8, [3, 0, 1000, 0, 0]),
            (0x2400042B, [2, 1, 0, 1067, 0]),
            (0x340003E8, [3, 1, 1000, 0, 0]),
            (0x2800042B, [2, 2, 0, 1067, 0]),
            (0x380003E8, [3, 2, 1000, 0, 0]),
            (0x2C00042B, [2, 3, 0, 1067, 0]),
            (0x3C0003E8, [3, 3, 1000, 0, 0]),
            (0x40000000, [4, 0, 0, 0, 0]),
            (0x40400001, [4, 0, 1, 0, 1]),
            (0x50000000, [5, 0, 0, 0, 0]),
            (0x6000012C, [6, 300, 0, 0, 0]),
            (0x60000064, [6, 100, 0, 0, 0]),
            (0x50100000, [5, 0, 1, 0, 0]),
            (0x60000064, [6, 100, 0, 0, 0]),
            (0x600000C8, [6, 200, 0, 0, 0]),
        ],
    )
}

#[test]
fn greatest_fields(rt: HostRuntime) -> Result<(), Fail> {
    both_ways(
        &rt,
        &[
            (0x1FFFF3FF, [1, 4095, 15, 1023, 0]),
            (0x2F003FFF, [2, 3, 3, 16383, 0]),
            (0x3C0007FF, [3, 3, 2047, 0, 0]),
            (0x4FFC003F, [4, 3, 15, 15, 63]),
            (0x5FF003FF, [5, 3, 63, 1023, 0]),
            (0x60007FFF, [6, 32767, 0, 0, 0]),
            (0x73F07FFF, [7, 63, 32767, 0, 0]),
        ],
    )?;
    assert_eq!(rt; Word::Amount { amount: 32768 }.encode(), None);
    Ok(())
}

// The bits of a kind with nothing in its fields, and its spare bits.
#[test]
fn spare_bits(rt: HostRuntime) {
    let kinds = [
        (0x10000000, 0x00000C00),
        (0x20000000, 0x00FFC000),
        (0x30000000, 0x03FFF800),
        (0x40000000, 0x0003FFC0),
        (0x50000000, 0x000FFC00),
        (0x60000000, 0x0FFF8000),
        (0x70000000, 0x0C0F8000u32),
    ];
    for (kind, spare) in kinds {
        for bit in 0..32u32 {
            if spare >> bit & 1 == 1 {
                assert!(rt; Word::decode(kind | 1 << bit).is_none());
            }
        }
    }
}

#[test]
fn unknown_kinds(rt: HostRuntime) {
    for kind in [0u32, 8, 9, 10, 11, 12, 13, 14, 15] {
        assert!(rt; Word::decode(kind << 28).is_none());
    }
}

// Three words and three bytes; the count of words stops at the greatest number.
#[test]
fn blocks(rt: HostRuntime) -> Result<(), Fail> {
    let block = b"\x60\x00\x01\x2C\x60\x00\x00\x64\x50\x10\x00\x00\x60\x00\x00";
    let words = collect_words(rt.alloc(), block, u64::MAX - 1)?;
    assert!(rt; words.len() == 3);
    assert_eq!(rt; words[0], (u64::MAX - 1, 0x6000012C));
    assert_eq!(rt; words[1], (u64::MAX, 0x60000064));
    assert_eq!(rt; words[2], (u64::MAX, 0x50100000));
    assert_eq!(rt; Window::new(block, 12).left_over(), 3);
    Ok(())
}
