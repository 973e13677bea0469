// Damaged month files, and what reading each answers.
#![tactic(auto)]

use anyhow::Context;
use lines::FaultLine;
use monthfile::read;
use std::alloc::{AllocError, Global};
use words::WORD_BYTES;

// The worked file of July 2022.
const JULY: [u32; 17] = [
    0x17E67002, 0x2000042B, 0x300003E8, 0x2400042B, 0x340003E8, 0x2800042B, 0x380003E8, 0x2C00042B,
    0x3C0003E8, 0x40000000, 0x40400001, 0x50000000, 0x6000012C, 0x60000064, 0x50100000, 0x60000064,
    0x600000C8,
];

// A file with a word of each kind: a period, the terms of four segments, a meter, its carried peak, a select and an amount.
const EACH_KIND: [u32; 13] = [
    0x17E67002, 0x2000042B, 0x300003E8, 0x2400042B, 0x340003E8, 0x2800042B, 0x380003E8, 0x2C00042B,
    0x3C0003E8, 0x40000000, 0x700001F4, 0x50000000, 0x6000012C,
];

// A word of each kind, known or not.
const KINDS: [u32; 16] = [
    0x00000000, 0x17E67002, 0x20000000, 0x30000000, 0x40000001, 0x50000005, 0x60000000, 0x700001F4,
    0x80000000, 0x90000000, 0xA0000000, 0xB0000000, 0xC0000000, 0xD0000000, 0xE0000000, 0xF0000000,
];

// How many bytes two words have.
const LAST_TWO: usize = 2 * WORD_BYTES;

// How many words of EACH_KIND come before the carried peak.
const METERS: usize = 10;

fn bytes_of(heap: Global, words: &[u32]) -> Result<Vec<u8>, AllocError> {
    let mut bytes = Vec::new(heap);
    for word in words {
        bytes.extend_from_slice(&word.to_be_bytes())?;
    }
    Ok(bytes)
}

// Prints what reading the bytes answers.
fn show(rt: &HostRuntime, label: &str, bytes: &[u8]) -> anyhow::Result<()> {
    match read(rt.alloc(), bytes) {
        Ok(_) => println!(rt; "{label}: taken")?,
        Err(fault) => {
            let line = FaultLine(fault.told().context("out of memory")?);
            println!(rt; "{label}: {line}")?;
        }
    }
    Ok(())
}

// The same of a file that begins with these words and goes on with those.
fn show_words(rt: &HostRuntime, label: &str, front: &[u32], rest: &[u32]) -> anyhow::Result<()> {
    let mut words = front.to_vec(rt.alloc())?;
    words.extend_from_slice(rest)?;
    let bytes = bytes_of(rt.alloc(), words.as_slice())?;
    show(rt, label, bytes.as_slice())
}

// The worked file, cut at each byte of its last two words.
fn show_cuts(rt: &HostRuntime) -> anyhow::Result<()> {
    let whole = bytes_of(rt.alloc(), &JULY)?;
    let bytes = whole.as_slice();
    for length in bytes.len().saturating_sub(LAST_TWO)..=bytes.len() {
        let label = format!(in rt.alloc(); "july cut to {length} bytes")?;
        show(rt, label.as_str(), &bytes[..length])?;
    }
    Ok(())
}

// A file with a word of each kind, where one bit of the word at this place is set.
fn show_spare_bits(rt: &HostRuntime, place: usize, low: u32, end: u32) -> anyhow::Result<()> {
    for bit in low..end {
        let label = format!(in rt.alloc(); "word {place} with spare bit {bit}")?;
        let mut words = EACH_KIND.to_vec(rt.alloc())?;
        if let Some(word) = words.get_mut(place) {
            *word |= 1u32.wrapping_shl(bit);
        }
        show_words(rt, label.as_str(), words.as_slice(), &[])?;
    }
    Ok(())
}

fn show_all_spare_bits(rt: &HostRuntime) -> anyhow::Result<()> {
    let fields = [
        (0, 10, 12),
        (1, 14, 24),
        (2, 11, 26),
        (9, 6, 18),
        (10, 15, 20),
        (10, 26, 28),
        (11, 10, 20),
        (12, 15, 28),
    ];
    for (place, low, end) in fields {
        show_spare_bits(rt, place, low, end)?;
    }
    Ok(())
}

// Each kind, known or not, after the words that a file begins with.
fn show_kinds(rt: &HostRuntime, phase: &str, front: &[u32]) -> anyhow::Result<()> {
    for (kind, word) in KINDS.iter().enumerate() {
        let label = format!(in rt.alloc(); "kind {kind} in phase {phase}")?;
        show_words(rt, label.as_str(), front, &[*word])?;
    }
    Ok(())
}

fn show_all_phases(rt: &HostRuntime) -> anyhow::Result<()> {
    let phases = [
        ("start", &EACH_KIND[..0]),
        ("segments", &EACH_KIND[..1]),
        ("factor due", &EACH_KIND[..2]),
        ("meters", &EACH_KIND[..METERS]),
        ("carried", &EACH_KIND[..11]),
        ("selected", &EACH_KIND[..12]),
        ("bookings", &EACH_KIND[..13]),
    ];
    for (phase, front) in phases {
        show_kinds(rt, phase, front)?;
    }
    Ok(())
}

// A file's label, the words that it begins with, and those that it goes on with.
type Case<'a> = (&'a str, &'a [u32], &'a [u32]);

fn show_cases(rt: &HostRuntime, cases: &[Case<'_>]) -> anyhow::Result<()> {
    for &(label, front, rest) in cases {
        show_words(rt, label, front, rest)?;
    }
    Ok(())
}

// Order and limits of selects and amounts.
fn show_selections(rt: &HostRuntime) -> anyhow::Result<()> {
    let meters = &EACH_KIND[..METERS];
    let cases: [Case<'_>; 12] = [
        ("a select twice", meters, &[0x50000000, 0x50000000]),
        (
            "another select after a select",
            meters,
            &[0x50000000, 0x50000001],
        ),
        (
            "a redundant select",
            meters,
            &[0x50000000, 0x60000001, 0x50000001],
        ),
        (
            "the same hour again",
            meters,
            &[0x50000000, 0x60000001, 0x50000000, 0x60000001],
        ),
        ("hour 744", meters, &[0x500002E8, 0x60000001]),
        ("hour 745", meters, &[0x500002E9, 0x60000001]),
        ("hour 800", meters, &[0x50000320, 0x60000001]),
        (
            "an amount at 745",
            meters,
            &[0x500002E8, 0x60000001, 0x60000001],
        ),
        (
            "a select of 745 at 745",
            meters,
            &[0x500002E8, 0x60000001, 0x500002E9],
        ),
        (
            "a select after 744",
            meters,
            &[0x500002E8, 0x60000001, 0x50000000, 0x60000001],
        ),
        ("the greatest amount", meters, &[0x50000000, 0x60007FFF]),
        ("an end after a select", meters, &[0x50000000]),
    ];
    show_cases(rt, &cases)
}

// Order and values of the period and of the segments' terms.
fn show_terms(rt: &HostRuntime) -> anyhow::Result<()> {
    let period = &EACH_KIND[..1];
    let segment = &EACH_KIND[..3];
    let cases: [Case<'_>; 9] = [
        ("a second period", period, &[0x17E67002]),
        ("segment 1 first", period, &[0x2400042B, 0x340003E8]),
        ("segment 2 before 1", segment, &[0x2800042B, 0x380003E8]),
        ("segment 0 again", segment, &[0x2000042B, 0x300003E8]),
        (
            "a factor of another segment",
            period,
            &[0x2000042B, 0x340003E8],
        ),
        ("tariff 10000", period, &[0x20002710, 0x300003E8]),
        ("factor 2001", period, &[0x2000042B, 0x300007D1]),
        (
            "service 1 for a part of the month",
            period,
            &[0x2100042B, 0x300003E8],
        ),
        (
            "service 2 for a part of the month",
            period,
            &[0x2200042B, 0x300003E8],
        ),
    ];
    show_cases(rt, &cases)
}

// Order and values of the meters and the carried peaks.
fn show_meters(rt: &HostRuntime) -> anyhow::Result<()> {
    let terms = &EACH_KIND[..9];
    let peak = &EACH_KIND[..11];
    let cases: [Case<'_>; 7] = [
        ("a plan with no meter", terms, &[]),
        ("a meter again", terms, &[0x40000000, 0x40400000]),
        (
            "a meter of a lower segment",
            terms,
            &[0x44000000, 0x40000000],
        ),
        ("a meter after a carried peak", peak, &[0x40000001]),
        (
            "a carried peak of no meter",
            terms,
            &[0x40000000, 0x701001F4],
        ),
        ("a carried peak of 0", terms, &[0x40000000, 0x70000000]),
        ("a carried peak of 20001", terms, &[0x40000000, 0x70004E21]),
    ];
    show_cases(rt, &cases)
}

// The last hour of a month, and the one after it.
fn show_periods(rt: &HostRuntime) -> anyhow::Result<()> {
    let terms = &EACH_KIND[1..9];
    let cases: [Case<'_>; 7] = [
        ("March 2024 with 743 hours", &[0x17E832E7], terms),
        ("March 2024 with 744 hours", &[0x17E832E8], terms),
        ("October 2024 with 745 hours", &[0x17E8A2E9], terms),
        ("October 2024 with 746 hours", &[0x17E8A2EA], terms),
        ("month 13", &[0x17E8D001], terms),
        ("year 1999", &[0x17CF1001], terms),
        ("no hour", &[0x17E81000], terms),
    ];
    show_cases(rt, &cases)
}

fn main(rt: HostRuntime) -> anyhow::Result<()> {
    show(&rt, "an empty file", &[])?;
    show_cuts(&rt)?;
    show_all_spare_bits(&rt)?;
    show_all_phases(&rt)?;
    show_selections(&rt)?;
    show_terms(&rt)?;
    show_meters(&rt)?;
    show_periods(&rt)
}
