// Openings, bookings, questions and weights at their limits, and what each answers; and a file that is cut, and what its
// loading leaves.
#![tactic(auto)]

mod files;
mod plans;
mod steep;

use anyhow::Context;
use files::show_files;
use month::{Answer, BookingFault, Call, Month, Open, Sources, Unopened};
use plan::{Booking, Plan};
use plans::plan_of;
use steep::Steep;
use weights::{Adding, Greatest, WeightFault, WeightSource, note_each};

type SteepSources = Sources<Steep, Greatest, Adding, Adding>;

type SteepMonth = Open<Month<Steep, Greatest, Adding, Adding>>;

type NoMonth = Unopened<Steep, Greatest, Adding, Adding>;

fn sources() -> SteepSources {
    Sources {
        amr: Steep::new(),
        s30: Greatest::new(),
        mrc: Adding::new(),
        eav: Adding::new(),
    }
}

fn show_refusal(rt: &HostRuntime, label: &str, number: u8) -> anyhow::Result<()> {
    println!(rt; "{label}: refused {number}")?;
    Ok(())
}

fn show_weight(
    rt: &HostRuntime,
    label: &str,
    weight: Result<u64, WeightFault>,
) -> anyhow::Result<()> {
    match weight {
        Ok(weight) => println!(rt; "{label}: weight {weight}")?,
        Err(fault) => show_refusal(rt, label, fault.number())?,
    }
    Ok(())
}

fn show_note(rt: &HostRuntime, label: &str, noted: Result<(), WeightFault>) -> anyhow::Result<()> {
    match noted {
        Ok(()) => println!(rt; "{label}: taken")?,
        Err(fault) => show_refusal(rt, label, fault.number())?,
    }
    Ok(())
}

fn show_count(rt: &HostRuntime, taken: usize) -> anyhow::Result<()> {
    println!(rt; "20000 noted 750 times: {taken} taken")?;
    Ok(())
}

// The greatest weight, on the source itself.
fn show_source(rt: &HostRuntime) -> anyhow::Result<()> {
    let mut source = Adding::new();
    let taken = note_each(&mut source, 5, &[20_000; 750]);
    show_count(rt, taken)?;
    show_weight(rt, "then", source.weight(5))?;
    show_note(rt, "1 more", source.note(5, 1))?;
    show_note(rt, "0 more", source.note(5, 0))?;
    show_weight(rt, "then", source.weight(5))?;
    show_note(rt, "20001 of another meter", source.note(6, 20_001))?;
    show_note(rt, "20000 of meter 63", source.note(63, 20_000))?;
    show_note(rt, "20000 of meter 64", source.note(64, 20_000))?;
    show_weight(rt, "meter 64", source.weight(64))
}

// Tells whether a month was opened, or why not, and hands its sources back.
fn show_unopened(
    rt: &HostRuntime,
    label: &str,
    opened: Result<SteepMonth, NoMonth>,
) -> anyhow::Result<SteepSources> {
    match opened {
        Ok(month) => {
            let (_, sources) = month.abandon();
            println!(rt; "{label}: opened")?;
            Ok(sources)
        }
        Err(unopened) => {
            let number = unopened.fault.number().context("out of memory")?;
            show_refusal(rt, label, number)?;
            Ok(unopened.sources)
        }
    }
}

fn show_openings(rt: &HostRuntime) -> anyhow::Result<()> {
    let mut marked = sources();
    show_note(rt, "7 noted in S30", marked.s30.note(3, 7))?;
    let empty = Open::open(rt.alloc(), Plan::new(rt.alloc()), marked);
    let back = show_unopened(rt, "opening an empty plan", empty)?;
    show_weight(rt, "S30 then", back.s30.weight(3))?;
    let plan = plan_of(rt.alloc(), &[(0, 10), (63, 15_001)])?;
    let heavy = Open::open(rt.alloc(), plan, back);
    let back = show_unopened(rt, "opening with a carried peak too heavy", heavy)?;
    show_weight(rt, "S30 then", back.s30.weight(3))?;
    show_weight(rt, "AMR then", back.amr.weight(0))?;
    let plan = plan_of(rt.alloc(), &[(0, 10), (63, 15_000)])?;
    let light = Open::open(rt.alloc(), plan, back);
    let back = show_unopened(rt, "opening with the heaviest carried peak", light)?;
    show_weight(rt, "AMR then", back.amr.weight(63))
}

fn show_answer(
    rt: &HostRuntime,
    label: &str,
    answer: &Result<Answer, BookingFault>,
) -> anyhow::Result<()> {
    match answer {
        Ok(Answer::Booked) => println!(rt; "{label}: taken")?,
        Ok(Answer::Missing(hours)) => println!(rt; "{label}: {hours}")?,
        Err(fault) => show_refusal(rt, label, fault.number())?,
    }
    Ok(())
}

fn show_call(
    rt: &HostRuntime,
    month: &mut SteepMonth,
    label: &str,
    call: Call,
) -> anyhow::Result<()> {
    let answers = month.run(rt.alloc(), &[call])?;
    for answer in &answers {
        show_answer(rt, label, answer)?;
    }
    Ok(())
}

fn show_bookings(rt: &HostRuntime, month: &mut SteepMonth) -> anyhow::Result<()> {
    for [segment, meter, hour, amount] in [
        // a carried peak of 10 has made the weight 10,000
        [0, 0, 0, 14_990],
        [0, 0, 1, 1],
        [0, 0, 1, 0],
        [0, 0, 1, 0],
        [0, 0, 3, 0],
        [0, 0, 2, 0],
        [0, 63, 0, 15_001],
        [0, 63, 0, 15_000],
        [3, 5, 0, 20_000],
        [3, 5, 1, 20_001],
        [3, 6, 0, 1],
        [3, 64, 0, 1],
        [4, 0, 0, 1],
        [u32::MAX, u32::MAX, u32::MAX, u32::MAX],
    ] {
        let label = format!(in rt.alloc();
            "{amount} of meter {meter} of segment {segment} in hour {hour}"
        )?;
        let call = Call::Book(Booking {
            segment,
            meter,
            hour,
            amount,
        });
        show_call(rt, month, label.as_str(), call)?;
    }
    Ok(())
}

fn show_questions(rt: &HostRuntime, month: &mut SteepMonth) -> anyhow::Result<()> {
    for [segment, meter] in [[0, 0], [0, 63], [3, 5], [3, 6], [3, 64], [4, 0]] {
        let label = format!(in rt.alloc(); "hours that meter {meter} of segment {segment} misses")?;
        show_call(rt, month, label.as_str(), Call::Ask { segment, meter })?;
    }
    Ok(())
}

fn show_month(rt: &HostRuntime, month: &mut SteepMonth) -> anyhow::Result<()> {
    show_questions(rt, month)?;
    show_bookings(rt, month)?;
    show_questions(rt, month)
}

fn show_open(rt: &HostRuntime) -> anyhow::Result<()> {
    let plan = plan_of(rt.alloc(), &[(0, 10)])?;
    let mut month = Open::open(rt.alloc(), plan, sources())
        .ok()
        .context("not opened")?;
    let result = show_month(rt, &mut month);
    let (_, sources) = month.abandon();
    result?;
    show_weight(rt, "meter 0 of segment 0", sources.amr.weight(0))?;
    show_weight(rt, "meter 63 of segment 0", sources.amr.weight(63))?;
    show_weight(rt, "meter 5 of segment 3", sources.eav.weight(5))
}

fn main(rt: HostRuntime) -> anyhow::Result<()> {
    show_source(&rt)?;
    show_openings(&rt)?;
    show_open(&rt)?;
    show_files(&rt)
}
