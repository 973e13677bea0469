// A month file, whole and cut, and what its loading answers and leaves.
use crate::plans::plan_of;
use crate::steep::Steep;
use crate::{show_questions, sources};
use anyhow::Context;
use input::FileWords;
use lines::FaultLine;
use loading::{Left, LoadFault, Stopped, load};
use monthwriter::write;
use plan::Booking;
use weights::{Adding, Greatest};

// More bytes than the file has.
const ROOM: usize = 128;

// Meter 0 of AMR has its first two hours, meter 5 of EAV its last.
const BOOKINGS: [Booking; 3] = [
    Booking {
        segment: 0,
        meter: 0,
        hour: 0,
        amount: 300,
    },
    Booking {
        segment: 0,
        meter: 0,
        hour: 1,
        amount: 100,
    },
    Booking {
        segment: 3,
        meter: 5,
        hour: 2,
        amount: 200,
    },
];

type SteepLeft = Left<Steep, Greatest, Adding, Adding>;

// Tells the fault, if there is one, and asks the month that is left, if it is open.
fn show_left(
    rt: &HostRuntime,
    label: &str,
    fault: &Option<LoadFault>,
    left: &mut SteepLeft,
) -> anyhow::Result<()> {
    match fault {
        None => println!(rt; "{label}: taken")?,
        Some(fault) => {
            let line = FaultLine(fault.told().context("out of memory")?);
            println!(rt; "{label}: {line}")?;
        }
    }
    if let Left::Opened(month) = left {
        show_questions(rt, month)?;
    }
    Ok(())
}

fn show_loading(rt: &HostRuntime, label: &str, bytes: &[u8]) -> anyhow::Result<()> {
    let mut file = FileWords::new(rt.alloc(), bytes)?;
    let (fault, mut left) = match load(rt.alloc(), &mut file, sources()) {
        Ok(month) => (None, Left::Opened(month)),
        Err(Stopped { fault, left }) => (Some(fault), left),
    };
    let shown = show_left(rt, label, &fault, &mut left);
    let _ = left.abandon();
    shown
}

// The last amount counts with its last byte, and not before.
pub(crate) fn show_files(rt: &HostRuntime) -> anyhow::Result<()> {
    let plan = plan_of(rt.alloc(), &[(0, 10)])?;
    let mut room = [0; ROOM];
    let size = write(&plan, &BOOKINGS, &mut room)
        .ok()
        .context("the file is not written")?;
    let bytes = &room[..size];
    show_loading(rt, "the file of three bookings", bytes)?;
    show_loading(
        rt,
        "the same cut after the last amount's third byte",
        &bytes[..size - 1],
    )
}
