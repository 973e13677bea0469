// Tells how many hours each assigned meter still misses: reads a month file from standard input, opens the month and books
// every amount. At a fault it prints the fault's line alone, and the status is 1.
#![tactic(auto)]

use anyhow::anyhow;
use loading::LoadFault;
use month::Sources;
use reporting::{ReportFault, report_gaps};
use std::io;
use weights::{Adding, Greatest};

// AMR and S30 weigh a meter by its greatest amount, MRC and EAV by the sum of its amounts.
fn sources() -> Sources<Greatest, Greatest, Adding, Adding> {
    Sources {
        amr: Greatest::new(),
        s30: Greatest::new(),
        mrc: Adding::new(),
        eav: Adding::new(),
    }
}

// What the program ends with at a fault.
fn ending(fault: ReportFault) -> anyhow::Error {
    match fault {
        ReportFault::Loading(LoadFault::Transfer(error)) | ReportFault::Output(error) => {
            error.into()
        }
        ReportFault::Loading(fault) if fault.told().is_some() => anyhow!("the file has a fault"),
        _ => anyhow!("out of memory"),
    }
}

fn main(rt: HostRuntime) -> anyhow::Result<()> {
    let mut out = io::writer(&rt);
    report_gaps(rt.alloc(), rt.stdin(), sources(), &mut out).map_err(ending)
}
