// Shows a month file from standard input: a line for each record as its words are judged. At a fault its line is the
// last, and the status is 1.
#![tactic(auto)]

use anyhow::anyhow;
use dumping::{DumpFault, dump};
use std::io;
use std::io::{BufWriter, Write};

// What the program ends with at a fault.
fn ending(fault: DumpFault) -> anyhow::Error {
    if fault.told().is_some() {
        return anyhow!("the file has a fault");
    }
    match fault {
        DumpFault::Transfer(error) => error.into(),
        DumpFault::Reading(_) => anyhow!("out of memory"),
    }
}

fn main(rt: HostRuntime) -> anyhow::Result<()> {
    let mut out = BufWriter::new(rt.alloc(), io::writer(&rt))?;
    let dumped = dump(rt.alloc(), rt.stdin(), &mut out);
    out.flush()?;
    dumped.map_err(ending)
}
