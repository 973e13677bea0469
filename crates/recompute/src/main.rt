// A shipper's calculator on the command line: it prints the figures that he recomputes from the published rules.
#![tactic(auto)]

use anyhow::anyhow;
use calculator::{RequestFault, reply_to};
use std::alloc::AllocError;
use std::env;

const USAGE: &str = "usage: recompute largest TOTAL WEIGHT..
       recompute running TOTAL WEIGHT..
       recompute total PEAK FACTOR
       recompute fee YEAR MONTH HOURS SERVICE TARIFF CAPACITY
The first two print the shares of the total, one for each weight; then a segment's total in kWh/h; then a fee in cents.
A refusal prints REFUSED and its number. Numbers have at most 64 bits.";

// Prints the line, or the usage where there is no request. A refusal and bad usage end with status 1.
fn tell(rt: &HostRuntime, answer: Result<String, RequestFault>) -> anyhow::Result<()> {
    match answer {
        Ok(line) => Ok(rt.println(line.as_str())?),
        Err(RequestFault::BadUsage) => {
            rt.eprintln(USAGE)?;
            Err(anyhow!("bad usage"))
        }
        Err(RequestFault::Memory) => Err(AllocError.into()),
        Err(refusal) => {
            rt.println(refusal)?;
            Err(anyhow!("refused"))
        }
    }
}

fn main(rt: HostRuntime) -> anyhow::Result<()> {
    let heap = rt.alloc();
    let words: Vec<String> = env::args(&rt)?.skip(1).collect(heap)?;
    tell(&rt, reply_to(heap, &words))
}
