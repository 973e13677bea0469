// Shows a whole file: a line for each record that its words complete, and then the line of its fault, if it has one.
ghost use Rattle.std.specs.Prelude.{[]};
ghost use Rattle.monthfile.specs.View.{standing_of};
ghost use Rattle.dumping.specs.Dumping.{Dumped, FileShown, Shown};
ghost use Rattle.dumping.specs.Records.{RecordsOfFile};
ghost use Rattle.dumping.specs.Stages.{WordShown};

use crate::fault::DumpFault;
use crate::taking::take_word;
use input::FileWords;
use lines::FaultLine;
use monthfile::Reader;
use std::alloc::Global;
use std::io::{Read, Write};

// Writes a line for each record, in the file's order, as its words are judged. At the first fault its line is the last.
pub fn dump<R: Read + Drop, W: Write>(heap: Global, input: R, out: &mut W) -> Result<(), DumpFault>
    ensures shown { Dumped (R.remaining input) (W.contents out.old) result (W.contents out.new) }
    ensures file { FileShown (R.remaining input) (W.contents out.old) result (W.contents out.new) }
    ensures order { RecordsOfFile }
{
    let Err(fault) = dump_records(heap, input, out) else {
        return Ok(());
    };
    if let Some(told) = fault.told() {
        let line = FaultLine(told);
        writeln!(out, "{line}")?;
    }
    Err(fault)
}

// Writes the lines of the records alone, up to the first fault, in the words or at the file's end.
fn dump_records<R: Read + Drop, W: Write>(
    heap: Global,
    input: R,
    out: &mut W,
) -> Result<(), DumpFault>
    ensures { Shown (R.remaining input) (W.contents out.old) result [] (W.contents out.new) }
{
    let mut file = FileWords::new(heap, input)?;
    let mut reader = Reader::new(heap);
    // No `for`: `FileWords::next` says why the words of a file are no Iterator.
    while let Some((place, bits)) = file.next()? {
        dump_word(&mut reader, place, bits, out)?;
    }
    Ok(reader.check_end(file.number(), file.left_over())?)
}

// Writes the line of the record that the word at this place completes, if it completes one.
fn dump_word<W: Write>(
    reader: &mut Reader,
    place: u64,
    bits: u32,
    out: &mut W,
) -> Result<(), DumpFault>
    ensures { WordShown (standing_of reader.old) place bits (W.contents out.old) result (standing_of reader.new) (W.contents out.new) }
{
    if let Some(record) = take_word(reader, place, bits)? {
        writeln!(out, "{record}")?;
    }
    Ok(())
}
