//! `measure`.
ghost use Rattle.std.specs.Prelude.{◌≡◌};
ghost use Rattle.nf_forms.specs.Ucd.{ucd};
ghost use Rattle.nf_cmd.specs.Measures.{Measures, measure_lines};

use crate::BUFFER;
use crate::fault::Fault;
use crate::lines::Lines;
use crate::writing::write_whole;
use nf_filter::{LentReader, measure_buffered};
use nf_row::Ucd;
use nf_safe::Measure;
use std::io::{Read, Write};

/// Writes what is measured of the text that the reader gives, and nothing at a fault.
pub(crate) fn measure<I: Read, O: Write>(input: &mut I, out: &mut O) -> Result<u8, Fault>
    ensures { Measures ucd (I.remaining input.old) (I.remaining input.new) (O.contents out.old) (O.contents out.new) result }
{
    let mut source = LentReader::new(input);
    let mut buffer = [0; BUFFER];
    let answer = measure_buffered(&Ucd, 0, &mut source, &mut buffer);
    write_whole(out, lines(answer).as_slice())?;
    match answer {
        Ok(_) => Ok(0),
        Err(fault) => Err(Fault::told(fault)),
    }
}

// The lines that say so, and none where the input was refused.
fn lines(answer: Result<Measure, nf_filter::Fault>) -> Lines
    ensures { result.bytes.items ≡ measure_lines answer }
{
    let mut lines = Lines::new();
    let Ok(measure) = answer else {
        return lines;
    };
    lines.named("bytes", measure.bytes as u128);
    lines.named("characters", measure.chars as u128);
    lines.named("non-starters", measure.nonstarters);
    lines.named("longest run", measure.longest);
    lines.named("put", measure.put as u128);
    lines.named("unassigned", measure.unassigned as u128);
    lines
}
