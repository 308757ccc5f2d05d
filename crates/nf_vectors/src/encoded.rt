//! The columns of one row: their code points, and their UTF-8.
ghost use Rattle.std.specs.Prelude.{◌≡◌, ◌≤◌, ◌<◌, ◌^◌, length, slice_range, encode_utf8_all, string_bytes, OnOk};

use crate::columns::{Column, Columns, Ends};
use std::alloc::{AllocError, Global};

impl<'a> Columns<&'a [char]> {
    ghost use Rattle.nf_vectors.specs.Held.{columns_at as columns_in};
    ghost use Rattle.nf_vectors.specs.Columns.{each, AreShort};

    /// Those that stand in `text`.
    pub(crate) fn of(text: &'a [char], ends: Ends) -> Columns<&'a [char]>
        requires { ends.nfkd ≤ length text.now }
        ensures columns { each result (λ column. column.now) ≡ columns_in text.now ends }
        ensures short { AreShort (each result (λ column. column.now)) }
    {
        Columns {
            source: &text[ends.start as usize..ends.source as usize],
            nfc: &text[ends.source as usize..ends.nfc as usize],
            nfd: &text[ends.nfc as usize..ends.nfd as usize],
            nfkc: &text[ends.nfd as usize..ends.nfkc as usize],
            nfkd: &text[ends.nfkc as usize..ends.nfkd as usize],
        }
    }
}

impl Columns<String> {
    ghost use Rattle.std.specs.Prelude.{IsOk};
    ghost use Rattle.nf_vectors.specs.Columns.{at, each};

    /// Buffers that serve one row after the other.
    pub(crate) fn new(alloc: Global) -> Columns<String> {
        Columns {
            source: String::new(alloc),
            nfc: String::new(alloc),
            nfd: String::new(alloc),
            nfkc: String::new(alloc),
            nfkd: String::new(alloc),
        }
    }

    /// Encodes the columns of a row in the place of those before.
    pub(crate) fn encode(&mut self, columns: Columns<&[char]>) -> Result<(), AllocError>
        ensures { OnOk result (each self.new string_bytes ≡ each columns.entry (λ column. encode_utf8_all column.now)) }
    {
        encode(columns.source, &mut self.source)?;
        encode(columns.nfc, &mut self.nfc)?;
        encode(columns.nfd, &mut self.nfd)?;
        encode(columns.nfkc, &mut self.nfkc)?;
        encode(columns.nfkd, &mut self.nfkd)
    }

    /// The text of a column.
    pub(crate) fn at(&self, column: Column) -> &str
        ensures { result.now ≡ at (each self.now string_bytes) column }
    {
        let text = match column {
            Column::Source => &self.source,
            Column::Nfc => &self.nfc,
            Column::Nfd => &self.nfd,
            Column::Nfkc => &self.nfkc,
            Column::Nfkd => &self.nfkd,
        };
        text.as_str()
    }
}

fn encode(column: &[char], out: &mut String) -> Result<(), AllocError>
    ensures { OnOk result (string_bytes out.new ≡ encode_utf8_all column.now) }
{
    out.clear();
    for c in column {
        out.push(*c)?;
    }
    Ok(())
}
