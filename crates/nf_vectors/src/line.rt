//! One line, judged alone.
ghost use Rattle.std.specs.Prelude.{◌≡◌, ◌+◌, ◌<◌, ◌≤◌, ◌^◌, ◌++◌, length, List, ℕ, OnOk, IfOk, IfErr, MatchResult, MatchOption, Err};
ghost use Rattle.std.specs.List.{list_all};
ghost use Rattle.nf_vectors.specs.Judgement.{Bad, IsOfLine, judgement, columns_of, row_in};
ghost use Rattle.nf_vectors.specs.Words.{column_in};
ghost use Rattle.nf_vectors.specs.Line.{is_blank};
ghost use Rattle.nf_vectors.specs.Held.{Holds, HoldsRow, HoldsColumn, Grows};

use crate::columns::{Columns, Ends};
use crate::fault::VectorKind;
use crate::scan::{before_gap, content, cut, is_blank, is_gap};
use crate::word::code_point;

/// What a line holds. The code points of a row stand in the text of the suite.
#[derive(Clone, Copy, Debug)]
pub(crate) enum Line {
    Nothing,
    Part { is_part1: bool },
    Row(Ends),
}

/// Judges a line without its end. The code points of a row go after `text`.
pub(crate) fn judge(line: &[u8], text: &mut Vec<char>) -> Result<Line, VectorKind>
    requires { length text.old.items + length line.now < 2 ^ 32 }
    ensures grows { OnOk result (Grows text.old.items text.new.items) }
    ensures len { OnOk result (length text.new.items ≤ length text.old.items + length line.now) }
    ensures judged { MatchResult result (λ held. Holds held text.new.items (judgement line.now))
        (λ kind. ¬ (kind ≡ VectorKind.Memory) → judgement line.now ≡ Bad kind) }
    ensures faults { IfErr result IsOfLine }
{
    let said = content(line);
    let Some((first, name)) = said.split_first() else {
        return Ok(Line::Nothing);
    };
    if *first == b'@' {
        let is_part1 = before_gap(name) == b"Part1".as_slice();
        return Ok(Line::Part { is_part1 });
    }
    Ok(Line::Row(row(said, text)?))
}

fn row(line: &[u8], text: &mut Vec<char>) -> Result<Ends, VectorKind>
    requires { length text.old.items + length line.now < 2 ^ 32 }
    ensures grows { OnOk result (Grows text.old.items text.new.items) }
    ensures len { OnOk result (length text.new.items ≤ length text.old.items + length line.now) }
    ensures holds { MatchResult result (λ ends. HoldsRow ends text.new.items (row_in line.now))
        (λ kind. ¬ (kind ≡ VectorKind.Memory) → row_in line.now ≡ Err kind) }
    ensures faults { IfErr result IsOfLine }
{
    let Some(pieces) = pieces_of(line) else {
        return Err(VectorKind::Fields);
    };
    let start = text.len() as u32;
    let source = push_column(pieces.source, text)?;
    let nfc = push_column(pieces.nfc, text)?;
    let nfd = push_column(pieces.nfd, text)?;
    let nfkc = push_column(pieces.nfkc, text)?;
    let nfkd = push_column(pieces.nfkd, text)?;
    Ok(Ends {
        start,
        source,
        nfc,
        nfd,
        nfkc,
        nfkd,
    })
}

/// Cuts a row at each `;`, and looks whether there are five pieces, or a sixth of blanks alone.
fn pieces_of(line: &[u8]) -> Option<Columns<&[u8]>>
    ensures pieces { MatchOption result (row_in line.now ≡ Err VectorKind.Fields)
        (λ p. row_in line.now ≡ columns_of p.source.now p.nfc.now p.nfd.now p.nfkc.now p.nfkd.now) }
    ensures len { MatchOption result (0 ≤ length line.now)
        (λ p. length p.source.now + length p.nfc.now + length p.nfd.now + length p.nfkc.now + length p.nfkd.now ≤ length line.now) }
{
    let (source, rest) = cut(line, b';')?;
    let (nfc, rest) = cut(rest, b';')?;
    let (nfd, rest) = cut(rest, b';')?;
    let (nfkc, rest) = cut(rest, b';')?;
    let nfkd = match cut(rest, b';') {
        None => rest,
        Some((nfkd, last)) => {
            if !is_all_blank(last) {
                return None;
            }
            nfkd
        }
    };
    Some(Columns {
        source,
        nfc,
        nfd,
        nfkc,
        nfkd,
    })
}

fn is_all_blank(bytes: &[u8]) -> bool
    ensures { result ≡ list_all is_blank bytes.now }
{
    bytes.iter().all(|byte| is_blank(*byte))
}

/// Puts the code points of a column after `text`, and answers where they end.
fn push_column(column: &[u8], text: &mut Vec<char>) -> Result<u32, VectorKind>
    requires { length text.old.items + length column.now < 2 ^ 32 }
    ensures len { IfOk result (λ end. (end ≡ length text.new.items) × (length text.old.items ≤ end) × (end ≤ length text.old.items + length column.now)) }
    ensures column { MatchResult result (λ end. HoldsColumn text.old.items text.new.items (column_in column.now))
        (λ kind. ¬ (kind ≡ VectorKind.Memory) → column_in column.now ≡ Err kind) }
    ensures faults { IfErr result IsOfLine }
{
    let start = text.len();
    for word in column.split(|byte| is_gap(*byte)) {
        if word.is_empty() {
            continue;
        }
        let c = code_point(word)?;
        match text.push(c) {
            Ok(()) => {}
            Err(_) => return Err(VectorKind::Memory),
        }
    }
    if text.len() == start {
        return Err(VectorKind::Empty);
    }
    Ok(text.len() as u32)
}
