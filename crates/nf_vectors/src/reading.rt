//! A vector file as far as it was read.
ghost use Rattle.std.specs.Prelude.{◌≡◌, ◌≤◌, length};
ghost use Rattle.nf_vectors.specs.Suite.{judged};
ghost use Rattle.nf_vectors.specs.Judgement.{judgement};

use crate::fault::{VectorFault, VectorKind};
use crate::line::{Line, judge};
use crate::suite::{Entry, Suite};
use std::alloc::Global;

/// The most bytes that a vector file may have.
const LIMIT: u32 = 67_108_864;

/// The lines that were ended, and the bytes of the one that was not.
#[derive(Debug, Drop)]
pub(crate) struct Reading {
    text: Vec<char>,
    entries: Vec<Entry>,
    has_part1: bool,
    /// Whether the line is in Part 1.
    in_part1: bool,
    /// The number of the line, from 1.
    line: u32,
    /// Its bytes so far.
    bytes: Vec<u8>,
    /// How many bytes were taken in all.
    taken: u32,
}

impl Reading {
    ghost use Rattle.std.specs.Prelude.{◌<◌, ◌+◌, ◌++◌, ◌↔◌, ◌^◌, ℕ, List, [], ◌∷◌, OnOk, IsErr, IfErr, Option, true, false, vec_len};
    ghost use Rattle.nf_vectors.specs.declared.fault.VectorKind.{VectorKind};
    ghost use Rattle.nf_vectors.specs.declared.fault.VectorFault.{VectorFault};
    ghost use Rattle.nf_vectors.specs.Suite.{fault_or, first_fault};
    ghost use Rattle.nf_vectors.specs.Judgement.{Judgement, Bad, IsOfLine};
    ghost use Rattle.nf_vectors.specs.Held.{Holds};
    ghost use Rattle.nf_vectors.specs.SuiteView.{AreWithin};
    ghost use Rattle.nf_vectors.specs.Line.{lines_of};
    ghost use Rattle.nf_vectors.specs.Standing.{StandsAfter, IsWithin, EndsLine};
    ghost use Rattle.nf_vectors.specs.Limits.{block};
    ghost use Rattle.nf_vectors.specs.RunsOut.{RunsOut};
    ghost use Rattle.nf_vectors.specs.ReadsSuite.{Tells, Finds};

    pub(crate) fn new(alloc: Global) -> Reading
        ensures stands { StandsAfter result [] }
        ensures within { IsWithin result }
    {
        Reading {
            text: Vec::new(alloc),
            entries: Vec::new(alloc),
            has_part1: false,
            in_part1: false,
            line: 1,
            bytes: Vec::new(alloc),
            taken: 0,
        }
    }

    /// This fault in the line being read.
    pub(crate) fn fault(&self, kind: VectorKind) -> VectorFault
        ensures { result ≡ record { line = self.now.line; kind = kind } }
    {
        VectorFault {
            line: self.line,
            kind,
        }
    }

    /// Takes the next bytes.
    pub(crate) fn take(&mut self, piece: &[u8]) -> Result<(), VectorFault>
        requires { IsWithin self.old }
        ensures within { OnOk result (IsWithin self.new) }
        ensures taken { OnOk result (self.new.taken ≡ self.old.taken + length piece.now) }
        ensures unread { IfErr result (λ fault. ¬ (fault.kind ≡ VectorKind.Read)) }
        ensures stands { (bytes : List ℕ) → StandsAfter self.old bytes → OnOk result (StandsAfter self.new (bytes ++ piece.now)) }
        ensures finds { (bytes : List ℕ) → StandsAfter self.old bytes
            → IfErr result (λ fault. ¬ (fault.kind ≡ VectorKind.Memory) → Finds (bytes ++ piece.now) fault) }
        ensures memory { (bytes : List ℕ) → StandsAfter self.old bytes → length piece.now ≤ block
            → IfErr result (λ fault. fault.kind ≡ VectorKind.Memory → RunsOut (bytes ++ piece.now) false fault) }
    {
        for byte in piece {
            if let Err(kind) = self.take_byte(*byte) {
                return Err(self.fault(kind));
            }
        }
        Ok(())
    }

    fn take_byte(&mut self, byte: u8) -> Result<(), VectorKind>
        requires { IsWithin self.old }
        ensures within { OnOk result (IsWithin self.new) }
        ensures taken { OnOk result (self.new.taken ≡ self.old.taken + 1) }
        ensures line { IsErr result → self.new.line ≡ self.old.line }
        ensures unread { IfErr result (λ kind. ¬ (kind ≡ VectorKind.Read)) }
        ensures size { (result ≡ Err VectorKind.Size) ↔ (self.old.taken ≡ 67108864) }
        ensures stands { (bytes : List ℕ) → StandsAfter self.old bytes → OnOk result (StandsAfter self.new (bytes ++ byte ∷ [])) }
        ensures finds { (bytes : List ℕ) → StandsAfter self.old bytes → IfErr result (λ kind. ¬ (kind ≡ VectorKind.Memory) → ¬ (kind ≡ VectorKind.Size)
            → (stop : Option VectorKind) (more : List ℕ) → first_fault 1 stop (lines_of (bytes ++ byte ∷ more)) ≡ Some (record { line = self.old.line; kind = kind })) }
    {
        if self.taken == LIMIT {
            return Err(VectorKind::Size);
        }
        self.taken += 1;
        if byte == b'\n' {
            return self.end_line();
        }
        self.bytes.push(byte).map_err(|_| VectorKind::Memory)
    }

    /// Judges the line.
    fn end_line(&mut self) -> Result<(), VectorKind>
        requires first { 1 ≤ self.old.line }
        requires line { self.old.line < 2 ^ 31 }
        requires text { length self.old.text.items + length self.old.bytes.items < 2 ^ 32 }
        requires entries { vec_len self.old.entries < 2 ^ 31 }
        requires columns { AreWithin self.old.text.items self.old.entries.items }
        ensures rest { OnOk result ((self.new.line ≡ self.old.line + 1) × (self.new.taken ≡ self.old.taken) × (self.new.bytes.items ≡ [])) }
        ensures entries { OnOk result (length self.new.entries.items ≤ length self.old.entries.items + 1) }
        ensures text { OnOk result (length self.new.text.items ≤ length self.old.text.items + length self.old.bytes.items) }
        ensures line { IsErr result → self.new.line ≡ self.old.line }
        ensures columns { OnOk result (AreWithin self.new.text.items self.new.entries.items) }
        ensures ends { OnOk result (EndsLine (judged self.old.line self.old.bytes.items) self.old self.new) }
        ensures fine { (other : Option VectorFault) → OnOk result (fault_or self.old.line (judged self.old.line self.old.bytes.items) other ≡ other) }
        ensures bad { IfErr result (λ kind. ¬ (kind ≡ VectorKind.Memory) → judged self.old.line self.old.bytes.items ≡ Bad kind) }
        ensures faults { IfErr result IsOfLine }
    {
        let held = judge(unmarked(self.line, self.bytes.as_slice()), &mut self.text)?;
        self.hold(held)?;
        self.line += 1;
        self.bytes.clear();
        Ok(())
    }

    /// Keeps what the line holds, of which the code points stand in the text.
    fn hold(&mut self, held: Line) -> Result<(), VectorKind>
        requires { vec_len self.old.entries < 2 ^ 31 }
        ensures same { (self.new.line ≡ self.old.line) × (self.new.taken ≡ self.old.taken) × (self.new.bytes ≡ self.old.bytes) × (self.new.text ≡ self.old.text) }
        ensures entries { length self.new.entries.items ≤ length self.old.entries.items + 1 }
        ensures holds { (judged : Judgement) → Holds held self.old.text.items judged → OnOk result (EndsLine judged self.old self.new) }
        ensures columns { (judged : Judgement) → Holds held self.old.text.items judged → AreWithin self.old.text.items self.old.entries.items
            → OnOk result (AreWithin self.new.text.items self.new.entries.items) }
        ensures err { IfErr result (λ kind. kind ≡ VectorKind.Memory) }
    {
        match held {
            Line::Nothing => Ok(()),
            Line::Part { is_part1 } => {
                self.in_part1 = is_part1;
                self.has_part1 = self.has_part1 || is_part1;
                Ok(())
            }
            Line::Row(columns) => {
                let entry = Entry {
                    line: self.line,
                    in_part1: self.in_part1,
                    columns,
                };
                self.entries.push(entry).map_err(|_| VectorKind::Memory)
            }
        }
    }

    /// The suite of all that was taken: the last line ends here.
    pub(crate) fn finish(self) -> Result<Suite, VectorFault>
        requires { IsWithin self }
        ensures unread { IfErr result (λ fault. ¬ (fault.kind ≡ VectorKind.Read)) }
        ensures tells { (bytes : List ℕ) → StandsAfter self bytes → Tells bytes false result }
        ensures memory { (bytes : List ℕ) → StandsAfter self bytes → IfErr result (λ fault. fault.kind ≡ VectorKind.Memory → RunsOut bytes true fault) }
    {
        let mut reading = self;
        if let Err(kind) = reading.end_line() {
            return Err(reading.fault(kind));
        }
        Ok(Suite {
            text: reading.text,
            entries: reading.entries,
            has_part1: reading.has_part1,
        })
    }
}

/// A line by its number: the byte order mark before the first does not count.
fn unmarked(line: u32, bytes: &[u8]) -> &[u8]
    requires { 1 ≤ line }
    ensures text { judged line bytes.now ≡ judgement result.now }
    ensures len { length result.now ≤ length bytes.now }
{
    if line > 1 {
        return bytes;
    }
    bytes.strip_prefix(&[0xEF, 0xBB, 0xBF]).unwrap_or(bytes)
}
