//! Why a run did not do what it was asked for, and what the program says of it.
ghost use Rattle.std.specs.Prelude.{◌≡◌, Some};

use nf_vectors::{VectorFault, VectorKind};
use std::fmt;

/// Offsets are in bytes, from the start of the input.
#[derive(Clone, Copy, Debug, PartialEq, Eq)]
pub(crate) enum Fault {
    /// The character at `at` is unsound, or U+034F is to be put before it and is unsound.
    Row { at: u64 },
    /// The character at `at` is not assigned, and such are refused.
    Unassigned { at: u64 },
    /// The byte at `at` is the first that is ill-formed; the character that it breaks began at `start`.
    BadByte { at: u64, start: u64 },
    /// The input ends at `at`, inside a character that began at `start`.
    Cut { at: u64, start: u64 },
    /// The input failed.
    Read,
    /// The output failed.
    Write,
    /// Memory ran out.
    Memory,
    /// The input is longer than offsets can count, or than a vector file may be.
    TooLong,
    /// This line of a vector file, from 1, is none of its layout.
    Line { line: u32, fault: LineFault },
}

/// What is wrong with a line of a vector file.
#[derive(Clone, Copy, Debug, PartialEq, Eq)]
pub(crate) enum LineFault {
    /// It has not five columns.
    Fields,
    /// A column is empty.
    Empty,
    /// A word is no number of 1 to 6 hexadecimal digits.
    Hex,
    /// A number is no scalar value.
    Scalar,
}

impl Fault {
    ghost use Rattle.nf_filter.specs.declared.fault.Fault.TheVariants.{Spent};
    ghost use Rattle.nf_cmd.specs.Faults.{told, told_of_file};
    ghost use Rattle.nf_cmd.specs.Lines.{fault_status};

    /// What is said of a fault that the library found. A filter that is used once is never found spent.
    pub(crate) fn told(fault: nf_filter::Fault) -> Fault
        requires { ¬ (fault ≡ Spent) }
        ensures { Some result ≡ told fault }
    {
        match fault {
            nf_filter::Fault::Spent => unreachable!(),
            nf_filter::Fault::TooLong => Fault::TooLong,
            nf_filter::Fault::Read => Fault::Read,
            nf_filter::Fault::Write => Fault::Write,
            nf_filter::Fault::Row { at } => Fault::Row { at },
            nf_filter::Fault::Unassigned { at } => Fault::Unassigned { at },
            nf_filter::Fault::BadByte { at, start } => Fault::BadByte { at, start },
            nf_filter::Fault::Cut { at, start } => Fault::Cut { at, start },
        }
    }

    /// What is said of a vector file that the library refused.
    pub(crate) fn told_of_file(fault: VectorFault) -> Fault
        ensures { result ≡ told_of_file fault }
    {
        let VectorFault { line, kind } = fault;
        let fault = match kind {
            VectorKind::Fields => LineFault::Fields,
            VectorKind::Empty => LineFault::Empty,
            VectorKind::Hex => LineFault::Hex,
            VectorKind::Scalar => LineFault::Scalar,
            VectorKind::Size => return Fault::TooLong,
            VectorKind::Read => return Fault::Read,
            VectorKind::Memory => return Fault::Memory,
        };
        Fault::Line { line, fault }
    }

    /// The status that the program ends with.
    pub(crate) fn status(self) -> u8
        ensures { result ≡ fault_status self }
    {
        match self {
            Fault::Row { .. } | Fault::Unassigned { .. } => 3,
            Fault::BadByte { .. } | Fault::Cut { .. } | Fault::Line { .. } => 3,
            Fault::Read | Fault::Write => 4,
            Fault::Memory => 5,
            Fault::TooLong => 6,
        }
    }
}

impl fmt::Display for Fault {
    ghost use Rattle.nf_cmd.specs.Lines.{message_of};

    ghost output = { λ f. Some (message_of f) };

    fn fmt<W: fmt::Write>(&self, f: &mut fmt::Formatter<W>) -> fmt::Result {
        match self {
            Fault::Row { at } => write!(f, "unsound row at {at}"),
            Fault::Unassigned { at } => write!(f, "unassigned character at {at}"),
            Fault::BadByte { at, start } => {
                write!(f, "ill-formed byte at {at}, character begun at {start}")
            }
            Fault::Cut { at, start } => {
                write!(f, "input ends at {at} inside a character begun at {start}")
            }
            Fault::Read => f.write_str("read failed"),
            Fault::Write => f.write_str("write failed"),
            Fault::Memory => f.write_str("out of memory"),
            Fault::TooLong => f.write_str("input too long"),
            Fault::Line { line, fault } => write!(f, "line {line}: {fault}"),
        }
    }
}

impl fmt::Display for LineFault {
    ghost use Rattle.nf_cmd.specs.Lines.{line_message_of};

    ghost output = { λ f. Some (line_message_of f) };

    fn fmt<W: fmt::Write>(&self, f: &mut fmt::Formatter<W>) -> fmt::Result {
        f.write_str(match self {
            LineFault::Fields => "fields",
            LineFault::Empty => "empty",
            LineFault::Hex => "hex",
            LineFault::Scalar => "scalar",
        })
    }
}
