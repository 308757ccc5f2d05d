use crate::status::Status;
use nf_filter::Fault;

/// How a call ended, how many bytes it read and wrote, and the place of a fault: the offset of the byte, and of where its
/// character began.
#[derive(Clone, Copy, Debug, PartialEq, Eq)]
pub struct Moved {
    pub status: Status,
    pub read: usize,
    pub written: usize,
    pub at: u64,
    pub start: u64,
}

impl Moved {
    ghost use Rattle.std.specs.Prelude.{◌≡◌};
    ghost use Rattle.nf_c.specs.Moved.{moved, ended, read_before};

    /// A call that read so many bytes of an input of `len`, the first of which has this offset. Where a fault in the input
    /// ended it, it tells how many stand before that.
    pub fn within(
        fault: Option<Fault>,
        offset: u64,
        len: usize,
        read: usize,
        written: usize,
    ) -> Moved
        ensures { result ≡ ended fault (read_before fault offset len read) written }
    {
        let before = match fault {
            Some(Fault::BadByte { at, .. } | Fault::Unassigned { at }) => {
                at.saturating_sub(offset).min(len as u64) as usize
            }
            _ => read,
        };
        Moved::ended(fault, before, written)
    }

    /// A call that met no fault.
    pub fn of(status: Status, read: usize, written: usize) -> Moved
        ensures { result ≡ moved status read written }
    {
        Moved {
            status,
            read,
            written,
            at: 0,
            start: 0,
        }
    }

    /// A call that a fault ended, or none.
    pub fn ended(fault: Option<Fault>, read: usize, written: usize) -> Moved
        ensures { result ≡ ended fault read written }
    {
        match fault {
            None => Moved::of(Status::Done, read, written),
            Some(fault) => Moved::by(fault, read, written),
        }
    }

    /// A call that a fault ended.
    pub fn by(fault: Fault, read: usize, written: usize) -> Moved
        ensures { result ≡ ended (Some fault) read written }
    {
        let (status, at, start) = match fault {
            Fault::Spent => (Status::Spent, 0, 0),
            Fault::TooLong => (Status::TooLong, 0, 0),
            Fault::Read => (Status::NoState, 0, 0),
            Fault::Write => (Status::Full, 0, 0),
            Fault::Row { at } => (Status::NoState, at, at),
            Fault::BadByte { at, start } => (Status::BadByte, at, start),
            Fault::Cut { at, start } => (Status::Cut, at, start),
            Fault::Unassigned { at } => (Status::Unassigned, at, at),
        };
        Moved {
            status,
            read,
            written,
            at,
            start,
        }
    }
}
