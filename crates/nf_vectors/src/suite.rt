ghost use Rattle.std.specs.Prelude.{◌≡◌, ◌<◌, ◌≤◌, true, nat_le, vec_len, length};
ghost use Rattle.std.specs.List.{list_all};

use crate::columns::Ends;
use crate::fault::{VectorFault, VectorKind};
use crate::reading::Reading;
use nf_filter::{Failed, Source};
use std::alloc::Global;

/// What is read of a source at once, in bytes.
const BLOCK: usize = 4096;

/// The rows of a vector file.
#[derive(Debug, Drop)]
pub struct Suite {
    /// The code points of all columns, one after the other.
    pub(crate) text: Vec<char>,
    pub(crate) entries: Vec<Entry>,
    pub(crate) has_part1: bool,
    ghost within: { list_all (λ entry. nat_le entry.columns.nfkd (length text.items)) entries.items ≡ true },
    ghost few: { vec_len entries ≤ 67108865 },
}

/// One row: its line, from 1, whether it is in Part 1, and where its columns stand.
#[derive(Clone, Copy, Debug)]
pub(crate) struct Entry {
    pub(crate) line: u32,
    pub(crate) in_part1: bool,
    pub(crate) columns: Ends,
}

impl Suite {
    ghost use Rattle.std.specs.Prelude.{◌↔◌, IsTrue, IsErrAnd};
    ghost use Rattle.nf_vectors.specs.SuiteView.{has_part1_of};
    ghost use Rattle.nf_vectors.specs.ReadsSuite.{ReadsSuite};

    /// Reads a vector file of at most 67,108,864 bytes to its end. The first fault in reading is the one that is told.
    pub fn read<I: Source>(alloc: Global, source: &mut I) -> Result<Suite, VectorFault>
        ensures failed { IsTrue (I.state source.new).is_failed ↔ IsErrAnd result (λ fault. fault.kind ≡ VectorKind.Read) }
        ensures reads { ReadsSuite (I.state source.old) (I.state source.new) result }
        ensures lender { (I.state source.new).lender ≡ (I.state source.old).lender }
    {
        let mut reading = Reading::new(alloc);
        let mut block = [0; BLOCK];
        loop {
            let given = match source.get(&mut block) {
                Ok(given) => given,
                Err(Failed) => return Err(reading.fault(VectorKind::Read)),
            };
            if given == 0 {
                return reading.finish();
            }
            if let Err(fault) = reading.take(&block[..given]) {
                return Err(fault);
            }
        }
    }

    /// Whether some line names Part 1.
    #[inline]
    pub fn has_part1(&self) -> bool
        ensures { result ≡ has_part1_of self.now }
    {
        self.has_part1
    }
}
