ghost use Rattle.nf_forms.specs.Ucd.{ucd};
ghost use Rattle.nf_counts.specs.Counts.{IsCountedFront};

use crate::counts::Counts;
use crate::scan::Scan;

/// A text in two, and the non-starters that the compatibility decomposition of the front has.
#[derive(Clone, Copy, Debug)]
pub struct Counted<'t> {
    pub front: &'t str,
    pub rest: &'t str,
    pub counts: Counts,
}

/// The front of the text of which one look-up for each character tells the non-starters, for the data of the Unicode Character
/// Database: it ends before a character with which more than 30 non-starters would stand in a row, or more than `room` before
/// the first starter.
pub fn counted_front(room: u32, text: &str) -> Counted<'_>
    ensures { IsCountedFront ucd room text.now result }
{
    let mut scan = Scan::new(text);
    scan.pass_front(room);
    let (front, rest) = text.split_at(scan.at);
    Counted {
        front,
        rest,
        counts: scan.counts,
    }
}
