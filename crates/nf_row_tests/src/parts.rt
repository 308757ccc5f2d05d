//! Soundness written a second time, part by part, over whole rows.
use nf_row::{JOINER, Rows};

/// The parts of soundness that a character breaks.
#[derive(Clone, Copy, Debug, PartialEq, Eq)]
pub struct Broken {
    pub length: bool,
    pub lead: bool,
    pub trail: bool,
    pub starter: bool,
    pub joiner: bool,
}

impl Broken {
    pub const NOTHING: Broken = Broken {
        length: false,
        lead: false,
        trail: false,
        starter: false,
        joiner: false,
    };
}

fn lead_of<R: Rows>(rows: &R, row: &[char]) -> usize {
    for (i, c) in row.iter().enumerate() {
        if rows.class(*c) == 0 {
            return i;
        }
    }
    row.len()
}

fn trail_of<R: Rows>(rows: &R, row: &[char]) -> usize {
    let mut run = 0usize;
    for c in row {
        run = if rows.class(*c) == 0 {
            0
        } else {
            run.saturating_add(1)
        };
    }
    run
}

fn starters_of<R: Rows>(rows: &R, row: &[char]) -> usize {
    row.iter().filter(|c| rows.class(**c) == 0).count()
}

/// Asks each part of two rows of any length.
pub fn broken_parts<R: Rows>(rows: &R, c: char, canonical: &[char], compat: &[char]) -> Broken {
    let alone = [JOINER];
    let fits = |row: &[char]| !row.is_empty() && row.len() <= 18;
    let is_plain = canonical == alone.as_slice() && compat == alone.as_slice();
    Broken {
        length: !fits(canonical) || !fits(compat),
        lead: lead_of(rows, canonical) > lead_of(rows, compat),
        trail: trail_of(rows, canonical) > trail_of(rows, compat),
        starter: starters_of(rows, canonical) == 0 && starters_of(rows, compat) > 0,
        joiner: c == JOINER && (!is_plain || rows.class(JOINER) != 0),
    }
}
