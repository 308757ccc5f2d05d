//! Many short texts of hostile mixtures, made from seeds, in pieces of made-up sizes: by data of which all is known and of
//! which nothing is, the same is written, and held, after each piece.
ghost use Rattle.std.specs.Prelude.{◌<◌};

use crate::both_ways::same_over;
use crate::mixtures::{cut, push_part};
use nf_filter::Fault;
use nf_filter_fixtures::FORMS;
use nf_row::{Patched, Plain};
use nf_seeded::Seeded;
use std::alloc::{AllocError, Global};
use std::process::Abort;
use std::test::Fail;

/// A text of up to four parts, with a byte that is ill-formed in one of eight.
fn short_text(alloc: Global, seeded: &mut Seeded) -> Result<(Vec<u8>, bool), AllocError> {
    let mut text = String::new(alloc);
    for _ in 0..=seeded.below(4) {
        push_part(&mut text, seeded)?;
    }
    let mut bytes = text.into_bytes();
    let is_ill_formed = seeded.below(8) == 0;
    if is_ill_formed {
        let at = seeded.place(bytes.len());
        bytes.insert(at, 0xFF)?;
    }
    Ok((bytes, is_ill_formed))
}

fn check_seeds(rt: &impl Abort, alloc: Global, first: u64, end: u64) -> Result<(), AllocError>
    requires { 0 < first }
{
    let rows = Patched::new(&[]);
    let unchanged = Plain::of(&rows).expect(rt, "plain");
    for seed in first..end {
        let mut seeded = Seeded::new(seed);
        let (text, is_ill_formed) = short_text(alloc, &mut seeded)?;
        let pieces = cut(alloc, &mut seeded, text.as_slice())?;
        let form = FORMS[(seed % 4) as usize];
        let answer = same_over(rt, alloc, unchanged, form, pieces.as_slice());
        let is_bad = matches!(answer, Err(Fault::BadByte { .. }));
        assert!(rt;
            is_bad == is_ill_formed && (is_bad || answer.is_ok()),
            "seed {seed}, {form:?}: {answer:?}"
        );
    }
    Ok(())
}

#[test]
fn short_mixtures_go_the_same_way(rt: HostRuntime) -> Result<(), Fail> {
    check_seeds(&rt, rt.alloc(), 1, 100_000)?;
    Ok(())
}

#[test]
fn more_short_mixtures_go_the_same_way(rt: HostRuntime) -> Result<(), Fail> {
    check_seeds(&rt, rt.alloc(), 100_000, 200_000)?;
    Ok(())
}
