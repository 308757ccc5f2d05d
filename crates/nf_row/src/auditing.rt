ghost use Rattle.std.specs.Prelude.{◌≡◌, ◌<◌, ◌↔◌, [], ◌∷◌, length, flat_map, IsTrue, IsOk, IfErr, IfSome, IsNone};
ghost use Rattle.nf_forms.specs.Forms.{row_of};
ghost use Rattle.nf_forms.specs.Order.{order};
ghost use Rattle.nf_forms.specs.Audit.{IsFullText, AreOwnMarks, IsAudited};
ghost use Rattle.nf_row.specs.Audit.{IsFirstFailed, IsLeastFault};

use crate::lending::is_own_row;
use crate::ordering::ordered;
use crate::rows::{Row, Rows};
use crate::soundness::sound;
use crate::unsound::{Rule, Unsound};
use nf_facts::laws;
use nf_forms::Form;

/// The least number that is above every scalar value.
const CODES: u32 = 0x11_0000;

/// Looks at each scalar value: its rows must be full decompositions (The Unicode Standard, section 3.7, D65 and D68), the
/// canonical one within the compatibility one, and short at their ends ([`Rule`]). Over such data a form of NFD or NFKD
/// is stream-safe where its source is, and changes no more. The refusal has the least scalar value that fails, and the
/// first rule that it fails. Nothing is looked up where the data is known to pass, as `Ucd` is.
pub fn audit<R: Rows>(rows: &R) -> Result<(), Unsound>
    ensures audited { IsOk result ↔ IsAudited (R.properties rows.now) }
    ensures fault { IfErr result (IsLeastFault (R.properties rows.now)) }
{
    laws::the_data_is_audited();
    if rows.is_ucd() {
        return Ok(());
    }
    for code in 0..CODES {
        let Some(c) = char::from_u32(code) else {
            continue;
        };
        if let Some(rule) = first_failed(rows, c) {
            return Err(Unsound { c, rule });
        }
    }
    Ok(())
}

/// The first rule that `c` fails.
fn first_failed<R: Rows>(rows: &R, c: char) -> Option<Rule>
    ensures { IsFirstFailed (R.properties rows.now) c result }
{
    if !sound(rows, c) {
        return Some(Rule::A1);
    }
    // No row of a sound character is too long.
    let (Ok(canonical), Ok(compat)) = (rows.canonical(c), rows.compat(c)) else {
        return Some(Rule::A1);
    };
    if !is_full(rows, Form::Nfd, &canonical) || !is_full(rows, Form::Nfkd, &compat) {
        return Some(Rule::A2);
    }
    if !is_within(rows, &canonical, &compat) {
        return Some(Rule::A3);
    }
    if !has_own_marks(rows, &canonical) {
        return Some(Rule::A4);
    }
    None
}

/// Whether each member is its own row, of the kind that the form asks for. Each is a scalar value, as a `char` is.
fn is_full<R: Rows>(rows: &R, form: Form, row: &Row) -> bool
    ensures { IsTrue result ↔ IsFullText (row_of form (R.properties rows.now)) row.now.items }
{
    row.as_slice().iter().all(|c| is_own_row(rows, form, *c))
}

/// Whether the compatibility rows of the members of `canonical` make up `compat`, both put in order.
fn is_within<R: Rows>(rows: &R, canonical: &Row, compat: &Row) -> bool
    ensures { let p = R.properties rows.now in
        IsTrue result ↔ (order p (flat_map p.compat canonical.now.items) ≡ order p compat.now.items) }
{
    let whole = ordered(rows, compat);
    let whole = whole.as_slice();
    match joined(rows, canonical) {
        Some(members) => ordered(rows, &members).as_slice() == whole,
        // They are more than any row has.
        None => false,
    }
}

/// Whether each non-starter among the members is its own compatibility row.
fn has_own_marks<R: Rows>(rows: &R, row: &Row) -> bool
    ensures { IsTrue result ↔ AreOwnMarks (R.properties rows.now) row.now.items }
{
    row.as_slice().iter().all(|c| rows.class(*c) == 0 || is_own_row(rows, Form::Nfkd, *c))
}

/// The compatibility rows of the members, one after the other. None where they have more than 18 members together.
fn joined<R: Rows>(rows: &R, row: &Row) -> Option<Row>
    ensures some { IfSome result (λ joined. joined.items ≡ flat_map (R.properties rows.now).compat row.now.items) }
    ensures none { IsNone result → 18 < length (flat_map (R.properties rows.now).compat row.now.items) }
{
    let mut joined = Row::new();
    for c in row.as_slice() {
        let Ok(compat) = rows.compat(*c) else {
            return None;
        };
        if joined.try_extend_from_slice(compat.as_slice()).is_err() {
            return None;
        }
    }
    Some(joined)
}
