ghost use Rattle.std.specs.Prelude.{◌≡◌, IfSome};
ghost use Rattle.nf_entry.specs.Entry.{IsEntry, IsOfFirst};
ghost use Rattle.nf_span.specs.Split.{counts_as_mark, SplitsAtStarter};

use nf_entry::Entry;

/// The text in two, before its last starter that counts as no mark, if there is one, with the entry of that.
#[inline]
pub(crate) fn split_last_starter(text: &str) -> (&str, &str, Option<Entry>)
    ensures splits { SplitsAtStarter text.now result.0.now result.1.now }
    ensures known { IfSome result.2 (IsOfFirst result.1.now) }
{
    let mut chars = text.chars();
    while let Some(c) = chars.next_back() {
        let before = chars.as_str();
        let known = Entry::of(c);
        if !counts_as_mark(c, known) {
            let (front, back) = text.split_at(before.len());
            return (front, back, Some(known));
        }
    }
    ("", text, None)
}

/// Whether `c` is a non-starter, or a starter of which NFKD has non-starters alone.
#[inline]
fn counts_as_mark(_c: char, known: Entry) -> bool
    requires { IsEntry _c known }
    ensures { result ≡ counts_as_mark _c }
{
    known.class() != 0 || known.begins_with_mark()
}
