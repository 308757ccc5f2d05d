use nf_row::Change::{Canonical, Class, Compat};
use nf_row::{Change, JOINER, Long, Patched, Row, Rows, Rule, Ucd, Unsound, audit};
use unicode_normalization::Form as TableForm;
use unicode_normalization::char::{canonical_combining_class, decomposition};

const ACUTE: char = '\u{301}';

const DOT_BELOW: char = '\u{323}';

const GRAVE: char = '\u{300}';

const NINETEEN: [char; 19] = ['a'; 19];

const TEN: [char; 10] = ['a'; 10];

/// Data in which each character is a starter that is its own row.
struct Plainest;

impl Rows for Plainest {
    ghost use Rattle.std.specs.Prelude.{[], ◌∷◌, None, true};

    ghost properties = { λ _. record { class = λ _. 0; canonical = λ c. c ∷ []; compat = λ c. c ∷ []; pair = λ _ _. None; assigned = λ _. true } };

    fn class(&self, _c: char) -> u8 {
        0
    }

    fn canonical(&self, c: char) -> Result<Row, Long> {
        let mut row = Row::new();
        row.push(c);
        Ok(row)
    }

    fn compat(&self, c: char) -> Result<Row, Long> {
        let mut row = Row::new();
        row.push(c);
        Ok(row)
    }

    fn pair(&self, _a: char, _b: char) -> Option<char> {
        None
    }

    fn assigned(&self, _c: char) -> bool {
        true
    }
}

/// The character and the rule that an audit of the data under these changes names; none where it passes.
fn fault_of(changes: &[Change<'_>]) -> Option<(char, Rule)> {
    match audit(&Patched::new(changes)) {
        Ok(()) => None,
        Err(Unsound { c, rule }) => Some((c, rule)),
    }
}

/// Rows of 'x', and the first rule that they fail.
#[test]
fn the_first_rule_is_named(rt: HostRuntime) {
    let cases: [(&[char], &[char], Rule); 8] = [
        // Too long; a mark at the front of the canonical row alone.
        (&['x'], &NINETEEN, Rule::A1),
        (&[ACUTE, 'y'], &['x'], Rule::A1),
        // A member that decomposes: U+00C5 canonically, U+FB01 in the compatibility forms alone. Then A3 fails too.
        (&['\u{C5}'], &['A', '\u{30A}'], Rule::A2),
        (&['x'], &['\u{FB01}'], Rule::A2),
        (&['\u{C5}'], &['b'], Rule::A2),
        // Another text; two marks of one class in another order; more members than a row has.
        (&['y'], &['z'], Rule::A3),
        (&['a', ACUTE, GRAVE], &['a', GRAVE, ACUTE], Rule::A3),
        (&['\u{1F1E6}', '\u{1F1E6}'], &['a'], Rule::A3),
    ];
    for (canonical, compat, rule) in cases {
        let changes = [
            Canonical('x', canonical),
            Compat('x', compat),
            Compat('\u{1F1E6}', &TEN),
        ];
        assert_eq!(rt;
            fault_of(&changes),
            Some(('x', rule)),
            "{canonical:?}, {compat:?}"
        );
    }
}

#[test]
fn the_least_character_is_named(rt: HostRuntime) {
    assert_eq!(rt; fault_of(&[Class(JOINER, 230)]), Some((JOINER, Rule::A1)));
    assert_eq!(rt;
        fault_of(&[Compat('\u{C5}', &['B', '\u{30A}'])]),
        Some(('\u{C5}', Rule::A3))
    );
    let changes = [Compat('x', &NINETEEN), Canonical('w', &['\u{C5}'])];
    assert_eq!(rt; fault_of(&changes), Some(('w', Rule::A2)));
    assert_eq!(rt;
        fault_of(&[Compat('\u{10FFFF}', &NINETEEN)]),
        Some(('\u{10FFFF}', Rule::A1))
    );
}

/// One of its rows is changed, and the other is that of Unicode.
#[test]
fn one_changed_row_is_enough(rt: HostRuntime) {
    assert_eq!(rt; fault_of(&[Compat('x', &NINETEEN)]), Some(('x', Rule::A1)));
    assert_eq!(rt;
        fault_of(&[Canonical('x', &['\u{C5}'])]),
        Some(('x', Rule::A2))
    );
}

/// 'y' and 'z' are marks, and the compatibility row of 'y' is 'z'.
#[test]
fn a_mark_within_a_row_is_its_own_row(rt: HostRuntime) {
    let changes = [
        Class('y', 230),
        Class('z', 230),
        Canonical('x', &['y']),
        Compat('x', &['z']),
        Compat('y', &['z']),
    ];
    assert_eq!(rt; fault_of(&changes), Some(('x', Rule::A4)));
}

/// Marks of two classes, which canonical ordering brings into one order. The character is one of private use, which is
/// in the row of no other.
#[test]
fn rows_are_compared_in_order(rt: HostRuntime) {
    let changes = [
        Canonical('\u{E000}', &['a', ACUTE, DOT_BELOW, 'b', DOT_BELOW, ACUTE]),
        Compat('\u{E000}', &['a', DOT_BELOW, ACUTE, 'b', ACUTE, DOT_BELOW]),
    ];
    assert_eq!(rt; fault_of(&changes), None);
}

#[test]
fn data_of_plain_characters_passes(rt: HostRuntime) {
    assert_eq!(rt; audit(&Plainest), Ok(()));
}

/// The rules written a second time over the tables' own slices: Unicode's data passes each.
#[test]
fn the_data_of_unicode_passes(rt: HostRuntime) {
    for code in 0..0x11_0000u32 {
        let Some(c) = char::from_u32(code) else {
            continue;
        };
        assert!(rt;
            has_full_rows(c) && has_row_within(c) && has_own_marks(c),
            "at {code:x}"
        );
    }
    assert_eq!(rt; audit(&Ucd), Ok(()));
}

fn is_own_row(c: char, form: TableForm) -> bool {
    let mut room = [c; 3];
    decomposition(c, form, &mut room) == [c].as_slice()
}

fn has_full_rows(c: char) -> bool {
    let (mut first, mut second) = ([c; 3], [c; 3]);
    decomposition(c, TableForm::Nfd, &mut first)
        .iter()
        .all(|m| is_own_row(*m, TableForm::Nfd))
        && decomposition(c, TableForm::Nfkd, &mut second)
            .iter()
            .all(|m| is_own_row(*m, TableForm::Nfkd))
}

/// In Unicode's data the two texts are one even before they are put in order.
fn has_row_within(c: char) -> bool {
    let (mut first, mut second) = ([c; 3], [c; 3]);
    let mut rest = decomposition(c, TableForm::Nfkd, &mut second);
    for m in decomposition(c, TableForm::Nfd, &mut first) {
        let mut room = [*m; 3];
        let Some(after) = rest.strip_prefix(decomposition(*m, TableForm::Nfkd, &mut room)) else {
            return false;
        };
        rest = after;
    }
    rest.is_empty()
}

fn has_own_marks(c: char) -> bool {
    let mut room = [c; 3];
    decomposition(c, TableForm::Nfd, &mut room).iter().all(|m| canonical_combining_class(*m) == 0
        || is_own_row(*m, TableForm::Nfkd))
}
