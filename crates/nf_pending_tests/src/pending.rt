use nf_pending::{Pending, Segment};
use nf_row::Change::Pair;
use nf_row::{Form, Patched, Rows, Ucd};
use std::alloc::AllocError;
use std::process::Abort;
use std::test::Fail;

/// Decomposed text, what it settles before its end, and what the end gives.
type Case<'a> = (&'a str, &'a str, &'a str);

/// What pushing the text settles in all.
fn pushed<T: Abort + Alloc, R: Rows>(
    rt: &T,
    rows: &R,
    pending: &mut Pending,
    text: &str,
) -> Result<String<T::A>, AllocError> {
    let mut settled = String::new(rt.alloc());
    for c in text.chars() {
        let class = rows.class(c);
        assert!(rt; class == 0 || pending.run_len() < 30);
        for d in pending.push(rows, c).iter() {
            settled.push(*d)?;
        }
    }
    Ok(settled)
}

/// What the end gives.
fn ended<T: Abort + Alloc, R: Rows>(
    rt: &T,
    rows: &R,
    pending: Pending,
) -> Result<String<T::A>, AllocError> {
    let mut rest = String::new(rt.alloc());
    for d in pending.end(rows).iter() {
        rest.push(*d)?;
    }
    Ok(rest)
}

/// What pushing the text settles in all, where the class of each code point is known before.
fn pushed_by_class<T: Abort + Alloc, R: Rows>(
    rt: &T,
    rows: &R,
    pending: &mut Pending,
    text: &str,
) -> Result<String<T::A>, AllocError> {
    let mut settled = String::new(rt.alloc());
    for c in text.chars() {
        let class = rows.class(c);
        if class == 0 {
            let mut segment = Segment::new();
            pending.push_starter(rows, c, &mut segment);
            for d in segment.iter() {
                settled.push(*d)?;
            }
        } else {
            assert!(rt; pending.run_len() < 30);
            pending.push_mark(c, class);
        }
    }
    Ok(settled)
}

/// Each text is pushed by code points alone, and by code points with their classes.
fn check<T: Abort + Alloc, R: Rows>(
    rt: &T,
    rows: &R,
    form: Form,
    cases: &[Case],
) -> Result<(), AllocError> {
    for (text, settled, rest) in cases {
        for by_class in [false, true] {
            let mut pending = Pending::new(form);
            let before = if by_class {
                pushed_by_class(rt, rows, &mut pending, text)?
            } else {
                pushed(rt, rows, &mut pending, text)?
            };
            let after = ended(rt, rows, pending)?;
            assert_eq!(rt;
                (before.as_str(), after.as_str()),
                (*settled, *rest),
                "{text:?} in {form:?}"
            );
        }
    }
    Ok(())
}

/// One mark of each of thirty classes.
const RISING: &str =
    "\u{334}\u{93C}\u{3099}\u{5B0}\u{5B1}\u{5B2}\u{5B3}\u{5B4}\u{5B5}\u{5B6}\u{5B7}\u{5B8}\u{5B9}\u{5BB}\u{5BC}\
    \u{5BD}\u{5BF}\u{5C1}\u{5C2}\u{FB1E}\u{64B}\u{64C}\u{64D}\u{64E}\u{64F}\u{650}\u{651}\u{652}\u{670}\u{711}";

const FALLING: &str =
    "\u{711}\u{670}\u{652}\u{651}\u{650}\u{64F}\u{64E}\u{64D}\u{64C}\u{64B}\u{FB1E}\u{5C2}\u{5C1}\u{5BF}\u{5BD}\
    \u{5BC}\u{5BB}\u{5B9}\u{5B8}\u{5B7}\u{5B6}\u{5B5}\u{5B4}\u{5B3}\u{5B2}\u{5B1}\u{5B0}\u{3099}\u{93C}\u{334}";

/// Thirty marks of class 230.
const ALIKE: &str =
    "\u{314}\u{313}\u{312}\u{311}\u{310}\u{30F}\u{30E}\u{30D}\u{30C}\u{30B}\u{30A}\u{309}\u{308}\u{307}\u{306}\
    \u{305}\u{304}\u{303}\u{302}\u{301}\u{300}\u{363}\u{364}\u{365}\u{366}\u{367}\u{368}\u{369}\u{36A}\u{36B}";

#[test]
fn a_starter_settles_what_stands_before_it_in_order(rt: HostRuntime) -> Result<(), Fail> {
    // Marks alone wait for the end.
    let composed = [("", "", ""), ("\u{301}\u{323}", "", "\u{323}\u{301}")];
    check(&rt, &Ucd, Form::Nfc, &composed)?;
    let decomposed = [
        ("\u{301}\u{323}", "", "\u{323}\u{301}"),
        (RISING, "", RISING),
        (FALLING, "", RISING),
        (ALIKE, "", ALIKE),
        ("a\u{302}\u{301}\u{323}", "", "a\u{323}\u{302}\u{301}"),
        ("a\u{302}\u{301}\u{323}b", "a\u{323}\u{302}\u{301}", "b"),
    ];
    check(&rt, &Ucd, Form::Nfd, &decomposed)?;
    let compatible = [(
        "\u{635}\u{644}\u{649} \u{627}\u{644}\u{644}\u{647} \u{639}\u{644}\u{64A}\u{647} \u{648}\u{633}\u{644}\u{645}",
        "\u{635}\u{644}\u{649} \u{627}\u{644}\u{644}\u{647} \u{639}\u{644}\u{64A}\u{647} \u{648}\u{633}\u{644}",
        "\u{645}",
    )];
    check(&rt, &Ucd, Form::Nfkd, &compatible)?;
    Ok(())
}

#[test]
fn texts_compose(rt: HostRuntime) -> Result<(), Fail> {
    let composed = [
        // Marks are put in order first.
        ("a\u{302}\u{323}", "", "\u{1EAD}"),
        ("\u{17F}\u{307}\u{323}", "", "\u{1E9B}\u{323}"),
        // Hangul
        ("\u{1112}\u{1161}\u{11AB}", "", "\u{D55C}"),
        ("\u{1100}\u{1161}\u{11A7}", "\u{AC00}", "\u{11A7}"),
        ("\u{1100}\u{300}\u{1161}", "\u{1100}\u{300}", "\u{1161}"),
        // Tulu-Tigalari
        (
            "\u{11382}\u{113C9}\u{113C2}\u{113C2}",
            "\u{11383}",
            "\u{113C5}",
        ),
        // Gurung Khema
        ("\u{1611E}\u{1611E}\u{1611F}", "", "\u{16126}"),
        ("\u{1611E}\u{16129}\u{1611F}", "", "\u{16127}"),
        // Kirat Rai
        ("\u{16D63}\u{16D67}\u{16D67}", "", "\u{16D6A}"),
        ("\u{16D67}\u{16D67}\u{16D67}", "\u{16D68}", "\u{16D67}"),
    ];
    check(&rt, &Ucd, Form::Nfc, &composed)?;
    let decomposed = [("\u{17F}\u{307}\u{323}", "", "\u{17F}\u{323}\u{307}")];
    check(&rt, &Ucd, Form::Nfd, &decomposed)?;
    let text = "s\u{307}\u{323}";
    check(&rt, &Ucd, Form::Nfkc, &[(text, "", "\u{1E69}")])?;
    check(&rt, &Ucd, Form::Nfkd, &[(text, "", "s\u{323}\u{307}")])?;
    Ok(())
}

#[test]
fn made_up_pairs_compose(rt: HostRuntime) -> Result<(), Fail> {
    let changes = [
        Pair('a', 'b', Some('c')),
        Pair('c', 'd', Some('e')),
        Pair('\u{1EA1}', 'b', Some('f')),
        Pair('q', 'r', Some('s')),
        Pair('p', '\u{301}', Some('\u{323}')),
    ];
    let cases = [
        // Starters compose in chains, and with what a starter and its marks made.
        ("abd", "", "e"),
        ("a\u{323}b", "", "f"),
        ("a\u{301}b", "\u{E1}", "b"),
        // A mark that is left keeps a starter apart.
        ("q\u{301}r", "q\u{301}", "r"),
        // A pair that makes a mark does not compose.
        ("p\u{301}", "", "p\u{301}"),
    ];
    check(&rt, &Patched::new(&changes), Form::Nfc, &cases)?;
    Ok(())
}

#[test]
fn what_is_held_is_counted(rt: HostRuntime) -> Result<(), Fail> {
    let changes = [Pair('\u{1EA1}', 'b', Some('f'))];
    let rows = Patched::new(&changes);
    let mut pending = Pending::new(Form::Nfc);
    let thirty = "\u{301}\u{301}\u{301}\u{301}\u{301}\u{301}\u{301}\u{301}\u{301}\u{301}\
        \u{301}\u{301}\u{301}\u{301}\u{301}\u{301}\u{301}\u{301}\u{301}\u{301}\
        \u{301}\u{301}\u{301}\u{301}\u{301}\u{301}\u{301}\u{301}\u{301}\u{301}";
    let settled = format!(in rt.alloc(); "q{thirty}")?;
    // A text, what it settles, and then the non-starters and the code points that are held.
    let steps = [
        ("", "", 0, 0),
        ("q", "", 0, 1),
        (thirty, "", 30, 31),
        ("\u{34F}", settled.as_str(), 0, 1),
        ("a\u{323}", "\u{34F}", 1, 2),
        ("b", "", 0, 1),
    ];
    for (text, settles, run_len, len) in steps {
        let given = pushed(&rt, &rows, &mut pending, text)?;
        assert_eq!(rt;
            (given.as_str(), pending.run_len(), pending.len()),
            (settles, run_len, len),
            "{text:?}"
        );
    }
    assert_eq!(rt; ended(&rt, &rows, pending)?.as_str(), "f");
    Ok(())
}

#[test]
fn a_starter_alone_is_told(rt: HostRuntime) -> Result<(), Fail> {
    let cases = [
        (Form::Nfd, "", None),
        (Form::Nfd, "a", Some('a')),
        (Form::Nfd, "ab", Some('b')),
        (Form::Nfc, "\u{1112}\u{1161}", Some('\u{D558}')),
        // Marks are with it, even where they compose, or there is no starter.
        (Form::Nfd, "a\u{301}", None),
        (Form::Nfc, "a\u{301}", None),
        (Form::Nfc, "\u{301}", None),
    ];
    for (form, text, starter) in cases {
        let mut pending = Pending::new(form);
        pushed(&rt, &Ucd, &mut pending, text)?;
        assert_eq!(rt; pending.alone(), starter, "{text:?} in {form:?}");
    }
    Ok(())
}

#[test]
fn a_machine_goes_on_at_a_starter(rt: HostRuntime) -> Result<(), Fail> {
    // What was held, the starter, what comes after it, what that settles, and what the end gives.
    let cases = [
        ("", 'a', "", "", "a"),
        ("x\u{301}", 'a', "\u{301}", "", "\u{E1}"),
        ("x\u{301}\u{323}", 'a', "b\u{301}", "a", "b\u{301}"),
        ("\u{1112}", '\u{1100}', "\u{1161}", "", "\u{AC00}"),
    ];
    for (held, starter, after, settled, rest) in cases {
        let mut pending = Pending::new(Form::Nfc);
        pushed(&rt, &Ucd, &mut pending, held)?;
        pending.stand_at(starter);
        assert_eq!(rt; (pending.alone(), pending.run_len()), (Some(starter), 0));
        let given = pushed(&rt, &Ucd, &mut pending, after)?;
        let last = ended(&rt, &Ucd, pending)?;
        assert_eq!(rt;
            (given.as_str(), last.as_str()),
            (settled, rest),
            "{held:?}, then {starter:?}"
        );
    }
    Ok(())
}
