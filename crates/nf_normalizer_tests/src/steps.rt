use nf_boundary::Formed;
use nf_normalizer::{Normalizer, Room, Step};
use nf_row::Change::{Canonical, Class};
use nf_row::{Form, Patched, Plain, Rows, Ucd};
use std::alloc::{AllocError, Global};
use std::process::Abort;
use std::test::Fail;
use unicode_normalization::{to_nfc, to_nfd, to_nfkc, to_nfkd};

const FORMS: [Form; 4] = [Form::Nfc, Form::Nfd, Form::Nfkc, Form::Nfkd];

/// What the steps over a text gave: the text, how many U+034F were put, and how many bytes no step could take.
#[derive(Drop)]
struct Stepped {
    text: Vec<u8>,
    put: u64,
    left: usize,
}

/// One step more; what is left of the text, unless it is refused.
fn one_step<'t, R: Rows>(
    rt: &impl Abort,
    rows: &R,
    normalizer: &mut Normalizer,
    rest: &'t str,
    so_far: &mut Stepped,
) -> Result<Option<&'t str>, AllocError> {
    let mut room = Room::new();
    let mut formed = Formed::new();
    let is_within = normalizer.pending.run_len() <= usize::from(normalizer.counter.count());
    assert!(rt; is_within && !rest.is_empty());
    let step = normalizer.step(rows, rest, &mut room, &mut formed);
    so_far.text.extend_from_slice(room.as_slice())?;
    match step {
        Step::Taken { same, rest, put } => {
            so_far.text.extend_from_slice(same.as_bytes())?;
            so_far.text.extend_from_slice(formed.as_slice())?;
            so_far.put = so_far.put.saturating_add(put);
            so_far.left = rest.len();
            Ok(Some(rest))
        }
        Step::Unsound { rest } => {
            so_far.left = rest.len();
            Ok(None)
        }
    }
}

/// What all steps over a text give, and then the end where none was refused.
fn steps_of<R: Rows>(
    rt: &impl Abort,
    alloc: Global,
    rows: &R,
    mut normalizer: Normalizer,
    text: &str,
) -> Result<Stepped, AllocError> {
    let mut so_far = Stepped {
        text: Vec::new(alloc),
        put: 0,
        left: text.len(),
    };
    let mut rest = text;
    for _ in 0..text.len() {
        if rest.is_empty() {
            break;
        }
        match one_step(rt, rows, &mut normalizer, rest, &mut so_far)? {
            Some(after) => rest = after,
            None => return Ok(so_far),
        }
    }
    let mut room = Room::new();
    normalizer.settle(rows, &mut room);
    so_far.text.extend_from_slice(room.as_slice())?;
    Ok(so_far)
}

/// The form of the whole text as the kit has it.
fn whole_form(alloc: Global, form: Form, text: &str) -> Result<String, AllocError> {
    match form {
        Form::Nfc => to_nfc(alloc, text),
        Form::Nfd => to_nfd(alloc, text),
        Form::Nfkc => to_nfkc(alloc, text),
        Form::Nfkd => to_nfkd(alloc, text),
    }
}

/// Texts with no run of more than 30 non-starters.
const TEXTS: [&str; 12] = [
    "plain ASCII, and more of it than one letter",
    "Vie\u{302}\u{323}t Nam, Vi\u{1EC7}t Nam",
    "q\u{307}\u{323}\u{301}a\u{30A}\u{327}",
    "\u{1112}\u{1161}\u{11AB}\u{1100}\u{1173}\u{11AF} \u{D55C}\u{AE00}",
    "\u{FB01}\u{2460}\u{FDFA}\u{FF76}\u{FF9E}",
    "\u{F71}\u{F74}\u{F73}\u{F75}",
    "\u{301}\u{300}",
    "\u{3B1}\u{345}\u{301}\u{1FB7}",
    "\u{9C7}\u{9BE}\u{9CB}",
    "\u{FB2C}\u{5D0}\u{5B8}\u{5B4}",
    "\u{1D15E}\u{1D16D}",
    "caf\u{E9} cr\u{E8}me, bru\u{302}le\u{301}e; \u{212B}\u{344}\u{340}",
];

#[test]
fn steps_give_the_form_of_the_whole(rt: HostRuntime) -> Result<(), Fail> {
    let alloc = rt.alloc();
    for text in TEXTS {
        for form in FORMS {
            check_form(&rt, alloc, form, text)?;
        }
    }
    Ok(())
}

/// By data that knows segments, with plain ASCII and without, and by data that knows neither.
fn check_form(rt: &impl Abort, alloc: Global, form: Form, text: &str) -> Result<(), Fail> {
    let due = whole_form(alloc, form, text)?;
    let plain = Plain::of(&Ucd).ok_or("not plain")?;
    check_steps(
        rt,
        &steps_of(rt, alloc, &Ucd, Normalizer::fast(plain, form), text)?,
        &due,
    );
    check_steps(
        rt,
        &steps_of(rt, alloc, &Ucd, Normalizer::new(form), text)?,
        &due,
    );
    let unchanged = Patched::new(&[]);
    check_steps(
        rt,
        &steps_of(rt, alloc, &unchanged, Normalizer::new(form), text)?,
        &due,
    );
    Ok(())
}

/// All of the text was taken, and no joiner was put.
fn check_steps(rt: &impl Abort, given: &Stepped, due: &str) {
    assert!(rt; given.text.as_slice() == due.as_bytes(), "{due}");
    assert_eq!(rt; (given.put, given.left), (0, 0));
}

#[test]
fn text_longer_than_the_room_goes_on(rt: HostRuntime) -> Result<(), Fail> {
    let alloc = rt.alloc();
    let mut text = String::new(alloc);
    for _ in 0..300 {
        text.push_str("long \u{E9}tat e\u{301}t\u{E9} q\u{323}\u{307}; ")?;
    }
    for form in FORMS {
        check_form(&rt, alloc, form, text.as_str())?;
    }
    Ok(())
}

#[test]
fn a_joiner_and_its_character_are_one_step(rt: HostRuntime) -> Result<(), Fail> {
    let alloc = rt.alloc();
    let mut text = String::new(alloc);
    let mut due = String::new(alloc);
    text.push('q')?;
    due.push('q')?;
    for index in 0..61 {
        text.push('\u{301}')?;
        if index == 30 || index == 60 {
            due.push('\u{34F}')?;
        }
        due.push('\u{301}')?;
    }
    for form in FORMS {
        let given = steps_of(&rt, alloc, &Ucd, Normalizer::new(form), text.as_str())?;
        assert_eq!(rt; (given.put, given.left), (2, 0));
        assert!(rt; given.text.as_slice() == due.as_bytes(), "{form:?}");
    }
    Ok(())
}

#[test]
fn what_is_unsound_is_left(rt: HostRuntime) -> Result<(), Fail> {
    let alloc = rt.alloc();
    let empty = [Canonical('x', &[])];
    let given = steps_of(
        &rt,
        alloc,
        &Patched::new(&empty),
        Normalizer::new(Form::Nfc),
        "abxcd",
    )?;
    // A mark might have followed the `b`.
    assert_eq!(rt; given.text.as_slice(), b"a".as_slice());
    assert_eq!(rt; (given.put, given.left), (0, 3));
    let joiner = [Class('\u{34F}', 230)];
    let mut text = String::new(alloc);
    for _ in 0..31 {
        text.push('\u{301}')?;
    }
    let given = steps_of(
        &rt,
        alloc,
        &Patched::new(&joiner),
        Normalizer::new(Form::Nfd),
        text.as_str(),
    )?;
    assert_eq!(rt; given.text.as_slice(), b"".as_slice());
    assert_eq!(rt; (given.put, given.left), (0, 2));
    Ok(())
}
