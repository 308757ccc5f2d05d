//! Each status of a call with a state, and memory that is no state.
use crate::kit::{AS_IS, ASSIGNED, NFC, NFKD, REPLACE, ZEROS, started, told};
use nf_c::{State, Status, UNICODE, feed, finish, start};
use std::process::Abort;
use std::test::Fail;

/// A call refuses the memory, and leaves it.
fn refused(rt: &impl Abort, mut state: State) {
    let (starter, offset, spent) = (state.starter, state.offset, state.spent);
    let mut output = [7; 8];
    let fed = feed(&mut state, b"a", &mut output);
    assert_eq!(rt; fed, told(Status::NoState, 0, 0, 0, 0));
    let finished = finish(&mut state, &mut output);
    assert_eq!(rt; finished, told(Status::NoState, 0, 0, 0, 0));
    let is_kept = state.starter == starter && state.offset == offset && state.spent == spent;
    assert!(rt; is_kept && output == [7; 8]);
}

fn all_refused(rt: &impl Abort, states: &[State]) {
    for state in states {
        refused(rt, *state);
    }
}

#[test]
fn numbers_that_say_nothing_are_refused(rt: HostRuntime) -> Result<(), Fail> {
    let good = started(&rt, NFC, AS_IS, 5);
    let unicode = good.unicode;
    assert_eq!(rt; unicode, UNICODE);
    all_refused(
        &rt,
        &[
            ZEROS,
            State { form: 1, ..ZEROS },
            State { magic: 0, ..good },
            State {
                unicode: 170_000,
                ..good
            },
            State { form: 5, ..good },
            State { policy: 4, ..good },
            State { spent: 2, ..good },
            State {
                held_len: 4,
                ..good
            },
            State {
                marks_len: 31,
                ..good
            },
            State { count: 31, ..good },
            State {
                starter: 0xD800,
                ..good
            },
        ],
    );
    Ok(())
}

/// 5 bytes from the offset 1000 on: q, U+0323 of class 220, and U+0301 of class 230.
fn stood(rt: &impl Abort) -> State {
    let mut state = started(rt, NFC, AS_IS, 1000);
    let mut output = [0; 8];
    let fed = feed(&mut state, b"q\xCC\xA3\xCC\x81", &mut output);
    assert_eq!(rt; fed, told(Status::Done, 5, 0, 0, 0));
    let marks = (state.marks_len, state.marks[0], state.marks[1]);
    assert_eq!(rt; marks, (2, 220 * CLASS + 0x323, 230 * CLASS + 0x301));
    state
}

const CLASS: u32 = 0x20_0000;

#[test]
fn counts_that_fit_no_bytes_are_refused(rt: HostRuntime) -> Result<(), Fail> {
    let good = started(&rt, NFC, AS_IS, 1000);
    let some = stood(&rt);
    all_refused(
        &rt,
        &[
            // Nothing was read: so nothing is held, counted or pending.
            State {
                held: [0xF0, 0x9F, 0x98],
                held_len: 3,
                ..good
            },
            State {
                chars: 1000,
                put: 1000,
                ..good
            },
            State {
                starter: 0x41,
                ..good
            },
            State { count: 1, ..good },
            State { put: 1, ..good },
            State {
                offset: 999,
                ..good
            },
            // Five bytes were, and four of them are taken where one is held.
            State { chars: 6, ..some },
            State {
                held: [0xC3, 0, 0],
                held_len: 1,
                chars: 5,
                ..some
            },
            State { put: 4, ..some },
            State { count: 1, ..some },
            State { chars: 0, ..some },
            State {
                starter: u32::MAX,
                ..some
            },
            // A byte that begins no character is not held.
            State {
                held: [0x41, 0, 0],
                held_len: 1,
                ..some
            },
            // In NFKC as many are pending as are counted.
            State {
                form: 3,
                count: 3,
                ..some
            },
        ],
    );
    Ok(())
}

#[test]
fn what_is_pending_agrees_with_the_data(rt: HostRuntime) -> Result<(), Fail> {
    let some = stood(&rt);
    let marked = |first, second| {
        let mut state = some;
        state.marks[0] = first;
        state.marks[1] = second;
        state
    };
    let (low, high) = (220 * CLASS + 0x323, 230 * CLASS + 0x301);
    all_refused(
        &rt,
        &[
            // Out of order, of another class than the data gives, and of class 0: U+0301 as it, and a, which has it.
            marked(high, low),
            marked(220 * CLASS + 0x301, high),
            marked(low, 231 * CLASS + 0x301),
            marked(0x301, high),
            marked(0x61, high),
            State {
                starter: 0x301,
                ..some
            },
        ],
    );
    let mut again = marked(low, high);
    let mut output = [0; 8];
    let fed = feed(&mut again, b"z", &mut output);
    assert_eq!(rt; fed, told(Status::Done, 1, 5, 0, 0));
    Ok(())
}

#[test]
fn numbers_of_no_form_and_no_policy_are_refused(rt: HostRuntime) -> Result<(), Fail> {
    let mut state = ZEROS;
    let none = start(&mut state, 0, AS_IS, 0);
    let five = start(&mut state, 5, AS_IS, 0);
    let four = start(&mut state, NFC, 4, 0);
    let statuses = (none, five, four);
    assert_eq!(rt;
        statuses,
        (Status::NoForm, Status::NoForm, Status::NoPolicy)
    );
    Ok(())
}

#[test]
fn faults_are_told_and_spend_the_state(rt: HostRuntime) -> Result<(), Fail> {
    let mut output = [0; 256];
    let mut state = started(&rt, NFC, AS_IS, 7);
    let bad = feed(&mut state, b"ab\xC3(", &mut output);
    assert_eq!(rt; bad, told(Status::BadByte, 3, 1, 10, 9));
    let fed = feed(&mut state, b"a", &mut output);
    assert_eq!(rt; fed, told(Status::Spent, 0, 0, 0, 0));
    let finished = finish(&mut state, &mut output);
    assert_eq!(rt; finished, told(Status::Spent, 0, 0, 0, 0));
    let mut state = started(&rt, NFC, ASSIGNED, 0);
    let unassigned = feed(&mut state, b"a\xCD\xB8", &mut output);
    assert_eq!(rt; unassigned, told(Status::Unassigned, 1, 0, 1, 1));
    let mut state = started(&rt, NFC, AS_IS, 0);
    let fed = feed(&mut state, b"ab\xC3", &mut output);
    assert_eq!(rt; fed, told(Status::Done, 3, 1, 0, 0));
    let cut = finish(&mut state, &mut output);
    assert_eq!(rt; cut, told(Status::Cut, 0, 0, 3, 2));
    let spent = finish(&mut state, &mut output);
    assert_eq!(rt; spent, told(Status::Spent, 0, 0, 0, 0));
    Ok(())
}

/// Of a text that is too long nothing is read, though a part of it would do.
#[test]
fn too_long_a_text_is_not_begun(rt: HostRuntime) -> Result<(), Fail> {
    let mut output = [0; 4096];
    let mut state = started(&rt, NFC, AS_IS, u64::MAX - 2000);
    let fed = feed(&mut state, b"a", &mut output);
    assert_eq!(rt; fed, told(Status::Done, 1, 0, 0, 0));
    let long = feed(&mut state, &[0x61; 2000], &mut output);
    assert_eq!(rt; long, told(Status::TooLong, 0, 0, 0, 0));
    let (offset, starter) = (state.offset, state.starter);
    assert_eq!(rt; (offset, starter), (u64::MAX - 1999, 0x61));
    let fits = feed(&mut state, &[0x61; 1999], &mut output);
    assert_eq!(rt; fits, told(Status::Done, 1999, 1999, 0, 0));
    Ok(())
}

/// How many bytes the calls read together that feed a text with a bad byte.
fn read_before_fault(rt: &impl Abort, text: &[u8], output: &mut [u8]) -> usize {
    let mut state = started(rt, NFC, AS_IS, 7);
    let mut read: usize = 0;
    for _ in 0..64 {
        let rest = text.get(read..).expect(rt, "within");
        let moved = feed(&mut state, rest, output);
        read = read.saturating_add(moved.read);
        if moved.status == Status::BadByte {
            assert_eq!(rt; (moved.at, moved.start), (1627, 1627));
            return read;
        }
    }
    0
}

#[test]
fn what_was_read_before_a_fault_is_told_by_its_place(rt: HostRuntime) -> Result<(), Fail> {
    let mut text = [0x61; 2000];
    text[1620] = 0xFF;
    let (mut small, mut middle, mut large) = ([0; 256], [0; 300], [0; 4096]);
    let by_small = read_before_fault(&rt, &text, &mut small);
    let by_middle = read_before_fault(&rt, &text, &mut middle);
    let by_large = read_before_fault(&rt, &text, &mut large);
    assert_eq!(rt; (by_small, by_middle, by_large), (1620, 1620, 1620));
    Ok(())
}

/// A character that began in an earlier call is unassigned: nothing was read of this one.
#[test]
fn a_fault_in_an_earlier_piece_leaves_nothing_read(rt: HostRuntime) -> Result<(), Fail> {
    let mut output = [0; 256];
    let mut state = started(&rt, NFC, ASSIGNED, 0);
    let fed = feed(&mut state, b"a\xCD", &mut output);
    assert_eq!(rt; fed, told(Status::Done, 2, 0, 0, 0));
    let unassigned = feed(&mut state, b"\xB8z", &mut output);
    assert_eq!(rt; unassigned, told(Status::Unassigned, 0, 0, 1, 1));
    Ok(())
}

#[test]
fn ill_formed_bytes_are_replaced(rt: HostRuntime) -> Result<(), Fail> {
    let mut output = [0; 256];
    let mut state = started(&rt, NFC, REPLACE, 0);
    let fed = feed(&mut state, b"ab\xFF\xC3", &mut output);
    assert_eq!(rt; fed, told(Status::Done, 4, 2, 0, 0));
    let finished = finish(&mut state, &mut output);
    assert_eq!(rt; finished, told(Status::Done, 0, 6, 0, 0));
    assert!(rt; output.starts_with(b"\xEF\xBF\xBD\xEF\xBF\xBD"));
    Ok(())
}

/// The last letter that was read is not settled: a mark may follow.
#[test]
fn as_much_is_read_as_finds_room(rt: HostRuntime) -> Result<(), Fail> {
    let mut output = [0; 8];
    let mut state = started(&rt, NFKD, AS_IS, 0);
    let full = feed(&mut state, b"bcdefgh", &mut output[..2]);
    assert_eq!(rt; full, told(Status::Full, 3, 2, 0, 0));
    let none = finish(&mut state, &mut output[..0]);
    assert_eq!(rt; none, told(Status::Full, 0, 0, 0, 0));
    let one = finish(&mut state, &mut output[..1]);
    assert_eq!(rt; one, told(Status::Done, 0, 1, 0, 0));
    assert!(rt; output[0] == b'd');
    Ok(())
}
