//! What sheets print, with the rule that does nothing.
use super::{MAX_SHEET, MIN_PRINT, run};
use lots::Refusal;
use rule::Idle;

// Marks the bytes of a buffer that were not written.
const UNWRITTEN: u8 = 0xff;

// Whether the sheet prints just these bytes.
fn prints(sheet: &[u8], expected: &[u8]) -> bool {
    let mut print = [UNWRITTEN; MIN_PRINT];
    match run(&Idle, sheet, &mut print) {
        Ok(len) => {
            len == expected.len()
                && print.starts_with(expected)
                && print.iter().skip(len).all(|byte| *byte == UNWRITTEN)
        }
        Err(_) => false,
    }
}

#[test]
fn without_lots(rt: HostRuntime) {
    assert!(rt; prints(b"C 1 0\n", b""));
    assert!(rt; prints(b"C 1 0\nT\nS 1\n", b"T still 1\nS best 0 1\n"));
}

// Each sheet, and what it prints.
type Case = (&'static [u8], &'static [u8]);

#[test]
fn each_kind_of_print(rt: HostRuntime) {
    let cases: [Case; 2] = [
        (
            b"C 1 2\nN Bay\nN Dill \nB 0 0 2 1 1\nB 1 0 2 1 1\nS 5\nS 4\nH 1 1 9\nT\nS 9\n",
            b"S best 2 5\nA 0 Bay\nA 1 Dill \nS spent 4\nH done\nT still 1\nW 0 2 Bay\nW 1 2 Dill \n\
              S best 2 3\nA 0 Bay\nA 1 Dill \n",
        ),
        (
            b"C 1 2\nN a\nN b\nB 0 0 1 1 1\nB 1 0 1 1 1\nS 4294967295\n",
            b"S none 1\n",
        ),
    ];
    for (sheet, expected) in cases {
        assert!(rt; prints(sheet, expected));
    }
}

#[test]
fn names_are_printable_bytes(rt: HostRuntime) {
    let cases: [Case; 5] = [
        (b"C 1 1\nN   \nB 0 0 5 1 1\nT\n", b"T still 1\nW 0 5   \n"),
        (b"C 1 1\nN abcdefghijklmnopqrstuvwx\nB 0 0 5 1 1\n", b""),
        (
            b"C 1 1\nN abcdefghijklmnopqrstuvwxy\nB 0 0 5 1 1\n",
            b"R 15 2\n",
        ),
        (b"C 1 1\nN \nB 0 0 5 1 1\n", b"R 15 2\n"),
        (b"C 1 1\nN \t\nB 0 0 5 1 1\n", b"R 15 2\n"),
    ];
    for (sheet, expected) in cases {
        assert!(rt; prints(sheet, expected));
    }
}

#[test]
fn refusals_of_the_plan_and_the_tree(rt: HostRuntime) {
    let cases: [Case; 9] = [
        (b"C 0 64\n", b"R 1 1\n"),
        (b"C 201 0\n", b"R 1 1\n"),
        (b"C 1 1\nN a\nB 0 0 5 1 2\n", b"R 3 3\n"),
        (b"C 1 1\nN a\nB 0 0 5 0 1\n", b"R 4 3\n"),
        (b"C 1 1\nN a\nB 0 0 5 6 1\n", b"R 5 3\n"),
        (b"C 1 1\nN a\nB 0 0 5 3 1\nH 1 0 5\n", b"R 6 4\n"),
        (b"C 1 1\nN a\nB 0 0 5 3 1\nH 0 5 4\n", b"R 7 4\n"),
        (b"C 1 1\nN a\nB 0 0 5 3 1\nH 0 3 5\n", b"R 8 4\n"),
        (
            b"C 1 1\nN a\nB 0 0 5 3 1\nT\nS 0\n",
            b"T still 1\nW 0 5 a\nR 10 5\n",
        ),
    ];
    for (sheet, expected) in cases {
        assert!(rt; prints(sheet, expected));
    }
}

#[test]
fn lines_of_another_form_than_is_due(rt: HostRuntime) {
    let cases: [Case; 14] = [
        (b"", b"R 15 1\n"),
        (b"C 1 0", b"R 15 1\n"),
        (b"C 1 0\r\n", b"R 15 1\n"),
        (b"C 0 65\n", b"R 15 1\n"),
        (b"C 01 0\n", b"R 15 1\n"),
        (b"C  1 0\n", b"R 15 1\n"),
        (b"T\n", b"R 15 1\n"),
        (b"C 1 1\n", b"R 15 2\n"),
        (b"C 1 1\nN a\n", b"R 15 3\n"),
        (b"C 1 1\nN a\nB 1 0 5 1 1\n", b"R 15 3\n"),
        (b"C 1 1\nN a\nB 0 0 5 1 1\nB 1 0 5 1 1\n", b"R 15 4\n"),
        (b"C 1 0\nT\nC 1 0\n", b"T still 1\nR 15 3\n"),
        (b"C 1 0\nT\n\n", b"T still 1\nR 15 3\n"),
        (b"C 1 0\nS 4294967296\n", b"R 15 2\n"),
    ];
    for (sheet, expected) in cases {
        assert!(rt; prints(sheet, expected));
    }
}

#[test]
fn eight_commands(rt: HostRuntime) {
    let cases: [Case; 3] = [
        (
            b"C 1 0\nT\nT\nT\nT\nT\nT\nT\nT\n",
            b"T still 1\nT still 1\nT still 1\nT still 1\nT still 1\nT still 1\nT still 1\nT still 1\n",
        ),
        (
            b"C 1 0\nT\nT\nT\nT\nT\nT\nT\nT\nT\n",
            b"T still 1\nT still 1\nT still 1\nT still 1\nT still 1\nT still 1\nT still 1\nT still 1\n\
              R 16 10\n",
        ),
        (
            b"C 1 0\nT\nT\nT\nT\nT\nT\nT\nT\nS\n",
            b"T still 1\nT still 1\nT still 1\nT still 1\nT still 1\nT still 1\nT still 1\nT still 1\n\
              R 15 10\n",
        ),
    ];
    for (sheet, expected) in cases {
        assert!(rt; prints(sheet, expected));
    }
}

#[test]
fn the_longest_sheet(rt: HostRuntime) {
    assert!(rt; prints(&[b'T'; MAX_SHEET], b"R 15 1\n"));
    assert!(rt; prints(&[b'T'; MAX_SHEET + 1], b"R 14 0\n"));
}

#[test]
fn the_shortest_buffer(rt: HostRuntime) {
    let mut print = [UNWRITTEN; MIN_PRINT - 1];
    assert_eq!(rt;
        run(&Idle, b"C 1 0\n", &mut print),
        Err(Refusal::PrintBuffer)
    );
    assert!(rt; print.iter().all(|byte| *byte == UNWRITTEN));
}
