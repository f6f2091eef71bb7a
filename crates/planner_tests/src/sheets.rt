//! Sheets with the rules of the house: worked sheets.
use rule::Rule;
use rules::{NotFirst, Overload, house_pile};
use sheet::{MIN_PRINT, run};

// Whether the sheet prints just these bytes.
fn prints<R: Rule>(rule: &R, sheet: &[u8], expected: &[u8]) -> bool {
    let mut print = [0; MIN_PRINT];
    match run(rule, sheet, &mut print) {
        Ok(len) => len == expected.len() && print.starts_with(expected),
        Err(_) => false,
    }
}

#[test]
fn house_moves_both_ends_and_finds_the_best(rt: HostRuntime) {
    assert!(rt;
        prints(
            &house_pile(),
            b"C 2 3\nN Cumin\nN Clove\nN Ginger & lime\n\
                B 0 4 6 2 2\nB 1 0 6 3 1\nB 2 0 12 5 1\nT\nS 100\n",
            b"T moved 2\nW 4 6 Cumin\nW 0 4 Clove\nW 6 12 Ginger & lime\n\
                S best 11 5\nA 4 Cumin\nA 0 Clove\nA 6 Ginger & lime\n"
        )
    );
}

#[test]
fn not_first_moves_twice(rt: HostRuntime) {
    assert!(rt;
        prints(
            &NotFirst,
            b"C 2 3\nN a\nN b\nN c\nB 0 4 6 2 2\nB 1 0 6 3 1\nB 2 0 12 5 1\nT\nH 2 0 10\n",
            b"T moved 3\nW 4 6 a\nW 0 6 b\nW 6 12 c\nR 8 9\n"
        )
    );
}

// Nothing comes after the verdict.
#[test]
fn overload_kills(rt: HostRuntime) {
    assert!(rt;
        prints(
            &Overload,
            b"C 2 2\nN a\nN b\nB 0 4 6 2 2\nB 1 0 6 5 1\nT\nS 1\nT\n",
            b"T dead 1\nS none 1\nT dead 1\n"
        )
    );
}
