//! Programs and stores that are written as texts.
use crate::tests::texts::is_text;
use chr_base::program::Program;
use chr_base::text::store_text;
use chr_read::write;
use chr_testing::atoms::bag;
use chr_testing::texts::program_of;
use std::alloc::Global;
use std::process::Abort;

/// A text of a program, and the program's canonical text.
type Row = (&'static str, &'static str);

const CANONICAL_TEXTS: [Row; 6] = [
    ("% nothing\n", ""),
    (
        ":- use_module(library(chr)). :- chr_constraint p/2, q/0. :- chr_weight p/2 = 007.\nr @ p(X,_) \\ p(Y,-03) <=> true, X >= -5, Y =\\= X | true, q.",
        ":- chr_constraint p/2, q/0.\n:- chr_weight p/2 = 7.\nr @ p(V1,V2) \\ p(V3,-3) <=> V1 >= -5, V3 =\\= V1 | q.\n",
    ),
    (
        ":-chr_constraint min/1.m@min(X)\\min(Y)<=>X=<Y|true.",
        ":- chr_constraint min/1.\nm @ min(V1) \\ min(V2) <=> V1 =< V2 | true.\n",
    ),
    (
        ":- use_module(library(chr)).\n:- chr_constraint a/1, b/0. a(X) <=> X == 1 | b, true, b. b, b <=> true | b.",
        ":- chr_constraint a/1, b/0.\na(V1) <=> V1 =:= 1 | b, b.\nb, b <=> b.\n",
    ),
    // a weight of 1 is not written, nor a second number of 0
    (
        ":- chr_constraint a/0, b/2. :- chr_weight b/2 = 7 , 00. :- chr_constraint c/04. :- chr_weight a/0 = 1. :- chr_weight c/4 = 01000000,012.",
        ":- chr_constraint a/0, b/2, c/4.\n:- chr_weight b/2 = 7.\n:- chr_weight c/4 = 1000000,12.\n",
    ),
    (
        ":- chr_constraint p/3, q/0. p(_, Y, -9223372036854775808), q <=> Y < 0, 007 >= Y, Y > -1, 3 =< Y, Y =\\= 5, Y \\== 6, Y =:= 9223372036854775807 | p(Y, Y, 4).",
        ":- chr_constraint p/3, q/0.\np(V1,V2,-9223372036854775808), q <=> V2 < 0, 7 >= V2, V2 > -1, 3 =< V2, V2 =\\= 5, V2 =\\= 6, V2 =:= 9223372036854775807 | p(V2,V2,4).\n",
    ),
];

fn canonical_of(rt: &impl Abort, alloc: Global, text: &str) -> String {
    let program = program_of(alloc, text).expect(rt, "a program");
    write(alloc, &program).expect(rt, "memory")
}

fn expect_canonical(rt: &impl Abort, alloc: Global, rows: &[Row]) {
    for (text, canonical) in rows {
        is_text(rt, &canonical_of(rt, alloc, text), canonical);
    }
}

#[test]
fn canonical_texts(rt: HostRuntime) {
    expect_canonical(&rt, rt.alloc(), &CANONICAL_TEXTS);
}

/// Symbols and values of atoms, and the text of their store.
type Store = (&'static [(u16, &'static [i64])], &'static str);

/// Stores of the symbols `min/1`, `a/0` and `a/2`. Texts have `a` before `min`, of one name fewer arguments first, and
/// of one symbol the smaller arguments first. An atom that isn't declared stands among the declared ones of its name.
const STORES: [Store; 3] = [
    (&[], "true"),
    (
        &[
            (0, &[3]),
            (2, &[-9223372036854775808, 7]),
            (0, &[-3]),
            (1, &[]),
            (0, &[3]),
        ],
        "a, a(-9223372036854775808,7), min(-3), min(3), min(3)",
    ),
    (
        &[(2, &[7, 0]), (1, &[5, 6]), (2, &[1, 9]), (3, &[4])],
        "(4), a(1,9), a(5,6), a(7,0)",
    ),
];

fn text_of(rt: &impl Abort, alloc: Global, program: &Program, rows: &[(u16, &[i64])]) -> String {
    let store = bag(alloc, rows).expect(rt, "memory");
    store_text(alloc, program, &store).expect(rt, "memory")
}

fn expect_stores(rt: &impl Abort, alloc: Global, rows: &[Store]) {
    let declared = ":- chr_constraint min/1, a/0, a/2.";
    let program = program_of(alloc, declared).expect(rt, "a program");
    for (atoms, expected) in rows {
        is_text(rt, &text_of(rt, alloc, &program, atoms), expected);
    }
}

#[test]
fn stores_are_written_in_order(rt: HostRuntime) {
    expect_stores(&rt, rt.alloc(), &STORES);
}
