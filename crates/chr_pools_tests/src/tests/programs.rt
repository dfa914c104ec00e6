//! Programs, with rules of one to four heads.
use chr_testing::texts::weighed_of;
use chr_weights::Weighed;
use std::alloc::Global;
use std::process::Abort;

/// What all programs declare.
const DECLARED: &str = ":- chr_constraint a/0, b/0, p/1, q/1, r/2, t/6. :- chr_weight p/1 = 2. \
    :- chr_weight q/1 = 2. :- chr_weight r/2 = 3. :- chr_weight t/6 = 4.\n";

/// Rules by which each store has one end. No two of them remove atoms of one symbol, but for ends that are equal.
///
/// Some exchange atoms: what one removed head is tells what the other ones are and what comes of them. Some rank atoms:
/// one goes where some number of others of its symbol come before it.
pub const CONFLUENT: [&str; 10] = [
    "p(X) \\ p(Y) <=> X =< Y | true. a, b <=> true. r(X,Y), r(X,Y) <=> p(X), p(Y).",
    "p(X), p(Y), p(Z) \\ p(W) <=> X < W, Y < W, Z < W | true.",
    "r(X,Y) \\ r(X,Z) <=> Y =< Z | true. q(X) <=> X =\\= 0, X < 3 | b.",
    "r(K,X), r(K,Y) \\ r(K,Z) <=> X >= Z, Y >= Z | true. b, b, b <=> a.",
    "r(X,Y), r(X,Y), t(Y,X,Y,X,0,1), t(Y,X,Y,X,0,1) <=> p(X), q(Y), a.",
    "t(K,X,L,0,Y,Z) \\ t(K,V,L,0,W,U) <=> X < V | true. a \\ q(X) <=> X > 1 | b.",
    "p(X), q(X) <=> a, b. t(X,Y,1,X,3,Y) <=> X =:= Y | r(X,3).",
    "a, a \\ p(X), r(X,X) <=> X =< 9223372036854775806 | q(X).",
    "p(X) <=> X =:= 9223372036854775807 | a. q(-9223372036854775808) <=> b. r(X,Y) <=> X > Y | q(Y).",
    "t(X,X,X,X,Y,3), r(Y,X) <=> q(X), q(Y). p(X), p(X), p(X) <=> p(X).",
];

/// Rules by which some stores have several ends.
pub const OTHERS: [&str; 4] = [
    "p(X), p(Y) <=> X < Y | q(X).",
    "r(X,Y) <=> p(X). r(X,Y) <=> p(Y). a \\ b, q(X) <=> p(X).",
    "p(X), q(Y) <=> X =\\= Y | r(X,Y). r(X,0), r(0,Y) <=> p(X), p(Y).",
    "t(X,Y,Z,Z,Y,X), p(X) \\ r(Y,Z), q(Z) <=> X =< Z | p(Y), a.",
];

/// The program of rules.
pub fn program(rt: &impl Abort, alloc: Global, rules: &str) -> Weighed {
    let mut text = String::new(alloc);
    text.push_str(DECLARED).expect(rt, "memory");
    text.push_str(rules).expect(rt, "memory");
    weighed_of(alloc, &text).expect(rt, "a program that lowers")
}
