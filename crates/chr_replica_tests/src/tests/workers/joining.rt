//! Rules whose atoms hang together by an argument, and others: the pools in which stores are kept.
use crate::tests::texts::opened_in;
use std::alloc::Global;
use std::process::Abort;
use std::thread::Threads;

/// The most pools in which stores are kept.
const MOST_POOLS: usize = 4;

/// Programs of `p/2` and `q/2`, and in how many pools of [`MOST_POOLS`] their stores are kept.
const PROGRAMS: [(&str, usize); 7] = [
    // Joined by the first argument.
    (
        ":- chr_constraint p/2, q/2. p(K,V) \\ p(K,W) <=> V =< W | true. q(K,V) \\ q(K,W) <=> W =< V | true.",
        MOST_POOLS,
    ),
    // Joined by the last argument.
    (
        ":- chr_constraint p/2, q/2. p(V,K) \\ p(W,K) <=> V =< W | true.",
        MOST_POOLS,
    ),
    // Joined by the first argument of the one symbol and the last of the other.
    (
        ":- chr_constraint p/2, q/2. q(K,V) \\ p(W,K) <=> true. p(X,Y) \\ p(X,Y) <=> true. q(X,Y) \\ q(X,Y) <=> true.",
        MOST_POOLS,
    ),
    // Bodies have the value of the heads.
    (
        ":- chr_constraint p/2, q/2. :- chr_weight p/2 = 2. p(K,V) <=> q(V,K). q(V,K) \\ q(W,K) <=> V =< W | true.",
        MOST_POOLS,
    ),
    // Joined by no argument, since no variable stands in both heads.
    (
        ":- chr_constraint p/2, q/2. p(X,V) \\ p(Y,W) <=> V < W | true.",
        1,
    ),
    // Joined by no argument that serves both rules.
    (
        ":- chr_constraint p/2, q/2. q(K,V) \\ p(K,W) <=> true. q(V,K) \\ p(W,K) <=> true.",
        1,
    ),
    // Bodies have other values than the heads.
    (
        ":- chr_constraint p/2, q/2. :- chr_weight p/2 = 2. p(X,X) <=> q(0,0). q(K,V) \\ q(K,W) <=> V =< W | true.",
        1,
    ),
];

/// In how many pools a board of the program keeps its store, where it may take [`MOST_POOLS`].
fn pools_of(rt: &(impl Abort + Threads + Sync), alloc: Global, text: &str) -> usize {
    opened_in(rt, alloc, text, MOST_POOLS).pools()
}

fn expect_pools(rt: &(impl Abort + Threads + Sync), alloc: Global, rows: &[(&str, usize)]) {
    for (text, pools) in rows {
        assert!(rt; pools_of(rt, alloc, text) == *pools, "{text}");
    }
}

#[test]
fn stores_are_kept_in_pools(rt: HostRuntime) {
    expect_pools(&rt, rt.alloc(), &PROGRAMS);
}
