// Ladders, roots, frontiers and right paths.
use output_lines::{end, number, numbers, word};
use tree::ladder::Ladder;
use tree::search_tree::{Frontier, next_asked, next_right_ancestor, root};

// The most entries that a right path or a frontier is written with.
const ENTRIES: usize = 64;

// A version, the length of its ladder, and the ladder.
fn ladder(rt: &impl Print, version: u32) {
    let l = Ladder::of(version);
    word(rt, b"ladder");
    numbers(rt, &[u64::from(version), l.length as u64]);
    for v in l.versions.iter().take(l.length) {
        number(rt, u64::from(*v));
    }
    end(rt);
}

// Those of paper 01, that of the greatest version, and that of the number after it, which has none.
pub(crate) fn ladders(rt: &impl Print) {
    ladder(rt, 0);
    ladder(rt, 1);
    ladder(rt, 3);
    ladder(rt, 5);
    ladder(rt, 0xffff_fffe);
    ladder(rt, 0xffff_ffff);
}

fn root_of(rt: &impl Print, n: u64) {
    word(rt, b"root");
    numbers(rt, &[n, root(n)]);
    end(rt);
}

pub(crate) fn roots(rt: &impl Print) {
    root_of(rt, 0);
    root_of(rt, 1);
    root_of(rt, 14);
    root_of(rt, 0x100_0000_0000);
    root_of(rt, u64::MAX);
}

// A size, the length of its frontier, and the frontier.
fn frontier(rt: &impl Print, n: u64) {
    let f = Frontier::of(n);
    word(rt, b"frontier");
    numbers(rt, &[n, f.length as u64]);
    for p in f.positions.iter().take(f.length) {
        number(rt, *p);
    }
    end(rt);
}

// Those of paper 01, that of an empty log, and those at the limits of a size.
pub(crate) fn frontiers(rt: &impl Print) {
    frontier(rt, 0);
    frontier(rt, 1);
    frontier(rt, 13);
    frontier(rt, 14);
    frontier(rt, 60);
    frontier(rt, 0xff_ffff_ffff);
    frontier(rt, 0x100_0000_0000);
    frontier(rt, u64::MAX);
}

// Entries of a log of a size, each the next from one on, and the end of the line.
fn entries<F: Fn(u64) -> u64>(rt: &impl Print, n: u64, next_from: F)
    requires { F.IsAlwaysCallable next_from }
{
    let mut next = next_from(0);
    for _ in 0..ENTRIES {
        if n <= next {
            break;
        }
        number(rt, next);
        next = next_from(next + 1);
    }
    end(rt);
}

// A size, an entry, and its right path.
fn right_path(rt: &impl Print, n: u64, p: u64) {
    word(rt, b"right-path");
    numbers(rt, &[n, p]);
    entries(rt, n, |x| next_right_ancestor(n, p, x));
}

// Those of paper 01, and of an entry that is not in the log.
pub(crate) fn right_paths(rt: &impl Print) {
    right_path(rt, 14, 4);
    right_path(rt, 14, 8);
    right_path(rt, 14, 13);
    right_path(rt, 14, 14);
    right_path(rt, 0x100_0000_0000, 0);
}

// A size, entries, and their right paths together with the frontier.
fn asked_for(rt: &impl Print, n: u64, asked: &[u64]) {
    word(rt, b"asked");
    number(rt, n);
    entries(rt, n, |x| next_asked(n, asked, x));
}

pub(crate) fn asked(rt: &impl Print) {
    asked_for(rt, 14, &[]);
    asked_for(rt, 14, &[4, 8]);
    asked_for(rt, 4, &[1, 2]);
    asked_for(rt, 0, &[4]);
}
