//! What a session counts by itself, and what counts come to together.

use crate::exchanges::NOTHING_COUNTED;
use stats_book::*;
use std::process::Abort;

/// The last number.
const LAST: u64 = 18_446_744_073_709_551_615;

/// What a session answers one after another, each with the dead keys that were forgotten then, and what it has counted then.
struct Counting {
    shows: &'static str,
    answers: &'static [(Option<Quantity>, u32)],
    counted: Totals,
}

const COUNTINGS: &[Counting] = &[
    Counting {
        shows: "a session that answers nothing counts nothing",
        answers: &[],
        counted: NOTHING_COUNTED,
    },
    Counting {
        shows: "each quantity is counted apart",
        answers: &[
            (Some(Quantity::Gets), 0),
            (Some(Quantity::Puts), 0),
            (Some(Quantity::Deletes), 0),
            (Some(Quantity::Refusals), 0),
            (Some(Quantity::Reaps), 0),
        ],
        counted: Totals {
            gets: 1,
            puts: 1,
            deletes: 1,
            refusals: 1,
            reaps: 1,
        },
    },
    Counting {
        shows: "dead keys are counted beside what they were forgotten behind, and by themselves",
        answers: &[
            (Some(Quantity::Deletes), 2),
            (None, 4_294_967_295),
            (Some(Quantity::Deletes), 0),
        ],
        counted: Totals {
            deletes: 2,
            reaps: 4_294_967_297,
            ..NOTHING_COUNTED
        },
    },
];

/// Whether a row holds.
fn counts(row: &Counting) -> bool {
    let mut count = SessionCount::new();
    for answer in row.answers {
        let (quantity, reaps) = answer;
        count.count_answer(*quantity, *reaps);
    }
    let (counted, is_full) = count.into_parts();
    counted == row.counted && !is_full
}

#[test]
fn sessions_count_by_themselves(rt: HostRuntime) {
    for row in COUNTINGS {
        assert!(rt; counts(row), "{}", row.shows);
    }
}

/// Counts, others that are added to them, and what they come to; None where a number would pass the last one, and then they stay.
struct Adding {
    shows: &'static str,
    first: Totals,
    more: Totals,
    sum: Option<Totals>,
}

/// One of each quantity.
const ONES: Totals = Totals {
    gets: 1,
    puts: 1,
    deletes: 1,
    refusals: 1,
    reaps: 1,
};

/// Of each quantity one less than the last number.
const NEARLY_FULL: Totals = Totals {
    gets: LAST - 1,
    puts: LAST - 1,
    deletes: LAST - 1,
    refusals: LAST - 1,
    reaps: LAST - 1,
};

/// Of each quantity the last number.
const FULL: Totals = Totals {
    gets: LAST,
    puts: LAST,
    deletes: LAST,
    refusals: LAST,
    reaps: LAST,
};

const ADDINGS: &[Adding] = &[
    Adding {
        shows: "each number is added to its own",
        first: Totals {
            gets: 1,
            puts: 2,
            deletes: 3,
            refusals: 4,
            reaps: 5,
        },
        more: Totals {
            gets: 10,
            puts: 20,
            deletes: 30,
            refusals: 40,
            reaps: 50,
        },
        sum: Some(Totals {
            gets: 11,
            puts: 22,
            deletes: 33,
            refusals: 44,
            reaps: 55,
        }),
    },
    Adding {
        shows: "each number may come to the last one",
        first: NEARLY_FULL,
        more: ONES,
        sum: Some(FULL),
    },
    Adding {
        shows: "nothing more is room enough",
        first: FULL,
        more: NOTHING_COUNTED,
        sum: Some(FULL),
    },
    Adding {
        shows: "one get past the last number, and all five stay",
        first: Totals { gets: LAST, ..ONES },
        more: ONES,
        sum: None,
    },
    Adding {
        shows: "one put past the last number, and all five stay",
        first: Totals { puts: LAST, ..ONES },
        more: ONES,
        sum: None,
    },
    Adding {
        shows: "one delete past the last number, and all five stay",
        first: Totals {
            deletes: LAST,
            ..ONES
        },
        more: ONES,
        sum: None,
    },
    Adding {
        shows: "one refusal past the last number, and all five stay",
        first: Totals {
            refusals: LAST,
            ..ONES
        },
        more: ONES,
        sum: None,
    },
    Adding {
        shows: "one reap past the last number, and all five stay",
        first: Totals {
            reaps: LAST,
            ..ONES
        },
        more: ONES,
        sum: None,
    },
];

/// Whether a row holds.
fn adds(row: &Adding) -> bool {
    let mut sum = row.first;
    let is_added = sum.add(&row.more);
    is_added == row.sum.is_some() && sum == row.sum.unwrap_or(row.first)
}

#[test]
fn counts_are_added_all_or_none(rt: HostRuntime) {
    for row in ADDINGS {
        assert!(rt; adds(row), "{}", row.shows);
    }
}
