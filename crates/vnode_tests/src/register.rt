//! The register, asked in every option, over one key and over several.

mod asking;
mod deletes;
mod gets;
mod limits;
mod lives;
mod puts;
mod steps;

use crate::register::asking::taken;
use crate::register::steps::Step;
use std::process::Abort;

/// Steps, taken one after the other with a new register.
struct Exchange {
    /// What it shows, in words.
    shows: &'static str,
    steps: &'static [Step],
}

const EXCHANGES: &[Exchange] = &[
    Exchange {
        shows: "gets in every option",
        steps: gets::STEPS,
    },
    Exchange {
        shows: "puts in every option",
        steps: puts::STEPS,
    },
    Exchange {
        shows: "deletes in every option",
        steps: deletes::STEPS,
    },
    Exchange {
        shows: "a life and the next",
        steps: lives::STEPS,
    },
    Exchange {
        shows: "a key has at most 64 siblings",
        steps: limits::STEPS,
    },
];

#[test]
fn the_register_answers(rt: HostRuntime) {
    for exchange in EXCHANGES {
        let taken = taken(rt.alloc(), exchange.steps);
        let is_so = taken == exchange.steps.len();
        assert!(rt; is_so, "{}: not so after {} steps", exchange.shows, taken);
    }
}
