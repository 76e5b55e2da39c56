//! Schedules, and the whole text that is answered to each.

use crate::player::playing::{Played, play_again};
use crate::text::cutting::MARKING_WRITER;
use schedule_player::StepsFault;
use std::alloc::Global;
use std::process::Abort;

/// A schedule of so many workers.
struct Schedule {
    shows: &'static str,
    text: &'static str,
    workers: u16,
    result: Played,
    answers: &'static str,
}

const SCHEDULES: &[Schedule] = &[
    Schedule {
        shows: "a writer marks while a reader is inside",
        text: MARKING_WRITER,
        workers: 3,
        result: Ok(()),
        answers: "1 ok\n\
2 ok\n\
3 ok\n\
4 ok\n\
5 ok\n\
6 no\n\
7 no\n\
8 reply 0a\n\
9 ok\n\
10 ok\n\
11 ok\n\
12 reply 0c\n\
13 no\n\
14 ok\n\
15 ok\n\
16 reply 0a0a030a01761215020000000000010000000000010000000000000001\n\
17 ok\n\
plain equal\n",
    },
    Schedule {
        shows: "an empty schedule has a verdict alone",
        text: "",
        workers: 2,
        result: Ok(()),
        answers: "plain equal\n",
    },
    Schedule {
        shows: "the last line may lack its line feed",
        text: "enter 1\nlook 2",
        workers: 2,
        result: Ok(()),
        answers: "1 no\n2 no\nplain equal\n",
    },
    Schedule {
        shows: "the last line may have its line feed",
        text: "enter 1\nlook 2\n",
        workers: 2,
        result: Ok(()),
        answers: "1 no\n2 no\nplain equal\n",
    },
    // A value is put; a reap finds that its key isn't dead. It is deleted, and then a reap forgets the key.
    Schedule {
        shows: "a reap keeps a key, and forgets it once it is dead",
        text: "ask 1 0b0a016212016b22030a0176\ntake 1\nlook 1\npublish 1\nput 1\n\
reap 1 090a016212016b\ntake 1\nlook 1\nput 1\n\
ask 1 0d0a016212016b\ntake 1\nlook 1\npublish 1\nput 1\n\
reap 1 090a016212016b\ntake 1\nlook 1\npublish 1\nput 1\n",
        workers: 1,
        result: Ok(()),
        answers: "1 ok\n2 ok\n3 ok\n4 reply 0c\n5 ok\n\
6 ok\n7 ok\n8 kept\n9 ok\n\
10 ok\n11 ok\n12 ok\n13 reply 0e\n14 ok\n\
15 ok\n16 ok\n17 ok\n18 reaped\n19 ok\n\
plain equal\n",
    },
    // A get gives a context of the right form in `if_modified`, which no reply of the run showed.
    Schedule {
        shows: "a context of another run is not compared",
        text: "ask 1 090a016212016b3a110100000000000100000000000100000001\nenter 1\nlook 1\nleave 1\n",
        workers: 1,
        result: Ok(()),
        answers: "1 ok\n2 ok\n3 reply 0a\n4 ok\nplain not compared\n",
    },
    // The put's context is of the right form, and its ask is possible; it is never answered.
    Schedule {
        shows: "a call by a context that wasn't shown is not compared, answered or not",
        text: "ask 1 0b0a016212016b1a11010000000000010000000000010000000122030a0178\n",
        workers: 1,
        result: Ok(()),
        answers: "1 ok\nplain not compared\n",
    },
    // Worker 1 has a call, so that it can't be asked the put.
    Schedule {
        shows: "an ask that isn't possible gives no context",
        text: "ask 1 090a016212016b\n\
ask 1 0b0a016212016b1a11010000000000010000000000010000000122030a0178\nenter 1\nlook 1\n",
        workers: 1,
        result: Ok(()),
        answers: "1 ok\n2 no\n3 ok\n4 reply 0a\nplain equal\n",
    },
    // "v" is deleted and its key forgotten; then "w" is alone.
    Schedule {
        shows: "the register is asked to reap, too",
        text: "ask 1 0b0a016212016b22030a0176\ntake 1\nlook 1\npublish 1\nput 1\n\
ask 1 0d0a016212016b\ntake 1\nlook 1\npublish 1\nput 1\n\
reap 1 090a016212016b\ntake 1\nlook 1\npublish 1\nput 1\n\
ask 1 0b0a016212016b22030a01773801\ntake 1\nlook 1\npublish 1\nput 1\n",
        workers: 1,
        result: Ok(()),
        answers: "1 ok\n2 ok\n3 ok\n4 reply 0c\n5 ok\n\
6 ok\n7 ok\n8 ok\n9 reply 0e\n10 ok\n\
11 ok\n12 ok\n13 ok\n14 reaped\n15 ok\n\
16 ok\n17 ok\n18 ok\n19 reply 0c0a030a01771215020000000000010000000000020000000000000001\n20 ok\n\
plain equal\n",
    },
    // "v" is put at the primary, whose partition is diverted once no worker has a call there. The fallback has nothing of it;
    // "w", which is put there, has the first dot of the vnode 98304 (65536 + 32768).
    Schedule {
        shows: "the calls of a diverted partition go to its fallback",
        text: "ask 1 0b0a016212016b22030a0176\ntake 1\nlook 1\npublish 1\ndivert 0\nput 1\ndivert 0\ndivert 0\n\
ask 1 090a016212016b\nenter 1\nlook 1\nleave 1\n\
ask 1 0b0a016212016b22030a0177\ntake 1\nlook 1\npublish 1\nput 1\n\
ask 1 090a016212016b\nenter 1\nlook 1\nleave 1\n",
        workers: 1,
        result: Ok(()),
        answers: "1 ok\n2 ok\n3 ok\n4 reply 0c\n5 no\n6 ok\n7 ok\n8 no\n\
9 ok\n10 ok\n11 reply 0a\n12 ok\n\
13 ok\n14 ok\n15 ok\n16 reply 0c\n17 ok\n\
18 ok\n19 ok\n20 reply 0a0a030a01771215020000000000018000000000010000000000000001\n21 ok\n\
plain not compared\n",
    },
    Schedule {
        shows: "a run with a diversion is not compared, and a diverted partition isn't reaped",
        text: "divert 0\nreap 1 090a016212016b\n",
        workers: 1,
        result: Ok(()),
        answers: "1 ok\n2 no\nplain not compared\n",
    },
    // There is one partition, and worker 1 has a call there.
    Schedule {
        shows: "a diversion that isn't possible changes nothing of the comparison",
        text: "divert 1\ndivert 65535\nask 1 090a016212016b\ndivert 0\nenter 1\nlook 1\n",
        workers: 1,
        result: Ok(()),
        answers: "1 no\n2 no\n3 ok\n4 no\n5 ok\n6 reply 0a\nplain equal\n",
    },
    Schedule {
        shows: "what was written at a fallback is copied back",
        text: "ask 1 0b0a016212016b22030a0176\ntake 1\nlook 1\npublish 1\nput 1\ncopy 1 090a016212016b\ndivert 0\n\
ask 1 0b0a016212016b22030a0177\ntake 1\nlook 1\npublish 1\nput 1\n\
copy 1 090a016212016b\nenter 1\nlook 1\ntake 1\nlook 1\npublish 1\nput 1\nleave 1\n\
copy 1 090a016212016a\nenter 1\nlook 1\nleave 1\n",
        workers: 1,
        result: Ok(()),
        answers: "1 ok\n2 ok\n3 ok\n4 reply 0c\n5 ok\n6 no\n7 ok\n\
8 ok\n9 ok\n10 ok\n11 reply 0c\n12 ok\n\
13 ok\n14 ok\n15 ok\n16 ok\n17 ok\n18 copied\n19 ok\n20 ok\n\
21 ok\n22 ok\n23 kept\n24 ok\n\
plain not compared\n",
    },
    // "v" is put at the primary and "w" at the fallback (vnode 98304, which is 65536 + 32768). A closer finds b/k left; it is copied
    // back, and the fallback is closed. Worker 2 was asked before that: it finds the fallback closed, and then both values at the
    // primary, by rising actors. The second fallback begins its epochs at 2.
    Schedule {
        shows: "a whole hand-off, and a second diversion",
        text: "ask 1 0b0a016212016b22030a0176\ntake 1\nlook 1\npublish 1\nput 1\ndivert 0\n\
ask 1 0b0a016212016b22030a0177\ntake 1\nlook 1\npublish 1\nput 1\nask 2 090a016212016b\n\
close 1 0\ntake 1\nenter 1\nlook 1\nleave 1\nput 1\n\
copy 1 090a016212016b\nenter 1\nlook 1\ntake 1\nlook 1\npublish 1\nput 1\nleave 1\n\
close 1 0\ntake 1\nenter 2\nenter 1\nlook 1\npublish 1\nleave 1\nput 1\ndivert 0\n\
enter 2\nlook 2\nleave 2\nenter 2\nlook 2\nleave 2\ncopy 1 090a016212016b\ndivert 0\n\
ask 1 0b0a016212016b22030a0178\ntake 1\nlook 1\npublish 1\nput 1\nask 1 090a016212016b\nenter 1\nlook 1\nleave 1\n",
        workers: 2,
        result: Ok(()),
        answers: "1 ok\n2 ok\n3 ok\n4 reply 0c\n5 ok\n6 ok\n\
7 ok\n8 ok\n9 ok\n10 reply 0c\n11 ok\n12 ok\n\
13 ok\n14 ok\n15 ok\n16 left 1\n17 ok\n18 ok\n\
19 ok\n20 ok\n21 ok\n22 ok\n23 ok\n24 copied\n25 ok\n26 ok\n\
27 ok\n28 ok\n29 no\n30 ok\n31 ok\n32 ok\n33 ok\n34 ok\n35 no\n\
36 ok\n37 elsewhere\n38 ok\n39 ok\n40 reply 0a0a030a01760a030a017712290200000000000100000000000100000000000000010000000000018000000000010000000000000001\n41 ok\n42 no\n43 ok\n\
44 ok\n45 ok\n46 ok\n47 reply 0c\n48 ok\n49 ok\n50 ok\n51 reply 0a0a030a01781215020000000000018000000000020000000000000001\n52 ok\n\
plain not compared\n",
    },
    Schedule {
        shows: "what isn't diverted isn't closed, and the run is compared",
        text: "close 1 0\nclose 1 1\nclose 1 65535\n",
        workers: 1,
        result: Ok(()),
        answers: "1 no\n2 no\n3 no\nplain equal\n",
    },
    Schedule {
        shows: "a close without an index is a bad step",
        text: "divert 0\nclose 1\n",
        workers: 1,
        result: Err(StepsFault::BadStep(2)),
        answers: "1 ok\n",
    },
    Schedule {
        shows: "a copy of what is no get is a bad step",
        text: "divert 0\ncopy 1 0d0a016212016b\n",
        workers: 1,
        result: Err(StepsFault::BadStep(2)),
        answers: "1 ok\n",
    },
    Schedule {
        shows: "an index that isn't one is a bad step",
        text: "divert 0\ndivert 65536\n",
        workers: 1,
        result: Err(StepsFault::BadStep(2)),
        answers: "1 ok\n",
    },
    Schedule {
        shows: "a last line that is a bad step has its number",
        text: "enter 01",
        workers: 2,
        result: Err(StepsFault::BadStep(1)),
        answers: "",
    },
    Schedule {
        shows: "a first line that is a bad step has its number",
        text: "enter 01\nenter 1\n",
        workers: 2,
        result: Err(StepsFault::BadStep(1)),
        answers: "",
    },
    Schedule {
        shows: "the lines before a bad step are answered",
        text: "enter 1\nask 1 090a016212016b\nenter one\nenter 1\n",
        workers: 2,
        result: Err(StepsFault::BadStep(3)),
        answers: "1 no\n2 ok\n",
    },
    Schedule {
        shows: "an empty line is a bad step",
        text: "enter 1\nask 1 090a016212016b\n\n",
        workers: 2,
        result: Err(StepsFault::BadStep(3)),
        answers: "1 no\n2 ok\n",
    },
];

/// Whether a row holds.
fn is_answered(alloc: Global, row: &Schedule) -> bool {
    let mut written = Vec::new(alloc);
    let played = play_again(alloc, row.text.as_bytes(), row.workers, &mut written);
    played == Some(row.result) && written.as_slice() == row.answers.as_bytes()
}

#[test]
fn a_schedule_is_answered_line_by_line(rt: HostRuntime) {
    for row in SCHEDULES {
        assert!(rt; is_answered(rt.alloc(), row), "{}", row.shows);
    }
}
