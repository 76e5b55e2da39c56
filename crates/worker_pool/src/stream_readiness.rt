//! What a worker waits with that has sessions open.
ghost use Rattle.std.specs.Prelude.{◌≡◌, length, IfOk};

use crate::job::{EndRead, EndWrite};
use crate::open_session::OpenSession;
use crate::server::Server;
use crate::session_service::OfGates;
use gate_node::Turnstile;
use job_pool::{Post, Readiness, Rounds, StepOutcome, StreamReadiness, Turn, Wake};
use std::alloc::{AllocError, Global};
use std::sync::Wait;

/// What a worker of [`Pool::run_with`](crate::Pool::run_with) waits with: this, which is shown the streams of each session.
#[derive(Drop)]
pub struct ShownStreams<Y> {
    pub streams: Y,
}

impl<'a, Y, H, X, T, I, O> Readiness<Server<'a, H, X, T, I, O>> for ShownStreams<Y>
where
    Y: StreamReadiness<I, O>,
    H: OfGates + Sync,
    X: Wait + Sync,
    T: Turnstile + Sync,
    I: EndRead + Drop + Send + Sync,
    O: EndWrite + Drop + Send + Sync,
{
    fn takes(&mut self, is_idle: bool) -> bool {
        self.streams.takes(is_idle)
    }

    fn begin(&mut self, slot: usize, opened: &OpenSession<'a, X, T, I, O>) {
        self.streams.begin(slot, opened.reader(), opened.writer());
    }

    fn next(&mut self) -> Option<Turn> {
        self.streams.next()
    }

    fn ends_turn(&mut self, slot: usize, before: u32) -> bool {
        self.streams.ends_turn(slot, before)
    }

    fn after(&mut self, slot: usize, moved: StepOutcome) {
        self.streams.after(slot, moved);
    }

    fn wait<V: Wait>(&mut self, rt: &V, is_idle: bool) {
        self.streams.wait(rt, is_idle);
    }
}

/// So many workers, each with one session at a time.
pub(crate) fn new_rounds(
    alloc: Global,
    workers: u16,
) -> Result<Vec<Post<ShownStreams<Rounds>, Wake>>, AllocError>
    ensures { IfOk result (λ posts. length posts.items ≡ workers) }
{
    let mut posts = Vec::new(alloc);
    for _ in 0..workers {
        let (streams, wakeup) = Rounds::new(alloc)?;
        posts.push(Post {
            readiness: ShownStreams { streams },
            wakeup,
        })?;
    }
    Ok(posts)
}
