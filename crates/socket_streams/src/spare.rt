//! Memory that the accepting thread keeps back.

use crate::run_signals::RunSignals;
use std::alloc::{AllocError, Global};

/// How many pages are kept back.
const PAGES: usize = 16;

/// How many bytes a page has that is kept back for new connections, beside what the allocator adds.
const CONNECTION_PAGE: usize = 4_080;

/// How many bytes a page has that is kept back for a pause.
const PAUSE_PAGE: usize = 65_520;

/// Pages that are kept back, 16 at most, of which nothing is ever written. Where there is no longer piece of memory, there may be some of these.
#[derive(Drop)]
struct Pages {
    pages: Vec<Vec<u8>>,
    page_len: usize,
}

impl Pages {
    /// None yet of this length.
    fn new(alloc: Global, page_len: usize) -> Pages {
        Pages {
            pages: Vec::new(alloc),
            page_len,
        }
    }

    /// Adds a page.
    fn add(&mut self, alloc: Global) -> Result<(), AllocError> {
        self.pages.reserve(1)?;
        let page = Vec::with_capacity(alloc, self.page_len)?;
        self.pages.push(page)?;
        Ok(())
    }

    /// Makes again those that aren't there, as far as there is memory.
    fn refill(&mut self, alloc: Global) {
        for _ in 0..PAGES {
            if self.pages.len() >= PAGES || self.add(alloc).is_err() {
                return;
            }
        }
    }
}

/// Memory that the accepting thread keeps back for what it makes for each connection, 64 KiB. Where memory is refused for a connection all of it is given
/// up, and made again, as far as there is memory, before the next one.
#[derive(Drop)]
pub(crate) struct Spare {
    pages: Pages,
}

impl Spare {
    /// All of it, or as much as there is memory for.
    pub(crate) fn new(alloc: Global) -> Spare {
        let mut pages = Pages::new(alloc, CONNECTION_PAGE);
        pages.refill(alloc);
        Spare { pages }
    }

    /// Makes again what isn't there, as far as there is memory.
    pub(crate) fn refill(&mut self, alloc: Global) {
        self.pages.refill(alloc);
    }

    /// Gives all of it up. False where nothing is there.
    pub(crate) fn give_up(&mut self) -> bool {
        let had_some = !self.pages.pages.is_empty();
        self.pages.pages.clear();
        had_some
    }
}

/// Memory that the accepting thread keeps back until the run is paused, a MiB, so that it can be started again where the workers have filled all else. Half of it
/// is enough for that, since what the run had is free then too. The accepting thread keeps it, since what one thread lets go another can't always have, and
/// makes it before a worker has a session.
#[derive(Drop)]
pub(crate) struct PauseSpare {
    /// None where the run keeps nothing back.
    pages: Option<Pages>,
}

impl PauseSpare {
    /// Nothing of it yet.
    pub(crate) fn new(alloc: Global, keeps_back: bool) -> PauseSpare {
        let mut pages = None;
        if keeps_back {
            pages = Some(Pages::new(alloc, PAUSE_PAGE));
        }
        PauseSpare { pages }
    }

    /// Makes what isn't there, as far as there is memory, and says whether it is enough for a pause.
    pub(crate) fn refill(&mut self, alloc: Global, stop: &RunSignals) {
        if let Some(pages) = &mut self.pages {
            pages.refill(alloc);
            stop.set_pausable(pages.pages.len() >= PAGES / 2);
        }
    }
}
