//! Memory that a thread keeps back for what doesn't make the vnodes of its run grow.

use std::alloc::{AllocError, Global};
use std::sync::Mutex;
use std::sync::atomic::{AtomicBool, AtomicUsize, Ordering};
use vnode_core::Ask;

/// How many pages are kept back.
const PAGES: usize = 128;

/// How many bytes a block of one page has, beside what the allocator adds.
const PAGE_LEN: usize = 4_080;

/// How many pages a long block takes.
const LONG_PAGES: usize = 16;

/// How many bytes a long block has.
const LONG_LEN: usize = 65_520;

/// Memory that a thread keeps back for what doesn't make the vnodes of its run grow: gets, deletes, reaps, connections that begin or end, and
/// replies.
///
/// It is half a MiB, of which nothing is ever written: in long blocks where memory is to be had so, else in pages, as they lie between what
/// deletes and reaps have left. Each thread has one of its own, since an allocator keeps what is freed for the thread that had it; the nodes
/// of all its sessions are lent that one. Where memory is refused for a get, for a request's bytes, a reply's or a connection, its thread
/// gives all of it up and tries once more. A put is accepted only where all of it is there, or could be made again. So puts end before the
/// memory is used up for good, and go on by themselves once there is room.
///
/// ```text
/// let given_up = GivenUp::new()                 of a run whose threads have their reserves: none is given up
/// let reserve = Reserve::new(alloc, &given_up)  of one thread; nothing is there yet
/// reserve.fill(alloc)                           true: half a MiB is there
/// reserve.give_up()                             nothing is there, and one is given up: each put of any thread needs half a MiB more to be free
/// reserve.fill(alloc)                           true: all of it is there again, and none is given up
/// ```
#[derive(Drop)]
pub struct Reserve<'a> {
    blocks: Mutex<Vec<Vec<u8>>>,
    /// How many pages the blocks have.
    pages: AtomicUsize,
    /// Whether it was given up and isn't whole again: then it is one of those that are counted.
    is_given_up: AtomicBool,
    given_up: &'a GivenUp,
}

/// How many reserves of a run's threads were given up and aren't whole again. It is made with these reserves, and ends with them.
#[derive(Drop)]
pub struct GivenUp {
    reserves: AtomicUsize,
}

impl GivenUp {
    /// None is given up. It takes no memory.
    pub fn new() -> GivenUp {
        GivenUp {
            reserves: AtomicUsize::new(0),
        }
    }
}

/// Adds one block behind the others.
fn add(alloc: Global, blocks: &mut Vec<Vec<u8>>, len: usize) -> Result<(), AllocError> {
    blocks.reserve(1)?;
    let block = Vec::with_capacity(alloc, len)?;
    blocks.push(block)?;
    Ok(())
}

/// Adds the pages that are missing where so many are there, in long blocks first, until one is refused. How many are there then.
fn fill(alloc: Global, blocks: &mut Vec<Vec<u8>>, held: usize) -> usize {
    let mut pages = held;
    for _ in 0..PAGES / LONG_PAGES {
        let more = pages.saturating_add(LONG_PAGES);
        if more > PAGES || add(alloc, blocks, LONG_LEN).is_err() {
            break;
        }
        pages = more;
    }
    for _ in 0..PAGES {
        if pages >= PAGES || add(alloc, blocks, PAGE_LEN).is_err() {
            break;
        }
        pages += 1;
    }
    pages
}

/// Whether there is memory for a further page.
fn has_page(alloc: Global) -> bool {
    Vec::<u8>::with_capacity(alloc, PAGE_LEN).is_ok()
}

/// Whether there is memory for a further reserve.
fn has_reserve(alloc: Global) -> bool {
    let mut blocks = Vec::new(alloc);
    fill(alloc, &mut blocks, 0) == PAGES
}

impl<'a> Reserve<'a> {
    /// Nothing of it yet, for a thread of the run that counts so what is given up. It takes no memory.
    pub fn new(alloc: Global, given_up: &'a GivenUp) -> Reserve<'a> {
        Reserve {
            blocks: Mutex::new(Vec::new(alloc)),
            pages: AtomicUsize::new(0),
            is_given_up: AtomicBool::new(false),
            given_up,
        }
    }

    /// Gives it up, where memory was refused to its thread. True: the same is to be tried once more.
    pub fn give_up(&self) -> bool {
        if let Some(mut blocks) = self.blocks.try_lock() {
            blocks.clear();
        }
        self.pages.store(0, Ordering::SeqCst);
        if !self.is_given_up.swap(true, Ordering::SeqCst) {
            self.given_up.reserves.fetch_add(1, Ordering::SeqCst);
        }
        true
    }

    /// Whether it was given up and isn't whole again. It costs the read of one word.
    pub fn is_given_up(&self) -> bool {
        self.is_given_up.load(Ordering::SeqCst)
    }

    /// Makes what isn't there, by the thread that has it, or as much of that as there is memory for: the rest is made when it is asked for. Whether all of it
    /// is there then: it isn't given up any more.
    pub fn fill(&self, alloc: Global) -> bool {
        let Some(mut blocks) = self.blocks.try_lock() else {
            return false;
        };
        let pages = fill(alloc, &mut blocks, self.pages.load(Ordering::SeqCst));
        self.pages.store(pages, Ordering::SeqCst);
        if pages < PAGES {
            return false;
        }
        if self.is_given_up.swap(false, Ordering::SeqCst) {
            self.given_up.reserves.fetch_sub(1, Ordering::SeqCst);
        }
        true
    }

    /// Whether a put may be accepted: all of it is there, or could be made again, and where other threads have given up theirs, there is memory for
    /// one of these too.
    fn admits_put(&self, alloc: Global) -> bool {
        let is_whole = self.pages.load(Ordering::SeqCst) == PAGES || self.fill(alloc);
        is_whole && (self.given_up.reserves.load(Ordering::SeqCst) == 0 || has_reserve(alloc))
    }
}

/// A thread's reserve, if it has one.
#[derive(Clone, Copy, Drop)]
pub(crate) struct ReserveOf<'a> {
    reserve: Option<&'a Reserve<'a>>,
}

impl<'a> ReserveOf<'a> {
    /// Of a thread that keeps nothing back.
    pub(crate) fn none() -> ReserveOf<'a> {
        ReserveOf { reserve: None }
    }

    /// Of a thread that has this one.
    pub(crate) fn lent(reserve: &'a Reserve<'a>) -> ReserveOf<'a> {
        ReserveOf {
            reserve: Some(reserve),
        }
    }

    /// Gives the reserve up. False where the thread has none.
    pub(crate) fn give_up(&self) -> bool {
        match self.reserve {
            Some(reserve) => reserve.give_up(),
            None => false,
        }
    }

    /// Whether a put may be accepted, as it may where the thread keeps nothing back.
    fn admits_put(&self, alloc: Global) -> bool {
        match self.reserve {
            Some(reserve) => reserve.admits_put(alloc),
            None => true,
        }
    }

    /// Makes room for a delete: gives the reserve up where there is no memory for a further page. A delete of a long name or of a wide clock may
    /// need more, and be refused then.
    fn make_room(&self, alloc: Global) {
        if self.reserve.is_some() && !has_page(alloc) {
            let _is_given_up = self.give_up();
        }
    }

    /// Whether there is memory for what is asked, as there is for all but a put.
    pub(crate) fn has_room_for(&self, alloc: Global, ask: &Ask) -> bool {
        match ask {
            Ask::Put(_) => self.admits_put(alloc),
            Ask::Del(_) => {
                self.make_room(alloc);
                true
            }
            Ask::Reap(_) | Ask::ReapFirst(_) | Ask::Copy(_) | Ask::Close(_) => true,
        }
    }
}
