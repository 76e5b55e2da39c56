//! A list that only clauses read.
ghost use Rattle.std.specs.Prelude.{◌≡◌, [], ◌∷◌, ◌++◌};

use logbook::{Opening, Pens, Rule, Seen, Start};
use std::marker::{Model, PhantomData};

/// A list of `E`, of which there are no bytes: no code reads it, and a clause sees it as its list.
///
/// | Call | The list |
/// |---|---|
/// | `list = GhostList::new()` | empty |
/// | `list.push(&3)`, `list.push(&5)` | 3, 5 |
/// | `GhostList::listed::<Pass, Prefix>(&pass)` | what the listing `Prefix` names of `pass` |
///
/// Elements are copied by their models alone, so `E` needs no `Clone`.
#[derive(Drop)]
pub struct GhostList<E> {
    log: Seen<E, (), AnyLog<E>>,
}

impl<E> Model for GhostList<E> {
    ghost use Rattle.std.specs.Prelude.{List};
    ghost use Rattle.std.specs.Coded.{coded_list};

    ghost Value = { List E };

    ghost coded = { coded_list E.code };

    ghost view = { λ list. list.log.log };
}

/// A list of `E` that a value of `X` names, for clauses alone: the history that a cursor has seen, say.
pub trait Listing<X, E> {
    ghost use Rattle.std.specs.Prelude.{List};

    ghost list: { X → List E };
}

/// The rule of a list's log, which any log meets.
struct AnyLog<E> {
    of: PhantomData<E>,
}

impl<E> Rule<E, ()> for AnyLog<E> {
    ghost use Rattle.std.specs.Prelude.{[]};
    ghost use base.Fml.{ftrue};

    ghost holds = { λ cells log. Unit {0} };

    ghost first = { [] };

    ghost hinted = { λ n log. Unit {0} };

    ghost shows = { λ log. [] };

    ghost keeps = { λ names log. ftrue };

    ghost moves = { λ ask before after answer. Unit {0} };
}

/// A log that opens with the list of a listing.
struct OpenedBy<M> {
    of: PhantomData<M>,
}

impl<X, E, M: Listing<X, E>> Opening<X, E> for OpenedBy<M> {
    ghost log = { λ words about. M.list about };
}

/// The empty list.
struct Nothing<E> {
    of: PhantomData<E>,
}

impl<E> Listing<(), E> for Nothing<E> {
    ghost use Rattle.std.specs.Prelude.{[]};

    ghost list = { λ about. [] };
}

/// A list with an element behind it.
struct Pushed<E> {
    of: PhantomData<E>,
}

impl<'a, E> Listing<(&'a GhostList<E>, &'a E), E> for Pushed<E> {
    ghost use Rattle.std.specs.Prelude.{[], ◌∷◌, ◌++◌};

    ghost list = { λ pair. pair.0.now ++ pair.1.now ∷ [] };
}

impl<E> GhostList<E> {
    /// The empty list.
    pub fn new() -> GhostList<E>
        ensures { result ≡ [] }
    {
        GhostList::listed::<(), Nothing<E>>(&())
    }

    /// The list that `M` names of a value.
    pub fn listed<X, M: Listing<X, E>>(about: &X) -> GhostList<E>
        ensures { result ≡ M.list about.now }
    {
        let (log, _): (Seen<E, (), AnyLog<E>>, Pens) = Seen::open_row::<X, OpenedBy<M>>(
            about,
            Start::alone(),
            0,
        );
        GhostList { log }
    }

    /// Puts an element behind the others. No code can read it again.
    pub fn push(&mut self, element: &E)
        ensures { self.new ≡ self.old ++ element.now ∷ [] }
    {
        let pair = (&*self, element);
        let longer = GhostList::listed::<(&GhostList<E>, &E), Pushed<E>>(&pair);
        *self = longer;
    }
}
