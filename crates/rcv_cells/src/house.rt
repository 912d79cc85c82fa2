// What a session is made of, and who works in it.

ghost use Rattle.std.specs.Prelude.{◌≡◌, ◌≤◌, [], length, IfOk};
ghost use Rattle.rcv_session.specs.Session.{roles_of};
ghost use Rattle.rcv_cells.specs.Home.{AreHome, HaveBases};
ghost use Rattle.rcv_cells.specs.Running.{AreWatched};

use crate::opening::cells;
use rcv_core::book::Book;
use rcv_core::setup::Setup;
use rcv_fence::{Watch, fence};
use rcv_role::cell::Cell;
use rcv_tree::entry::Entry;
use std::alloc::{AllocError, Global};

// So many workers have a watch each.
const WORKERS: u32 = 8;

/// A session's book and the cells of its roles, with what a round needs.
#[derive(Drop)]
pub struct House<'a> {
    pub book: Book<'a>,
    /// The cells, in order of declaration.
    pub lanes: Vec<Cell<'a>>,
    /// The session's own watch of its fence.
    pub watch: Watch,
    /// A watch of it for each of eight workers.
    pub watches: Vec<Watch>,
    /// The merged entries of a round. The list is kept, so that no round takes fresh pages for it.
    pub merged: Vec<Entry>,
    /// Whether scripts are dear: then the book takes the variables of the cells instead of computing them again.
    pub dear: bool,
}

/// Who works in a house: so many workers, on the threads of a runtime, under a gate.
#[derive(Drop)]
pub struct Crew<'c, R, G> {
    pub rt: &'c R,
    pub alloc: Global,
    pub workers: usize,
    /// About how many steps a cell makes in one round: one that has made so many doesn't run again in it.
    pub steps: u32,
    pub gate: &'c G,
}

impl<'a> House<'a> {
    /// An empty book, the cells of all roles at home with it, and one fence with nobody's failure raised. Fails if
    /// memory runs out.
    pub fn new(alloc: Global, setup: &'a Setup, dear: bool) -> Result<House<'a>, AllocError>
        ensures book { IfOk result (λ house. house.book ≡ record { setup = setup.now; entries = [] }) }
        ensures home { IfOk result (λ house. AreHome house.book house.lanes.items) }
        ensures bases { IfOk result (λ house. HaveBases (roles_of setup.now) [] house.lanes.items) }
        ensures watched { IfOk result (λ house. AreWatched house.watch house.watches.items) }
        ensures watches { IfOk result (λ house. length house.watches.items ≡ 8) }
    {
        let book = Book::new(alloc, setup)?;
        let lanes = cells(alloc, setup)?;
        let mut watches = fence(alloc, WORKERS + 1)?;
        let watch = watches.remove(0);
        Ok(House {
            book,
            lanes,
            watch,
            watches,
            merged: Vec::new(alloc),
            dear,
        })
    }
}
