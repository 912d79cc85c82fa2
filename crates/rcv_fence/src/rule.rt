// The fence as a table of one word: what each watch knows, the rule, and what each step tells.
use atomic_table::{Play, Split, Table, TableRule};
use std::alloc::Global;
use std::collections::LinkedList;

/// What a watch knows: how often it looked, the word that its last look loaded, the words that all its looks loaded, in
/// order, and the words that it wrote. No value of it is made.
pub struct Sight {
    pub looks: u64,
    pub last: u64,
    pub seen: LinkedList<u64>,
    pub raised: LinkedList<u64>,
}

/// The rule: the word is 0 or a code, and so is the last that each watch saw.
pub struct Fenced;

impl TableRule<(), Sight, ()> for Fenced {
    ghost use Rattle.rcv_fence.specs.Fence.{Keeps, unlooked};

    ghost holds = { λ _. Keeps };

    ghost first = { λ _. unlooked };
}

/// A load. The watch counts it.
pub struct Looks;

impl Play<(), Sight> for Looks {
    ghost use Rattle.rcv_fence.specs.Fence.{Looked};

    ghost then = { Looked };
}

/// A swap. The watch keeps what it wrote.
pub struct Writes;

impl Play<(), Sight> for Writes {
    ghost use Rattle.rcv_fence.specs.Fence.{Wrote};

    ghost then = { Wrote };
}

/// One more watch, which has seen and written nothing yet.
pub struct Shares;

impl Split<Sight> for Shares {
    ghost use Rattle.rcv_fence.specs.Fence.{unlooked};

    ghost left = { λ v. v };

    ghost right = { λ _. unlooked };
}

pub type Word = Table<(), Sight, (), Fenced, Global>;
