// The canonical text of what isn't read yet: a call of another protocol, in a block beside another. The worked cases
// have all other forms.

use rcv_printer::print_protocol;
use rcv_tree::name::{Name, Names};
use rcv_tree::point::Point;
use rcv_tree::protocol::{Decls, Protocol};
use rcv_tree::role::{RoleId, Roles};
use rcv_tree::statement::{Block, Blocks, Stmt};
use std::alloc::{AllocError, Global};
use std::test::Fail;

const A: RoleId = RoleId(0);

const B: RoleId = RoleId(1);

// A list of two names.
fn names(alloc: Global, first: &[u8], second: &[u8]) -> Result<Names, AllocError> {
    let mut list = Names::new(alloc);
    list.push(Name::of(alloc, first)?)?;
    list.push(Name::of(alloc, second)?)?;
    Ok(list)
}

// A message with two sorts.
fn price(alloc: Global) -> Result<Stmt, AllocError> {
    Ok(Stmt::Message {
        label: Name::of(alloc, b"price")?,
        sorts: names(alloc, b"String", b"Int")?,
        sender: B,
        receiver: A,
        point: Point(1),
    })
}

// A call of the protocol Pay, whose roles are B and A.
fn pay(alloc: Global) -> Result<Stmt, AllocError> {
    let mut places = Roles::new(alloc);
    places.push(B)?;
    places.push(A)?;
    Ok(Stmt::Do {
        protocol: Name::of(alloc, b"Pay")?,
        roles: places,
    })
}

// A block of one statement.
fn one(alloc: Global, only: Stmt) -> Result<Block, AllocError> {
    let mut block = Block::new(alloc);
    block.push(only)?;
    Ok(block)
}

// Two blocks beside each other.
fn beside(alloc: Global, left: Block, right: Block) -> Result<Stmt, AllocError> {
    let mut blocks = Blocks::new(alloc);
    blocks.push(left)?;
    blocks.push(right)?;
    Ok(Stmt::Par { blocks })
}

// Both beside each other.
fn body(alloc: Global) -> Result<Block, AllocError> {
    let left = one(alloc, price(alloc)?)?;
    let right = one(alloc, pay(alloc)?)?;
    one(alloc, beside(alloc, left, right)?)
}

// A protocol without declarations.
fn sale(alloc: Global) -> Result<Protocol, AllocError> {
    Ok(Protocol {
        module: names(alloc, b"shop", b"main")?,
        decls: Decls::new(alloc),
        name: Name::of(alloc, b"Sale")?,
        roles: names(alloc, b"A", b"B")?,
        body: body(alloc)?,
    })
}

const SALE_TEXT: &[u8] = b"module shop.main;

global protocol Sale(role A, role B) {
  par {
    price(String, Int) from B to A;
  } and {
    do Pay(B, A);
  }
}
";

#[test]
fn blocks_beside_each_other_and_a_call(rt: HostRuntime) -> Result<(), Fail> {
    let text = print_protocol(rt.alloc(), &sale(rt.alloc())?)?;
    assert!(rt; text.as_slice() == SALE_TEXT);
    Ok(())
}
