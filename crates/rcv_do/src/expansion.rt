// The expansion of a text: each call is replaced by the expansion of the protocol that it names.

ghost use Rattle.std.specs.Prelude.{◌≡◌, [], length, map, slice_index_or, OnOk, IfOk};
ghost use Rattle.rcv_tree.specs.Lists.{statements};
ghost use Rattle.rcv_model.specs.Text.{body_of, bodies_of};
ghost use Rattle.rcv_do.specs.Code.{parts_in, IsCallOrder};
ghost use Rattle.rcv_do.specs.Copying.{stands_of, Expanded, ExpandedBlocks, ExpandedStmt, IsExpansionAt, IsNumberedWhole};

use crate::order::before;
use crate::parts::Parts;
use rcv_tree::name::Name;
use rcv_tree::point::Point;
use rcv_tree::role::RoleId;
use rcv_tree::statement::{Block, Blocks, Stmt};
use std::alloc::{AllocError, Global};

// The argument in a role's place, or the other role if there is none.
fn argument_of(arguments: &[RoleId], other: RoleId, role: RoleId) -> RoleId
    ensures { result ≡ slice_index_or arguments.now role other }
{
    match arguments.get(role.0 as usize) {
        Some(argument) => *argument,
        None => other,
    }
}

// A text that is expanded: the protocols, the places of those that it may call, and what its roles stand for. A call is
// entered at its place, so what is held and copied is the answer alone.
//
// The roles stand for the arguments, in order. A role without one stands for the other role, or, as all roles of the
// first protocol do, for itself.
#[derive(Clone, Copy)]
pub struct Expanding<'a> {
    parts: Parts<'a>,
    under: &'a [usize],
    arguments: &'a [RoleId],
    other: Option<RoleId>,
}

impl<'a> Expanding<'a> {
    fn standing(&self, role: RoleId) -> RoleId
        ensures { result ≡ stands_of self.now role }
    {
        argument_of(self.arguments, self.other.unwrap_or(role), role)
    }

    // What these roles stand for.
    fn all_standing(&self, alloc: Global, roles: &[RoleId]) -> Result<Vec<RoleId>, AllocError>
        ensures { IfOk result (λ list. list.items ≡ map (stands_of self.now) roles.now) }
    {
        let mut list = Vec::with_capacity(alloc, roles.len())?;
        for role in roles {
            list.push(self.standing(*role))?;
        }
        Ok(list)
    }

    // Adds the expansion of a block to another one; so many points stand before.
    #[cycle(expand)]
    fn add_all(
        &self,
        alloc: Global,
        stmts: &Block,
        points: &mut u16,
        block: &mut Block,
    ) -> Result<(), AllocError>
        ensures { OnOk result (Expanded self.now points.old points.new (body_of stmts.now) (statements block.old) (statements block.new)) }
    {
        for stmt in stmts.as_slice() {
            self.add(alloc, stmt, points, block)?;
        }
        Ok(())
    }

    // The expansions of these blocks.
    #[cycle(expand)]
    fn blocks(&self, alloc: Global, list: &Blocks, points: &mut u16) -> Result<Blocks, AllocError>
        ensures { IfOk result (λ copies. ExpandedBlocks self.now points.old points.new (bodies_of list.now) (bodies_of copies)) }
    {
        let mut expansions = Blocks::new(alloc);
        for block in list.as_slice() {
            let mut expansion = Block::new(alloc);
            self.add_all(alloc, block, points, &mut expansion)?;
            expansions.push(expansion)?;
        }
        Ok(expansions)
    }

    // Adds the expansion of a statement.
    #[cycle(expand)]
    fn add(
        &self,
        alloc: Global,
        stmt: &Stmt,
        points: &mut u16,
        block: &mut Block,
    ) -> Result<(), AllocError>
        ensures { OnOk result (ExpandedStmt self.now points.old points.new stmt.now (statements block.old) (statements block.new)) }
    {
        match stmt {
            Stmt::Message {
                label,
                sorts,
                sender,
                receiver,
                ..
            } => {
                *points = points.saturating_add(1);
                let sorts = sorts.share()?;
                block.push(Stmt::Message {
                    label: Name::of(alloc, label.as_slice())?,
                    sorts,
                    sender: self.standing(*sender),
                    receiver: self.standing(*receiver),
                    point: Point(*points),
                })
            }
            Stmt::Choice { subject, branches } => {
                let branches = self.blocks(alloc, branches, points)?;
                block.push(Stmt::Choice {
                    subject: self.standing(*subject),
                    branches,
                })
            }
            Stmt::Rec { name, body } => {
                let mut copy = Block::new(alloc);
                self.add_all(alloc, body, points, &mut copy)?;
                block.push(Stmt::Rec {
                    name: Name::of(alloc, name.as_slice())?,
                    body: copy,
                })
            }
            Stmt::Continue { name } => {
                let name = Name::of(alloc, name.as_slice())?;
                block.push(Stmt::Continue { name })
            }
            Stmt::Par { blocks } => {
                let blocks = self.blocks(alloc, blocks, points)?;
                block.push(Stmt::Par { blocks })
            }
            Stmt::Do { protocol, roles } => {
                let Some(target) = self.parts.place_of(protocol.as_slice()) else {
                    return Ok(());
                };
                let Some(under) = before(self.under, target) else {
                    return Ok(());
                };
                let arguments = self.all_standing(alloc, roles.as_slice())?;
                let called = Expanding {
                    parts: self.parts,
                    under,
                    arguments: arguments.as_slice(),
                    other: Some(self.standing(RoleId(0))),
                };
                called.add_all(alloc, &self.parts.at(target).body, points, block)
            }
        }
    }
}

/// The expansion of the first protocol. The others that it comes to stand in this order.
pub fn expansion_of(alloc: Global, parts: &Parts<'_>, order: &[usize]) -> Result<Block, AllocError>
    requires { IsCallOrder (parts_in parts.now) order.now }
    ensures { IfOk result (λ block. IsExpansionAt (parts_in parts.now) 0 block × IsNumberedWhole block) }
{
    let expanding = Expanding {
        parts: *parts,
        under: order,
        arguments: &[],
        other: None,
    };
    let mut points = 0;
    let mut block = Block::new(alloc);
    expanding.add_all(alloc, &parts.main.body, &mut points, &mut block)?;
    Ok(block)
}
