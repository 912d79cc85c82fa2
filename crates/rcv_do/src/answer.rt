// Expands a module.

ghost use Rattle.std.specs.Prelude.{◌≡◌, ◌<◌, ◌≤◌, ℕ, [], All, MatchResult, IfOk, Some, length, slice_get};
ghost use Rattle.rcv_tree.specs.Words.{IsWord};
ghost use Rattle.rcv_tree.specs.declared.refusal.Refusal.TheVariants.{Text};
ghost use Rattle.rcv_model.specs.Form.{HasForm};
ghost use Rattle.rcv_model.specs.Places.{singles, IsFullText};
ghost use Rattle.rcv_model.specs.Text.{body_of};
ghost use Rattle.rcv_tree.specs.declared.refusal.TextError.TheVariants.{Refused};
ghost use Rattle.rcv_module.specs.Answers.{IsExpanded};
ghost use Rattle.rcv_module.specs.Form.{HasModuleForm};
ghost use Rattle.rcv_module.specs.Origins.{AreOriginsOf};
ghost use Rattle.rcv_module.specs.Parts.{parts_of, sites};
ghost use Rattle.rcv_module.specs.Refusing.{code_of, IsFirstCall, IsFree, IsSmall, IsTooLarge};
ghost use Rattle.rcv_do.specs.Code.{protocols_in, parts_in, IsCallOrder};
ghost use Rattle.rcv_do.specs.Faults.{IsAtCall, FailsBy};

use crate::calls::calls_of_all;
use crate::expansion::expansion_of;
use crate::parts::Parts;
use crate::reach::{order_of, reached};
use crate::sizes::{first_deep, first_many, marks_of, sizes_of};
use crate::table::first_fault;
use crate::trace::origins_of;
use rcv_module::{Fault, Origins};
use rcv_tree::module::Module;
use rcv_tree::protocol::Protocol;
use rcv_tree::refusal::{Refusal, TextError};
use std::alloc::{AllocError, Global};

// The refusal of the call with this number, on its line.
fn refused(lines: &[u32], number: usize, fault: Fault) -> TextError
    requires { number < length lines.now }
    ensures { (line : ℕ) → slice_get lines.now number ≡ Some line → result ≡ Refused (Text (code_of fault) line) }
{
    TextError::Refused(Refusal::Text {
        code: fault.code(),
        line: lines[number],
    })
}

// The order in which the protocols are expanded, or the first call at which a code of the table holds.
fn order_or_fault(alloc: Global, parts: &Parts<'_>, lines: &[u32]) -> Result<Vec<usize>, TextError>
    requires few { length (protocols_in parts.now) ≤ 64 }
    requires lines { length lines.now ≡ length (sites (parts_in parts.now)) }
    ensures { MatchResult result (λ order. IsCallOrder (parts_in parts.now) order.items)
        (IsAtCall lines.now (IsFirstCall (parts_in parts.now))) }
{
    let calls = calls_of_all(alloc, parts)?;
    let rows = reached(alloc, calls.as_slice(), parts.count())?;
    if let Some((number, fault)) = first_fault(parts, rows.as_slice(), calls.as_slice()) {
        return Err(refused(lines, number, fault));
    }
    Ok(order_of(alloc, rows.as_slice())?)
}

// Fails at the first call up to whose end the expansion is too large.
fn small_or_fault(
    alloc: Global,
    parts: &Parts<'_>,
    lines: &[u32],
    order: &[usize],
) -> Result<(), TextError>
    requires order { IsCallOrder (parts_in parts.now) order.now }
    requires lines { length lines.now ≡ length (sites (parts_in parts.now)) }
    ensures { MatchResult result (λ _. IsSmall (parts_in parts.now))
        (IsAtCall lines.now (IsTooLarge (parts_in parts.now))) }
{
    let sizes = sizes_of(alloc, parts, order)?;
    let marks = marks_of(alloc, parts, sizes.as_slice())?;
    if let Some(number) = first_deep(marks.as_slice()) {
        return Err(refused(lines, number, Fault::Deep));
    }
    if let Some(number) = first_many(marks.as_slice()) {
        return Err(refused(lines, number, Fault::TooMany));
    }
    Ok(())
}

// The order of a module that isn't refused, or the first refusal.
fn order_or_refusal(alloc: Global, whole: &Module) -> Result<Vec<usize>, TextError>
    requires { HasModuleForm whole.now }
    ensures { MatchResult result (λ order. IsFree (parts_of whole.now) × IsCallOrder (parts_of whole.now) order.items) (FailsBy whole.now) }
{
    let parts = Parts::of(whole);
    let lines = whole.dos.as_slice();
    let order = order_or_fault(alloc, &parts, lines)?;
    small_or_fault(alloc, &parts, lines, order.as_slice())?;
    Ok(order)
}

// The expansion of a module that isn't refused, along an order.
fn expanded(alloc: Global, whole: Module, order: &[usize]) -> Result<Protocol, AllocError>
    requires form { HasModuleForm whole }
    requires free { IsFree (parts_of whole) }
    requires order { IsCallOrder (parts_of whole) order.now }
    ensures expanded { IfOk result (IsExpanded whole) }
    ensures form { IfOk result (λ p. HasForm (body_of p.body) (length p.roles)) }
    ensures full { IfOk result (λ p. IsFullText (body_of p.body)) }
    ensures words { IfOk result (λ p. All (λ m. IsWord m.1.label) (singles (body_of p.body))) }
{
    let body = expansion_of(alloc, &Parts::of(&whole), order)?;
    let main = whole.main;
    Ok(Protocol {
        module: main.module,
        decls: main.decls,
        name: main.name,
        roles: main.roles,
        body,
    })
}

/// The first protocol of a module, with each call replaced by the statements of the protocol that it names, whose roles
/// are replaced by the arguments, until no call is left.
///
/// Refused at the first call in text order at which a code holds, with the least one: 13 if no protocol has the name,
/// 52 if the number of arguments isn't that of its roles, 53 if it comes back to the protocol that holds the call, 54
/// if its body is empty. If there is none, 12 at the first call of the first protocol up to whose end the expansion
/// has a 33rd nested block. If there is none of these either, 18 at the first up to whose end it has a 257th point.
/// The last call stands for the text after it, too. `Memory` if no memory is left.
///
/// Time and memory are those of the answer and of the module's text: each call is entered at its place.
pub fn expand(alloc: Global, whole: Module) -> Result<Protocol, TextError>
    requires { HasModuleForm whole }
    ensures answer { MatchResult result (IsExpanded whole) (FailsBy whole) }
    ensures form { IfOk result (λ p. HasForm (body_of p.body) (length p.roles)) }
    ensures full { IfOk result (λ p. IsFullText (body_of p.body)) }
    ensures words { IfOk result (λ p. All (λ m. IsWord m.1.label) (singles (body_of p.body))) }
{
    let order = order_or_refusal(alloc, &whole)?;
    Ok(expanded(alloc, whole, order.as_slice())?)
}

/// The same as `expand`, refused as there, with the origin of each point of the expansion: the names of the protocols
/// in text order, and for each point, in order, the protocol and the point of its text, and the calls through which it
/// came.
pub fn expand_traced(alloc: Global, whole: Module) -> Result<(Protocol, Origins), TextError>
    requires { HasModuleForm whole }
    ensures answer { MatchResult result (λ r. IsExpanded whole r.0) (FailsBy whole) }
    ensures form { IfOk result (λ r. HasForm (body_of r.0.body) (length r.0.roles)) }
    ensures full { IfOk result (λ r. IsFullText (body_of r.0.body)) }
    ensures words { IfOk result (λ r. All (λ m. IsWord m.1.label) (singles (body_of r.0.body))) }
    ensures origins { IfOk result (λ r. AreOriginsOf whole r.1) }
{
    let order = order_or_refusal(alloc, &whole)?;
    let origins = origins_of(alloc, &whole, order.as_slice())?;
    let protocol = expanded(alloc, whole, order.as_slice())?;
    Ok((protocol, origins))
}
