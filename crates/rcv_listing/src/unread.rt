// Why a part of an input isn't read, and what is said of it.

ghost use Rattle.std.specs.Prelude.{◌≡◌, ◌++◌, ◌+◌, ◌^◌, ◌<◌, ℕ, List, length, IfOk, IfSome, OnOk, MatchOption};
ghost use Rattle.rcv_lexer.specs.Parts.{LiesIn};
ghost use Rattle.rcv_found.specs.Findings.{IsFindingIn, LiesWrong};
ghost use Rattle.rcv_found.specs.Seen.{grammar_in};
ghost use Rattle.rcv_found.specs.declared.finding.Finding.TheVariants.{Taken};
ghost use Rattle.rcv_listing.specs.Unread.{IsSaidBy, IsUnreadIn, LiesSaid, AddsUnread, IsRuleTold, wrong_part};

use crate::found::write_wrong;
use crate::told::write_rule;
use rcv_explain::explain;
use rcv_found::finding::{Finding, find};
use rcv_found::grammar::Grammar;
use rcv_found::wrong::Wrong;
use rcv_input::{Refused, refusal_line};
use rcv_lexer::token::Span;
use rcv_text::writer::Writer;
use std::alloc::{AllocError, Global};

/// A refusal at a line, and what is told of a bad letter or of the tokens of the part, if its reader refuses them.
#[derive(Drop)]
pub struct Unread {
    pub code: u8,
    pub line: u32,
    pub wrong: Option<Wrong>,
}

// What a finding says of its part; none if the part is read.
fn said_by(finding: Finding) -> Option<Unread>
    ensures said { MatchOption result (finding ≡ Taken) (IsSaidBy finding) }
    ensures lies { (input : List ℕ) → LiesWrong input finding → IfSome result (LiesSaid input) }
{
    match finding {
        Finding::Letter(told) => Some(Unread {
            code: 10,
            line: told.spot.line,
            wrong: Some(told),
        }),
        Finding::Wrong(wrong) => Some(Unread {
            code: wrong.code,
            line: wrong.spot.line,
            wrong: Some(wrong),
        }),
        Finding::Taken => None,
    }
}

/// What is said of a part; none if it is read. Fails if memory runs out.
#[tactic(auto, using(crate::proofs::Unreading::said_of))]
pub fn unread_in(
    alloc: Global,
    grammar: &Grammar<'_>,
    input: &[u8],
    part: Span,
) -> Result<Option<Unread>, AllocError>
    requires short { length input.now + 8 < 2 ^ 32 }
    requires inside { LiesIn input.now part }
    ensures unread { IfOk result (λ unread. MatchOption unread (IsFindingIn (grammar_in grammar.now) input.now part Taken)
        (IsUnreadIn (grammar_in grammar.now) input.now part)) }
    ensures lies { IfOk result (λ unread. IfSome unread (LiesSaid input.now)) }
{
    let found = find(alloc, grammar, input, part)?;
    Ok(said_by(found))
}

// Writes the rule with this code and its repair, if there is one.
#[tactic(auto, using(crate::proofs::Unreading::rule_told, crate::proofs::Unreading::no_rule_told))]
fn write_told_rule(text: &mut Writer, code: u8) -> Result<(), AllocError>
    ensures { OnOk result ((told : List ℕ) × IsRuleTold code told × (text.new ≡ text.old ++ told)) }
{
    match explain(code) {
        Some(explanation) => {
            write_rule(text, &explanation)?;
            Ok(())
        }
        None => Ok(()),
    }
}

// Writes what was found, if tokens are wrong.
fn write_part(text: &mut Writer, input: &[u8], wrong: &Option<Wrong>) -> Result<(), AllocError>
    requires { IfSome wrong.now (λ w. LiesIn input.now w.spot.span) }
    ensures { OnOk result (text.new ≡ text.old ++ wrong_part input.now wrong.now) }
{
    match wrong {
        Some(wrong) => write_wrong(text, input, wrong),
        None => Ok(()),
    }
}

/// Writes what is said of a part that isn't read: the refusal's line, what was found and what may stand there, the rule
/// and the repair. Fails if memory runs out.
#[tactic(auto, using(crate::proofs::Unreading::unread_added))]
pub fn write_unread(
    alloc: Global,
    text: &mut Writer,
    input: &[u8],
    unread: &Unread,
) -> Result<(), AllocError>
    requires { LiesSaid input.now unread.now }
    ensures { OnOk result (AddsUnread input.now unread.now text.old text.new) }
{
    let refused = Refused::Line {
        code: unread.code,
        line: unread.line,
    };
    let line = refusal_line(alloc, &refused)?;
    text.word(line.as_slice())?;
    write_part(text, input, &unread.wrong)?;
    write_told_rule(text, unread.code)?;
    Ok(())
}
