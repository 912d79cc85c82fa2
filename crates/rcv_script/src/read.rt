// Reads the scripts of a protocol's roles.

ghost use Rattle.std.specs.Prelude.{◌≡◌, ◌<◌, ◌≤◌, length, MatchResult, IfOk, IfErr};
ghost use Rattle.std.specs.List.{All};
ghost use Rattle.rcv_lexer.specs.Parts.{LiesIn};
ghost use Rattle.rcv_script.specs.Symbols.{symbols_of};
ghost use Rattle.rcv_script.specs.Machine.{Taken, script, no_lines, reading};
ghost use Rattle.rcv_script.specs.Descent.{Goes, Ceases};
ghost use Rattle.rcv_script.specs.Scripts.{AreScriptsOf, AreRefusedFor};

use crate::fault::{Fault, Read, ScriptError};
use crate::parser::Parser;
use crate::scripts::{Script, Scripts};
use rcv_accept::accepted::Accepted;
use rcv_lexer::token::Token;
use rcv_lexer::{Ahead, line_before};
use rcv_points::points::Points;
use rcv_tree::name::{Name, Names};
use rcv_tree::refusal::{Refusal, TextError};
use std::alloc::{AllocError, Global};

impl<'a> Parser<'a> {
    // Takes what stands after the word `role`: a role and its script.
    #[tactic(auto, using(crate::proofs::Stops::no_word))]
    fn script(&mut self, roles: &Names, points: &Points, given: &[usize]) -> Read<(usize, Script)>
        ensures goes { Goes result (λ k. script roles.now given.now points.now.messages k) (λ x. x)
            self.old.rest self.new.rest }
        ensures declared { IfOk result (λ x. x.0 < length roles.now) }
        ensures shorter { IfOk result (λ _. length self.new.rest ≤ length self.old.rest) }
    {
        let (word, after) = self.rest.word().ok_or(Fault::Token)?;
        let role = roles.place_of(word).ok_or(Fault::Role)?;
        if given.contains(&role) {
            return Err(ScriptError::Refused(Fault::Role));
        }
        self.rest = after;
        let lines = self.lines(points, role)?;
        Ok((role, Script::of(lines)))
    }

    // Takes all scripts.
    #[tactic(auto, using(crate::proofs::Stops::no_script))]
    fn scripts(&mut self, roles: &Names, points: &Points) -> Read<Vec<Script>>
        ensures ok { IfOk result (λ found. reading roles.now points.now.messages self.old.rest ≡ Taken found.items) }
        ensures all { IfOk result (λ scripts. length scripts.items ≡ length roles.now) }
        ensures err { IfErr result (λ e. Ceases roles.now points.now.messages e self.old.rest self.new.rest) }
    {
        let mut scripts = no_lines(self.alloc, roles.as_slice())?;
        let mut given = Vec::new(self.alloc);
        while self.takes_word(b"role") {
            let (role, script) = self.script(roles, points, given.as_slice())?;
            given.push(role)?;
            scripts[role] = script;
        }
        if !self.rest.is_empty() {
            return Err(ScriptError::Refused(Fault::Token));
        }
        Ok(scripts)
    }
}

// A script without lines for each role.
fn no_lines(alloc: Global, roles: &[Name]) -> Result<Vec<Script>, AllocError>
    ensures { IfOk result (λ scripts. scripts.items ≡ no_lines roles.now) }
{
    let mut scripts = Vec::new(alloc);
    for _name in roles {
        scripts.push(Script::of(Vec::new(alloc)))?;
    }
    Ok(scripts)
}

/// The scripts that the tokens of a part of the bundle say, for an accepted protocol. `last` is the line of the part's
/// end. A part without tokens gives each role a script without lines.
///
/// Refused at the first token at which a code holds, or at the part's end, with the least code at it and its line:
/// 30 if the grammar doesn't have the token or the end there, and at a number above 9223372036854775807; 31 at a
/// role that isn't declared or has a script before; 32 at a label of `send` or `pick` that the role never sends, one of
/// `on` that it neither sends nor receives, and that of a second `send` line; 33 at a variable that isn't declared
/// before, at a name that is declared again or is `value` or `attempt`, and at `value` in a `send` or `pick` line; 34
/// at `attempt` in an `on` line; 35 at a label of `send` that stands for a message without sorts, and at `value` in an
/// `on` line of such a label; 36 at the word `var` of the 17th variable, the first word of the 257th line of a role,
/// and the 33rd nested parenthesis or sign of an expression. `Memory` if no memory is left.
#[tactic(auto, using(crate::proofs::Answering::taken, crate::proofs::Answering::refused))]
pub fn read_scripts(
    alloc: Global,
    bundle: &[u8],
    list: &[Token],
    last: u32,
    accepted: &Accepted,
) -> Result<Scripts, TextError>
    requires inside { All (λ t. LiesIn bundle.now t.span) list.now }
    ensures { MatchResult result (AreScriptsOf accepted.now.protocol (symbols_of bundle.now list.now))
        (AreRefusedFor bundle.now list.now last accepted.now.protocol) }
{
    let roles = &accepted.protocol().roles;
    let points = accepted.points();
    let mut parser = Parser {
        alloc,
        rest: Ahead::new(bundle, list),
    };
    match parser.scripts(roles, points) {
        Ok(scripts) => Ok(Scripts::of(alloc, scripts, points)?),
        Err(ScriptError::Memory) => Err(TextError::Memory),
        Err(ScriptError::Refused(fault)) => Err(TextError::Refused(Refusal::Text {
            code: fault.code(),
            line: line_before(list, last, parser.rest.len()),
        })),
    }
}
