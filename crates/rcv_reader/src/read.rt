// Reads the text of a whole module.

ghost use Rattle.std.specs.Prelude.{◌≡◌, ◌<◌, ◌≤◌, ◌+◌, ◌^◌, ◌∷◌, [], length, All, MatchResult, IfOk, IfErr, OnOk, List, ℕ};
ghost use Rattle.rcv_tree.specs.Lists.{statements, declarations, protocols};
ghost use Rattle.rcv_model.specs.Form.{HasForm};
ghost use Rattle.rcv_model.specs.Text.{body_of};
ghost use Rattle.rcv_lexer.specs.Parts.{LiesIn};
ghost use Rattle.rcv_syntax.specs.Symbols.{Is, symbols_of};
ghost use Rattle.rcv_machine.specs.Machine.{This, ProtocolName, MoreProtocols, in_head};
ghost use Rattle.rcv_reader.specs.Descent.{Ends, IsHead, IsProtocol, Takes, Consumes, afresh, at_first};
ghost use Rattle.rcv_reader.specs.Refusals.{AreReadAs, IsRead, IsRefused};

use crate::calls::lines_of_calls;
use crate::parser::{Parser, Spot};
use crate::stop::Stop;
use rcv_lexer::line_before;
use rcv_lexer::token::Token;
use rcv_syntax::{Fault, Sign};
use rcv_tree::module::{Module, Protocols};
use rcv_tree::name::Names;
use rcv_tree::protocol::{Decls, Protocol};
use rcv_tree::refusal::{Refusal, TextError};
use rcv_tree::role::RoleSet;
use rcv_tree::statement::Block;
use std::alloc::Global;

impl<'a> Parser<'a> {
    // Takes what stands before the protocols, and the word `global` after it.
    #[tactic(auto, using(crate::proofs::Reading::modules_are_listed))]
    fn head(&mut self, alloc: Global) -> Result<(Names, Decls), Stop>
        requires fresh { self.old ≡ at_first self.old.rest }
        ensures goes { Takes result self.old self.new in_head (λ x k. k) }
        ensures read { IfOk result (λ h. IsHead h.0 (declarations h.1) self.old self.new) }
    {
        self.expect(Sign::Module)?;
        let module = self.names(alloc, Sign::Dot, Sign::Semicolon)?;
        Ok((module, self.decls(alloc)?))
    }

    // Takes a protocol after the word `global`, and forgets what is known of it, except for its name. Puts the module
    // and the declarations into its tree.
    fn protocol(&mut self, alloc: Global, modules: Names, decls: Decls) -> Result<Protocol, Stop>
        requires fresh { self.old ≡ afresh self.old.protocols self.old.rest }
        ensures goes { Consumes result self.old self.new (λ k. This (Is Sign.Protocol) ∷ ProtocolName ∷ k)
            (λ x k. MoreProtocols ∷ k) }
        ensures read { IfOk result (IsProtocol self.old self.new) }
        ensures given { IfOk result (λ p. (p.«module» ≡ modules) × (declarations p.decls ≡ declarations decls)) }
    {
        let name = self.heading(alloc)?;
        let mut body = Block::new(alloc);
        let spot = Spot {
            depth: 1,
            comes: 0,
            ended: false,
            earlier: RoleSet(0),
        };
        self.stmts(alloc, spot, &mut body)?;
        let roles = self.begin_anew(alloc);
        Ok(Protocol {
            module: modules,
            decls,
            name,
            roles,
            body,
        })
    }

    // Takes a whole module: its first protocol, and the others.
    fn module(&mut self, alloc: Global) -> Result<(Protocol, Protocols), Stop>
        requires fresh { self.old ≡ at_first self.old.rest }
        ensures ok { IfOk result (λ m. AreReadAs self.old.rest m.0 (protocols m.1)
            × (length (protocols m.1) < 64)
            × All (λ p. HasForm (body_of p.body) (length p.roles)) (m.0 ∷ protocols m.1)) }
        ensures err { IfErr result (λ e. Ends e self.old.rest self.new.rest) }
    {
        let (module, decls) = self.head(alloc)?;
        let main = self.protocol(alloc, module, decls)?;
        let mut others = Protocols::new(alloc);
        while self.takes(Sign::Global) {
            others.push(self.protocol(alloc, Names::new(alloc), Decls::new(alloc))?)?;
        }
        if self.left() != 0 {
            return Err(Stop::Refused(Fault::Token));
        }
        Ok((main, others))
    }
}

/// The module that the tokens of a part of the bundle spell. `last` is the line of the part's end.
///
/// It is read exactly if the grammar derives the tokens and no code holds at any of them. Else it is refused at the
/// first token, or the end, at which a code holds. The refusal has the least code that holds there, and the line of the
/// token or of the part's end. The codes: 11 if the grammar doesn't have the token or the end there, 12 at the brace of
/// the 33rd nested block, 13 at a role or an argument that the protocol doesn't declare or the name of no enclosing
/// recursion, 14 at a protocol, a role, an alias, a receiver or an argument that stands before, 15 at a receiver that
/// is the sender, 16 at a statement after a `continue`, 17 at a `continue` to which a walk comes without a message and
/// without a call, 18 at the 65th protocol, the ninth role of one or the receiver that makes its 257th point, 19 at a
/// `par` in another block than the first protocol's own, 29 at a role in a block of a `par` that an earlier block of
/// this `par` names. `Memory` comes if no memory is left.
pub fn read_module(
    alloc: Global,
    bundle: &[u8],
    list: &[Token],
    last: u32,
) -> Result<Module, TextError>
    requires inside { All (λ t. LiesIn bundle.now t.span) list.now }
    ensures read { MatchResult result (IsRead bundle.now list.now) (IsRefused bundle.now list.now last) }
    ensures few { IfOk result (λ m. length (protocols m.others) < 64) }
    ensures form { IfOk result (λ m. All (λ p. HasForm (body_of p.body) (length p.roles)) (m.main ∷ protocols m.others)) }
{
    let mut parser = Parser::new(alloc, bundle, list);
    match parser.module(alloc) {
        Ok((main, others)) => {
            let dos = lines_of_calls(alloc, bundle, list)?;
            Ok(Module { main, others, dos })
        }
        Err(Stop::Memory) => Err(TextError::Memory),
        Err(Stop::Refused(fault)) => Err(TextError::Refused(Refusal::Text {
            code: fault.code(),
            line: line_before(list, last, parser.left()),
        })),
    }
}
