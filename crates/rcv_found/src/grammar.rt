// The grammars of an input's parts, and their readers.

ghost use Rattle.std.specs.Prelude.{◌≡◌, MatchResult};
ghost use Rattle.std.specs.List.{All};
ghost use Rattle.rcv_lexer.specs.Parts.{LiesIn};
ghost use Rattle.rcv_reader.specs.Refusals as reader;
ghost use Rattle.rcv_script.specs.Scripts.{AreRefusedFor};
ghost use Rattle.rcv_plan.specs.Refusing as planning;
ghost use Rattle.rcv_found.specs.Stops.{AreModule, AreScripts, ArePlan, IsTakenBy, IsRefusedBy, token_code};
ghost use Rattle.rcv_found.specs.Seen.{grammar_in};

use rcv_accept::accepted::Accepted;
use rcv_lexer::token::Token;
use rcv_plan::read_plan;
use rcv_reader::read_module;
use rcv_script::read_scripts;
use rcv_tree::refusal::TextError;
use std::alloc::Global;

/// Which part of an input is read. Scripts and plans are read for an accepted protocol.
#[derive(Clone, Copy)]
pub enum Grammar<'a> {
    Protocol,
    Scripts(&'a Accepted),
    Plan(&'a Accepted),
}

impl Grammar<'_> {
    /// The code of a token that the grammar doesn't have somewhere.
    pub fn token_code(&self) -> u8
        ensures { result ≡ token_code (grammar_in self.now) }
    {
        match self {
            Grammar::Protocol => 11,
            Grammar::Scripts(_) => 30,
            Grammar::Plan(_) => 40,
        }
    }

    /// Reads the tokens, and keeps no more than whether they are read. `last` is the line of the part's end.
    pub fn read(
        &self,
        alloc: Global,
        bundle: &[u8],
        list: &[Token],
        last: u32,
    ) -> Result<(), TextError>
        requires { All (λ t. LiesIn bundle.now t.span) list.now }
        ensures { MatchResult result (λ _. IsTakenBy (grammar_in self.now) bundle.now list.now)
            (IsRefusedBy (grammar_in self.now) bundle.now list.now last) }
    {
        match self {
            Grammar::Protocol => read_protocol(alloc, bundle, list, last),
            Grammar::Scripts(accepted) => read_script(alloc, bundle, list, last, accepted),
            Grammar::Plan(accepted) => read_lines(alloc, bundle, list, last, accepted),
        }
    }
}

// Whether the tokens are read as a module.
fn read_protocol(alloc: Global, bundle: &[u8], list: &[Token], last: u32) -> Result<(), TextError>
    requires { All (λ t. LiesIn bundle.now t.span) list.now }
    ensures { MatchResult result (λ _. AreModule bundle.now list.now) (reader.IsRefused bundle.now list.now last) }
{
    let _module = read_module(alloc, bundle, list, last)?;
    Ok(())
}

// Whether they are read as scripts.
fn read_script(
    alloc: Global,
    bundle: &[u8],
    list: &[Token],
    last: u32,
    accepted: &Accepted,
) -> Result<(), TextError>
    requires { All (λ t. LiesIn bundle.now t.span) list.now }
    ensures { MatchResult result (λ _. AreScripts accepted.now bundle.now list.now)
        (AreRefusedFor bundle.now list.now last accepted.now.protocol) }
{
    let _scripts = read_scripts(alloc, bundle, list, last, accepted)?;
    Ok(())
}

// Whether they are read as a plan.
fn read_lines(
    alloc: Global,
    bundle: &[u8],
    list: &[Token],
    last: u32,
    accepted: &Accepted,
) -> Result<(), TextError>
    requires { All (λ t. LiesIn bundle.now t.span) list.now }
    ensures { MatchResult result (λ _. ArePlan accepted.now bundle.now list.now)
        (planning.IsRefused bundle.now list.now last accepted.now.protocol.roles) }
{
    let _plan = read_plan(alloc, bundle, list, last, accepted)?;
    Ok(())
}
