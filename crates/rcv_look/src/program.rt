// The options of the program.

ghost use Rattle.std.specs.Prelude.{◌≡◌, codes, false, IfOk};
ghost use Rattle.clap.specs.Words.{app_of, rule_of};
ghost use Rattle.rcv_look.specs.Program.{rcv_show, text_rule, flag_rule, number_rule, command_rule};

use clap::{Arg, ArgAction, Command, value_parser};
use std::alloc::{AllocError, Global};

// The option with this name takes any text.
fn text<'a>(alloc: Global, name: &'a str) -> Arg<'a>
    ensures rule { rule_of result ≡ text_rule name.entry.now }
    ensures local { result.global ≡ false }
{
    Arg::new(alloc, name).long(name)
}

// The option with this name is given or it isn't.
fn flag<'a>(alloc: Global, name: &'a str) -> Arg<'a>
    ensures rule { rule_of result ≡ flag_rule name.entry.now }
    ensures local { result.global ≡ false }
{
    text(alloc, name)
        .action(ArgAction::SetTrue)
        .value_parser(value_parser!(bool))
}

// The word that says what to do.
fn command<'a>(alloc: Global) -> Arg<'a>
    ensures rule { rule_of result ≡ command_rule }
    ensures local { result.global ≡ false }
{
    Arg::new(alloc, "command").required(true)
}

// The code of a rule: 0 to 255.
fn code<'a>(alloc: Global) -> Arg<'a>
    ensures rule { rule_of result ≡ number_rule (codes "code") 0 255 }
    ensures local { result.global ≡ false }
{
    text(alloc, "code").value_parser(value_parser!(u32).range(0..=255))
}

// Which of several sessions: 1 to 64.
fn session<'a>(alloc: Global) -> Arg<'a>
    ensures rule { rule_of result ≡ number_rule (codes "session") 1 64 }
    ensures local { result.global ≡ false }
{
    text(alloc, "session").value_parser(value_parser!(u32).range(1..=64))
}

/// What `clap` is told of the program.
pub fn program<'a>(alloc: Global) -> Result<Command<'a>, AllocError>
    ensures { IfOk result (λ program. app_of program ≡ rcv_show) }
{
    Command::new(alloc, "rcv-show")
        .arg(command(alloc))?
        .arg(text(alloc, "role"))?
        .arg(code(alloc))?
        .arg(session(alloc))?
        .arg(flag(alloc, "text"))?
        .arg(flag(alloc, "json"))
}
