// What is given of each option.

ghost use Rattle.std.specs.Prelude.{◌≡◌, ◌≤◌, ◌↔◌, ℕ, List, Some, None, false, codes, IfSome, IfNone, IfOk, IfErr};
ghost use Rattle.std.specs.Prelude.{IsTrue};
ghost use Rattle.clap.specs.Words.{found_of, one_text, rows_of};
ghost use Rattle.rcv_look.specs.Commands.{CommandView, Says, number_in, given_in, given_of};
ghost use Rattle.rcv_look.specs.Commands.{journal_for, view_of, IsWithin, AreFlags, Usual, AsText, AsJson};
ghost use Rattle.rcv_look.specs.Asked.{asked};
ghost use Rattle.rcv_look.specs.Program.{IsOfProgram, IsNumberText};
ghost use Rattle.rcv_words.specs.declared.error.WordsError.TheVariants.{Usage};

use crate::command::Command;
use clap::ArgMatches;
use rcv_tree::name::Name;
use rcv_words::error::WordsError;
use std::alloc::Global;

// The word and the options, as far as they are given.
#[derive(Clone, Copy)]
pub struct Given<'a> {
    command: Option<&'a str>,
    role: Option<&'a str>,
    code: Option<u32>,
    session: Option<u32>,
    text: bool,
    json: bool,
}

// The number that is given for the option.
fn number_in(matches: &ArgMatches<'_>, name: &str, least: u32, most: u32) -> Option<u32>
    requires { (text : List ℕ) → one_text (found_of matches.now) name.now ≡ Some text → IsNumberText least most text }
    ensures value { result ≡ number_in name.now (rows_of (found_of matches.now)) }
    ensures range { IfSome result (λ number. (least ≤ number) × (number ≤ most)) }
{
    matches.get_one::<u32>(name)
}

// The journal of an input, or of one of its sessions.
fn journal_for(session: Option<u32>) -> Command
    ensures { view_of result ≡ journal_for session }
{
    match session {
        Some(number) => Command::Session { number },
        None => Command::Journal,
    }
}

impl<'a> Given<'a> {
    // What the crate found.
    pub fn of(matches: &ArgMatches<'a>) -> Given<'a>
        requires { IsOfProgram matches.now }
        ensures value { given_of result ≡ given_in (rows_of (found_of matches.now)) }
        ensures code { IfSome result.code (λ number. number ≤ 255) }
        ensures session { IfSome result.session (λ number. (1 ≤ number) × (number ≤ 64)) }
    {
        Given {
            command: matches.get_str("command"),
            role: matches.get_str("role"),
            code: number_in(matches, "code", 0, 255),
            session: number_in(matches, "session", 1, 64),
            text: matches.get_flag("text"),
            json: matches.get_flag("json"),
        }
    }

    // No option and no flag except that of the session.
    fn journal(&self) -> Option<Command>
        ensures some { IfSome result (λ command. (view_of command ≡ journal_for self.now.session)
            × (self.now.role ≡ None) × (self.now.code ≡ None) × AreFlags Usual self.now.text self.now.json) }
        ensures none { IfNone result (self.now.role ≡ None → self.now.code ≡ None
            → AreFlags Usual self.now.text self.now.json → ⊥) }
    {
        if self.role.is_none() && self.code.is_none() && !self.text && !self.json {
            Some(journal_for(self.session))
        } else {
            None
        }
    }

    // No option, and whether these flags are given.
    fn is_bare(&self, text: bool, json: bool) -> bool
        ensures { IsTrue result ↔ ((self.now.role ≡ None) × (self.now.code ≡ None) × (self.now.session ≡ None)
            × (self.now.text ≡ text) × (self.now.json ≡ json)) }
    {
        self.role.is_none()
            && self.code.is_none()
            && self.session.is_none()
            && self.text == text
            && self.json == json
    }

    // No option and no flag.
    fn alone(&self, command: Command) -> Option<Command>
        ensures some { IfSome result (λ given. (given ≡ command) × (self.now.role ≡ None) × (self.now.code ≡ None)
            × (self.now.session ≡ None) × AreFlags Usual self.now.text self.now.json) }
        ensures none { IfNone result (self.now.role ≡ None → self.now.code ≡ None → self.now.session ≡ None
            → AreFlags Usual self.now.text self.now.json → ⊥) }
    {
        if self.is_bare(false, false) {
            Some(command)
        } else {
            None
        }
    }

    // No option, and `--text` alone of the flags.
    fn as_text(&self, command: Command) -> Option<Command>
        ensures some { IfSome result (λ given. (given ≡ command) × (self.now.role ≡ None) × (self.now.code ≡ None)
            × (self.now.session ≡ None) × AreFlags AsText self.now.text self.now.json) }
        ensures none { IfNone result (self.now.role ≡ None → self.now.code ≡ None → self.now.session ≡ None
            → AreFlags AsText self.now.text self.now.json → ⊥) }
    {
        if self.is_bare(true, false) {
            Some(command)
        } else {
            None
        }
    }

    // No option, and `--json` alone of the flags.
    fn as_json(&self, command: Command) -> Option<Command>
        ensures some { IfSome result (λ given. (given ≡ command) × (self.now.role ≡ None) × (self.now.code ≡ None)
            × (self.now.session ≡ None) × AreFlags AsJson self.now.text self.now.json) }
        ensures none { IfNone result (self.now.role ≡ None → self.now.code ≡ None → self.now.session ≡ None
            → AreFlags AsJson self.now.text self.now.json → ⊥) }
    {
        if self.is_bare(false, true) {
            Some(command)
        } else {
            None
        }
    }

    // A role, and no other option, and not `--text`.
    fn role(&self) -> Option<&'a str>
        ensures some { IfSome result (λ role. ((given_of self.now).role ≡ Some role.now)
            × (self.now.code ≡ None) × (self.now.session ≡ None) × (self.now.text ≡ false)) }
        ensures none { IfNone result ((role : List ℕ) → (given_of self.now).role ≡ Some role
            → self.now.code ≡ None → self.now.session ≡ None → self.now.text ≡ false → ⊥) }
    {
        if self.code.is_none() && self.session.is_none() && !self.text {
            self.role
        } else {
            None
        }
    }

    // A code, and no other option and no flag.
    fn code(&self) -> Option<u32>
        ensures some { IfSome result (λ code. (self.now.role ≡ None) × (self.now.code ≡ Some code)
            × (self.now.session ≡ None) × AreFlags Usual self.now.text self.now.json) }
        ensures none { IfNone result ((code : ℕ) → self.now.role ≡ None → self.now.code ≡ Some code
            → self.now.session ≡ None → AreFlags Usual self.now.text self.now.json → ⊥) }
    {
        if self.role.is_none() && self.session.is_none() && !self.text && !self.json {
            self.code
        } else {
            None
        }
    }

    // A table in the form that the flags say.
    fn table(&self) -> Option<Command>
        requires { (given_of self.now).command ≡ Some (codes "table") }
        ensures some { IfSome result (λ command. Says (given_of self.now) (view_of command)) }
        ensures none { IfNone result (Says (given_of self.now) (asked (given_of self.now)) → ⊥) }
    {
        if self.json {
            self.as_json(Command::TableJson)
        } else {
            self.alone(Command::Table)
        }
    }

    // The points in the form that the flags say.
    fn points(&self) -> Option<Command>
        requires { (given_of self.now).command ≡ Some (codes "points") }
        ensures some { IfSome result (λ command. Says (given_of self.now) (view_of command)) }
        ensures none { IfNone result (Says (given_of self.now) (asked (given_of self.now)) → ⊥) }
    {
        if self.json {
            self.as_json(Command::PointsJson)
        } else {
            self.alone(Command::Points)
        }
    }

    // What crashes would cost, in the form that the flags say.
    fn failures(&self) -> Option<Command>
        requires { (given_of self.now).command ≡ Some (codes "failures") }
        ensures some { IfSome result (λ command. Says (given_of self.now) (view_of command)) }
        ensures none { IfNone result (Says (given_of self.now) (asked (given_of self.now)) → ⊥) }
    {
        if self.text {
            self.as_text(Command::FailuresText)
        } else if self.json {
            self.as_json(Command::FailuresJson)
        } else {
            self.alone(Command::Failures)
        }
    }

    // What a role does, in the form that the flags say.
    fn of_role(&self, alloc: Global) -> Result<Command, WordsError>
        requires { (given_of self.now).command ≡ Some (codes "role") }
        ensures command { IfOk result (λ command. Says (given_of self.now) (view_of command)) }
        ensures within { IfOk result (λ command. IsWithin (view_of command)) }
        ensures usage { IfErr result (λ error. error ≡ Usage → Says (given_of self.now) (asked (given_of self.now)) → ⊥) }
    {
        let name = self.role().ok_or(WordsError::Usage)?;
        let role = Name::of(alloc, name.as_bytes())?;
        if self.json {
            Ok(Command::RoleJson { role })
        } else {
            Ok(Command::Role { role })
        }
    }

    // The command that has this word and these options, and no others.
    pub fn command(&self, alloc: Global) -> Result<Command, WordsError>
        requires code { IfSome self.now.code (λ number. number ≤ 255) }
        requires session { IfSome self.now.session (λ number. (1 ≤ number) × (number ≤ 64)) }
        ensures command { IfOk result (λ command. Says (given_of self.now) (view_of command)) }
        ensures within { IfOk result (λ command. IsWithin (view_of command)) }
        ensures usage { IfErr result (λ error. error ≡ Usage → (command : CommandView)
            → Says (given_of self.now) command → ⊥) }
    {
        match self.command.ok_or(WordsError::Usage)? {
            "journal" => self.journal().ok_or(WordsError::Usage),
            "told" => self.alone(Command::Told).ok_or(WordsError::Usage),
            "replay" => self.alone(Command::Replay).ok_or(WordsError::Usage),
            "table" => self.table().ok_or(WordsError::Usage),
            "role" => self.of_role(alloc),
            "protocol" => self.alone(Command::Protocol).ok_or(WordsError::Usage),
            "points" => self.points().ok_or(WordsError::Usage),
            "failures" => self.failures().ok_or(WordsError::Usage),
            "explain" => Ok(Command::Explain {
                code: self.code().ok_or(WordsError::Usage)?,
            }),
            _ => Err(WordsError::Usage),
        }
    }
}
