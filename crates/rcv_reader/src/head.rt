// What stands before the statements: the names of the module, the declarations, and a protocol's roles.

ghost use Rattle.std.specs.Prelude.{◌≡◌, ◌≢◌, ◌<◌, ◌+◌, ◌++◌, ◌∷◌, [], length, ℕ};
ghost use Rattle.std.specs.Prelude.{List, codes, IfOk, OnOk, IfErr, true, false};
ghost use Rattle.rcv_tree.specs.Lists.{declarations};
ghost use Rattle.rcv_syntax.specs.Symbols.{Is, Word, Text, IsNotNext};
ghost use Rattle.rcv_syntax.specs.Grammar.{is_decl_word};
ghost use Rattle.rcv_machine.specs.Machine.{This, AnyName, AnyQuoted, Decls as Declaring, Alias, RoleName};
ghost use Rattle.rcv_machine.specs.Machine.{ProtocolName, Rest, MoreProtocols, outermost};
ghost use Rattle.rcv_reader.specs.Descent.{at, at_first, afresh, with_roles, names_of_roles, AreTaken, HasThese};
ghost use Rattle.rcv_reader.specs.Descent.{IsOpened, Takes};

use crate::parser::Parser;
use crate::stop::Stop;
use rcv_lexer::{Lexeme, is};
use rcv_syntax::{Fault, Sign};
use rcv_tree::name::Name;
use rcv_tree::protocol::{Decl, Decls};
use std::alloc::Global;
use std::collections::BTreeSet;

impl<'a> Parser<'a> {
    // Takes this word or mark, and what stands between the two quotes after it.
    fn quoted(&mut self, alloc: Global, sign: Sign) -> Result<Name, Stop>
        ensures goes { Takes result self.old self.new (λ k. This (Is sign) ∷ AnyQuoted ∷ k) (λ x k. k) }
        ensures read { IfOk result (λ q. self.old ≡ at self.new (Is sign ∷ Text q ∷ self.new.rest)) }
    {
        self.expect(sign)?;
        let Some((Lexeme::Text(bytes), after)) = self.next() else {
            return Err(Stop::Refused(Fault::Token));
        };
        let text = Name::of(alloc, bytes)?;
        self.go_to(after);
        Ok(text)
    }

    /// Takes the roles, each after the word `role`, and the parenthesis and the brace after them.
    pub fn role_names(&mut self, alloc: Global) -> Result<(), Stop>
        requires none { (self.old.roles ≡ []) × (self.old.since ≡ 0) }
        ensures goes { Takes result self.old self.new (λ k. This (Is Sign.Role) ∷ RoleName
            ∷ This (Is Sign.Open) ∷ k) (λ x k. k) }
        ensures read { OnOk result ((self.new.roles ≢ []) × (self.old ≡ with_roles self.new []
            (Is Sign.Role ∷ names_of_roles self.new.roles (Is Sign.Right ∷ Is Sign.Open ∷ self.new.rest)))) }
    {
        loop {
            self.expect(Sign::Role)?;
            self.add_role(alloc)?;
            if !self.takes(Sign::Comma) {
                self.expect(Sign::Right)?;
                return self.expect(Sign::Open);
            }
        }
    }

    /// Takes what stands between the word `global` and the body of a protocol, with the body's first brace.
    pub fn heading(&mut self, alloc: Global) -> Result<Name, Stop>
        requires fresh { self.old ≡ afresh self.old.protocols self.old.rest }
        ensures goes { Takes result self.old self.new (λ k. This (Is Sign.Protocol) ∷ ProtocolName ∷ k)
            (λ n k. Rest outermost ∷ MoreProtocols ∷ k) }
        ensures read { IfOk result (IsOpened self.old self.new) }
    {
        self.expect(Sign::Protocol)?;
        let name = self.add_protocol(alloc)?;
        self.expect(Sign::Left)?;
        self.role_names(alloc)?;
        Ok(name)
    }

    // Takes the word `as`.
    fn word_as(&mut self) -> Result<(), Stop>
        ensures goes { Takes result self.old self.new (λ k. This (Word (codes "as")) ∷ k) (λ x k. k) }
        ensures read { OnOk result (self.old ≡ at self.new (Word (codes "as") ∷ self.new.rest)) }
    {
        match self.next() {
            Some((Lexeme::Word(bytes), after)) if is(bytes, b"as") => self.go_to(after),
            _ => return Err(Stop::Refused(Fault::Token)),
        }
        Ok(())
    }

    // Takes the alias of a declaration, with what stands around it. Keeps it, to find it without going through all.
    fn alias(
        &mut self,
        alloc: Global,
        aliases: &mut BTreeSet<&'a [u8], Global>,
    ) -> Result<Name, Stop>
        ensures goes { (names : List (List ℕ)) → HasThese aliases.old names → Takes result self.old self.new
            (λ k. This (Word (codes "as")) ∷ Alias names ∷ k) (λ n k. Declaring (names ++ n ∷ []) ∷ k) }
        ensures kept { IfOk result (λ n. (names : List (List ℕ)) → HasThese aliases.old names
            → HasThese aliases.new (names ++ n ∷ [])) }
        ensures read { IfOk result (λ n. self.old
            ≡ at self.new (Word (codes "as") ∷ Word n ∷ Is Sign.Semicolon ∷ self.new.rest)) }
    {
        self.word_as()?;
        let Some((Lexeme::Word(bytes), after)) = self.next() else {
            return Err(Stop::Refused(Fault::Token));
        };
        if aliases.contains(bytes) {
            return Err(Stop::Refused(Fault::Twice));
        }
        let Ok(_) = aliases.insert(bytes) else {
            return Err(Stop::Memory);
        };
        self.go_to(after);
        self.expect(Sign::Semicolon)?;
        Ok(Name::of(alloc, bytes)?)
    }

    // Takes the word that begins a declaration.
    fn decl_word(&mut self, alloc: Global) -> Result<Name, Stop>
        requires { IsNotNext (Is Sign.Global) self.old.rest }
        ensures goes { (names : List (List ℕ)) → Takes result self.old self.new (λ k. Declaring names ∷ k)
            (λ x k. This (Is Sign.Less) ∷ AnyName ∷ This (Is Sign.Greater) ∷ AnyQuoted
            ∷ This (Is Sign.From) ∷ AnyQuoted ∷ This (Word (codes "as")) ∷ Alias names ∷ k) }
        ensures read { IfOk result (λ n. (is_decl_word n ≡ true) × (self.old ≡ at self.new (Word n ∷ self.new.rest))) }
    {
        let Some((Lexeme::Word(bytes), after)) = self.next() else {
            return Err(Stop::Refused(Fault::Token));
        };
        if !is(bytes, b"type") && !is(bytes, b"data") {
            return Err(Stop::Refused(Fault::Token));
        }
        let word = Name::of(alloc, bytes)?;
        self.go_to(after);
        Ok(word)
    }

    // Takes a declaration.
    fn decl(
        &mut self,
        alloc: Global,
        aliases: &mut BTreeSet<&'a [u8], Global>,
    ) -> Result<Decl, Stop>
        requires { IsNotNext (Is Sign.Global) self.old.rest }
        ensures goes { (names : List (List ℕ)) → HasThese aliases.old names → Takes result self.old self.new
            (λ k. Declaring names ∷ k) (λ d k. Declaring (names ++ d.alias ∷ []) ∷ k) }
        ensures kept { IfOk result (λ d. (names : List (List ℕ)) → HasThese aliases.old names
            → HasThese aliases.new (names ++ d.alias ∷ [])) }
        ensures read { IfOk result (λ d. AreTaken (d ∷ []) self.old self.new) }
        ensures shorter { OnOk result (length self.new.rest < length self.old.rest) }
    {
        let word = self.decl_word(alloc)?;
        let schema = Name::of(alloc, self.name_behind(Sign::Less)?)?;
        let extern_name = self.quoted(alloc, Sign::Greater)?;
        let file = self.quoted(alloc, Sign::From)?;
        let alias = self.alias(alloc, aliases)?;
        Ok(Decl {
            word,
            schema,
            extern_name,
            file,
            alias,
        })
    }

    /// Takes the declarations, and the word `global` after them.
    pub fn decls(&mut self, alloc: Global) -> Result<Decls, Stop>
        requires fresh { self.old ≡ at_first self.old.rest }
        ensures goes { Takes result self.old self.new (λ k. Declaring [] ∷ k) (λ x k. k) }
        ensures read { IfOk result (λ ds. AreTaken (declarations ds) self.old
            (at self.new (Is Sign.Global ∷ self.new.rest))) }
    {
        let mut list = Decls::new(alloc);
        let mut aliases = BTreeSet::new(alloc);
        while !self.takes(Sign::Global) {
            list.push(self.decl(alloc, &mut aliases)?)?;
        }
        Ok(list)
    }
}
