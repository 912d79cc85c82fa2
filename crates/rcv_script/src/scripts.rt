// The scripts of a protocol's roles, and what they decide.

ghost use Rattle.std.specs.Prelude.{◌≡◌, ◌≢◌, ◌↔◌, ◌<◌, ℕ, ℤ, List, [], length, map, false, slice_get};
ghost use Rattle.std.specs.Prelude.{IfOk, IfSome, IfNone};
ghost use Rattle.std.specs.List.{All};
ghost use Rattle.rcv_model.specs.Script.{first_vars, carry_out, pick, number_for, first_with};
ghost use Rattle.rcv_model.specs.Transparent.{AreBlind};
ghost use Rattle.rcv_checkpoint.specs.Changed.{IsChange};
ghost use Rattle.rcv_script.specs.Lines.{line_of, lines_at};
ghost use Rattle.rcv_script.specs.Attempts.{lines_read};
ghost use Rattle.rcv_script.specs.Scripts.{net_by, HasPoint};
ghost use Rattle.rcv_script.specs.Acts.{acts_on, acts_by_point, set_by, set_by_all, sent_by};

use crate::acts::{Acts, ActsByPoint};
use crate::line::{Line, is_met, set};
use crate::setting::behind_set;
use rcv_checkpoint::changed::Changed;
use rcv_lexer::is;
use rcv_points::points::{Message, Points};
use rcv_tree::name::Name;
use rcv_tree::point::Point;
use rcv_tree::role::RoleId;
use rcv_tree::variables::Vars;
use std::alloc::{AllocError, Global};
use std::marker::Model;

/// The lines of one role, in text order.
#[derive(Drop)]
pub struct Script {
    lines: Vec<Line>,
}

impl Model for Script {
    ghost use Rattle.std.specs.Prelude.{List, map};
    ghost use Rattle.rcv_model.specs.Script.{Line};
    ghost use Rattle.rcv_script.specs.Lines.{line_of};
    ghost use Rattle.rcv_formula.specs.Codes.{expr_code};
    ghost use Rattle.std.specs.Coded.{codes};

    ghost Value = { List Line };

    ghost coded = { Prim.hlevel (codes, expr_code) };

    ghost view = { λ a. map line_of a.lines.items };
}

/// The scripts of a protocol, by role, with the messages of its points. Contracts see both. None of the calls takes
/// memory.
#[derive(Drop)]
pub struct Scripts {
    roles: Vec<Script>,
    // By point, less 1.
    messages: Vec<Message>,
    // By role.
    acts: Vec<ActsByPoint>,
}

impl Model for Scripts {
    ghost use Rattle.rcv_formula.specs.Codes.{expr_code};
    ghost use Rattle.rcv_script.specs.Scripts.{ScriptsView};
    ghost use Rattle.rcv_script.specs.Acts.{IsIndex};
    ghost use Rattle.std.specs.Coded.{codes};

    ghost Value = { ScriptsView };

    ghost coded = { Prim.hlevel (codes, expr_code) };

    ghost view = { λ a. record { lines = a.roles.items; messages = a.messages.items } };

    ghost invariant = { λ a. IsIndex a.roles.items a.messages.items a.acts.items };
}

impl Scripts {
    /// The scripts of roles, in order of declaration, for the protocol with these points. Fails if memory runs out.
    pub(crate) fn of(
        alloc: Global,
        roles: Vec<Script>,
        points: &Points,
    ) -> Result<Scripts, AllocError>
        ensures { IfOk result (λ scripts. scripts ≡ record { lines = roles.items; messages = points.now.messages }) }
    {
        let messages = messages_of(alloc, points)?;
        let acts = acts_of(alloc, roles.as_slice(), messages.as_slice())?;
        Ok(Scripts {
            roles,
            messages,
            acts,
        })
    }

    /// The variables of a role before any event: the first values in order of declaration, and 0 at the other places.
    pub fn start(&self, role: RoleId) -> Vars
        ensures { result ≡ first_vars (lines_at self.now.lines role) }
    {
        match self.script(role) {
            Some(script) => script.start(),
            None => Vars([0; 16]),
        }
    }

    /// The point that a role chooses of those that are offered: the first one with the label of its first `pick` line
    /// whose label is offered and whose condition holds; if no line holds, the first of all.
    #[inline(always)]
    pub fn choose(&self, role: RoleId, vars: &Vars, attempt: u32, offered: &[Point]) -> Point
        requires some { offered.now ≢ [] }
        requires points { All (HasPoint self.now.messages) offered.now }
        ensures { result ≡ pick (net_by self.now.messages) (lines_at self.now.lines role) vars.now attempt offered.now }
    {
        match self.script(role) {
            Some(script) => script.pick(self.messages.as_slice(), vars, attempt, offered),
            None => offered[0],
        }
    }

    /// The number that a role sends with a point: that of the `send` line of the point's label, and 0 if it has
    /// none.
    #[inline(always)]
    #[tactic(auto, using(crate::proofs::Carrying::send_all))]
    pub fn value(&self, role: RoleId, vars: &Vars, attempt: u32, point: Point) -> i64
        requires { HasPoint self.now.messages point }
        ensures { result
            ≡ number_for ((net_by self.now.messages).label point) (lines_at self.now.lines role) vars.now attempt }
    {
        match self.script(role) {
            Some(script) => script.number(self.acts(role, point).send, vars, attempt),
            None => 0,
        }
    }

    /// The variables of a role after an event that received this number with a point: the `on` lines of the point's
    /// label are carried out in text order, each seeing the changes of the earlier ones.
    #[inline(always)]
    pub fn received(&self, role: RoleId, vars: &Vars, point: Point, value: i64) -> Vars
        requires { HasPoint self.now.messages point }
        ensures { result
            ≡ carry_out ((net_by self.now.messages).label point) value (lines_at self.now.lines role) vars.now }
    {
        let mut now = *vars;
        self.receive(role, &mut now, point, value);
        now
    }

    /// As `received`, in place; answers which of the variables may have changed.
    #[inline(always)]
    #[tactic(auto, using(crate::proofs::Carrying::do_all))]
    pub fn receive(&self, role: RoleId, vars: &mut Vars, point: Point, value: i64) -> Changed
        requires { HasPoint self.now.messages point }
        ensures vars { vars.new
            ≡ carry_out ((net_by self.now.messages).label point) value (lines_at self.now.lines role) vars.old }
        ensures changed { IsChange result vars.old vars.new }
    {
        match self.script(role) {
            Some(script) => {
                let acts = self.acts(role, point);
                script.carry_out(acts.on.as_slice(), value, vars)
            }
            None => Changed::Nothing,
        }
    }

    /// The variables of a role after an event that sent this number with a point: as after one that received it.
    pub fn sent(&self, role: RoleId, vars: &Vars, point: Point, value: i64) -> Vars
        requires { HasPoint self.now.messages point }
        ensures { result
            ≡ carry_out ((net_by self.now.messages).label point) value (lines_at self.now.lines role) vars.now }
    {
        self.received(role, vars, point, value)
    }

    /// Whether the word `attempt` stands in a `pick` or `send` line of some role.
    pub fn reads_attempt(&self) -> bool
        ensures { result ≡ false ↔ ((r : ℕ) → AreBlind (lines_at self.now.lines r)) }
    {
        self.roles
            .as_slice()
            .iter()
            .any(|script| script.reads_attempt())
    }

    /// The most steps that an expression of any role takes: what one event costs, as far as scripts are concerned. It
    /// decides who computes it, and not what comes of it, so no clause speaks of it.
    pub fn most_steps(&self) -> usize {
        let mut most = 0;
        for script in self.roles.as_slice() {
            most = script.most_steps().max(most);
        }
        most
    }

    // The script of a role; none if no line is known.
    #[inline(always)]
    fn script(&self, role: RoleId) -> Option<&Script>
        ensures some { IfSome result (λ script. script.now ≡ lines_at self.now.lines role) }
        ensures within { IfSome result (λ script. role < length self.now.lines) }
        ensures none { IfNone result (lines_at self.now.lines role ≡ []) }
    {
        self.roles.get(role.0 as usize)
    }

    // Which lines of a role's script are for a point.
    #[inline(always)]
    fn acts(&self, role: RoleId, point: Point) -> &Acts
        requires role { role < length self.now.lines }
        requires point { HasPoint self.now.messages point }
        ensures { result.now ≡ acts_on ((net_by self.now.messages).label point) (lines_at self.now.lines role) }
    {
        self.acts[role.0 as usize].at(point)
    }
}

impl Script {
    /// The script of these lines.
    pub fn of(lines: Vec<Line>) -> Script
        ensures { result ≡ map line_of lines.items }
    {
        Script { lines }
    }

    // Whether the attempt stands in a line that picks or sends.
    fn reads_attempt(&self) -> bool
        ensures { result ≡ lines_read self.now }
    {
        for line in self.lines.as_slice() {
            if line.reads_attempt() {
                return true;
            }
        }
        false
    }

    // The most steps that an expression of a line takes.
    fn most_steps(&self) -> usize {
        let mut most = 0;
        for line in self.lines.as_slice() {
            most = line.steps().max(most);
        }
        most
    }

    // The first values of the variables, and 0 at the other places.
    fn start(&self) -> Vars
        ensures { result ≡ first_vars self.now }
    {
        let mut vars = Vars([0; 16]);
        let mut place = 0;
        for line in self.lines.as_slice() {
            if let Line::Var { first } = line {
                set(&mut vars, place, *first);
                place += 1;
            }
        }
        vars
    }

    // Carries out the lines at these places, of those that set a variable; answers what they may have changed.
    #[inline(always)]
    fn carry_out(&self, on: &[usize], value: i64, vars: &mut Vars) -> Changed
        ensures vars { vars.new ≡ set_by_all self.now on.now value vars.old }
        ensures changed { IsChange result vars.old vars.new }
    {
        let mut changed = Changed::Nothing;
        for line in on {
            changed = self.set(*line, value, vars, changed);
        }
        changed
    }

    // Carries out the line at a place, if it sets a variable; answers what may have changed after such a change.
    #[inline(always)]
    fn set(&self, line: usize, value: i64, vars: &mut Vars, changed: Changed) -> Changed
        ensures vars { vars.new ≡ set_by (slice_get self.now line) value vars.old }
        ensures changed { (from : List ℤ) → IsChange changed from vars.old → IsChange result from vars.new }
    {
        match self.lines.get(line) {
            Some(Line::On { place, number, .. }) => {
                let number = number.value(vars, value, 0);
                set(vars, *place, number);
                behind_set(changed, *place)
            }
            _ => changed,
        }
    }

    // The number that the line at this place sends; 0 if there is none.
    #[inline(always)]
    fn number(&self, send: usize, vars: &Vars, attempt: u32) -> i64
        ensures { result ≡ sent_by (slice_get self.now send) vars.now attempt }
    {
        match self.lines.get(send) {
            Some(Line::Send { number, .. }) => number.value(vars, 0, attempt),
            _ => 0,
        }
    }

    // The offered point that is chosen.
    #[inline(always)]
    fn pick(&self, messages: &[Message], vars: &Vars, attempt: u32, offered: &[Point]) -> Point
        requires some { offered.now ≢ [] }
        requires points { All (HasPoint messages.now) offered.now }
        ensures { result ≡ pick (net_by messages.now) self.now vars.now attempt offered.now }
    {
        for line in self.lines.as_slice() {
            if let Line::Pick { label, when } = line {
                if is_met(when, vars, attempt) {
                    if let Some(point) = first_with(messages, label.as_slice(), offered) {
                        return point;
                    }
                }
            }
        }
        offered[0]
    }
}

// The first of the offered points with this label.
fn first_with(messages: &[Message], label: &[u8], offered: &[Point]) -> Option<Point>
    requires { All (HasPoint messages.now) offered.now }
    ensures { result ≡ first_with (net_by messages.now) label.now offered.now }
{
    for point in offered {
        let message = &messages[point.0 as usize - 1];
        if is(message.label.as_slice(), label) {
            return Some(*point);
        }
    }
    None
}

// Which lines of each script are for each point.
fn acts_of(
    alloc: Global,
    roles: &[Script],
    messages: &[Message],
) -> Result<Vec<ActsByPoint>, AllocError>
    ensures { IfOk result (λ acts. acts.items ≡ map (acts_by_point messages.now) roles.now) }
{
    let mut acts = Vec::new(alloc);
    for script in roles {
        acts.push(ActsByPoint::of(alloc, script.lines.as_slice(), messages)?)?;
    }
    Ok(acts)
}

// A copy of the messages of all points.
fn messages_of(alloc: Global, points: &Points) -> Result<Vec<Message>, AllocError>
    ensures { IfOk result (λ messages. messages.items ≡ points.now.messages) }
{
    let mut messages = Vec::new(alloc);
    for number in 0..points.count() {
        let point = Point(number + 1);
        messages.push(Message {
            label: Name::of(alloc, points.label(point))?,
            sender: points.sender(point),
            receiver: points.receiver(point),
            payload: points.has_payload(point),
        })?;
    }
    Ok(messages)
}
