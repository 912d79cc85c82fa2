// Lines of a script, and what each kind of line does.

ghost use Rattle.std.specs.Prelude.{◌≡◌, Option, option_map, slice_set};
ghost use Rattle.rcv_model.specs.Script.{holds, is_met};
ghost use Rattle.rcv_script.specs.Lines.{test_of, condition_of, line_of};
ghost use Rattle.rcv_script.specs.Attempts.{line_reads};

use rcv_formula::Formula;
use rcv_tree::name::Name;
use rcv_tree::variables::Vars;

/// How two numbers compare.
#[derive(Clone, Copy)]
pub enum Comparison {
    Less,
    AtMost,
    Same,
    Differ,
    More,
    AtLeast,
}

/// Two expressions and how they compare.
#[derive(Drop)]
pub struct Condition {
    pub left: Formula,
    pub comparison: Comparison,
    pub right: Formula,
}

/// A line of a script.
#[derive(Drop)]
pub enum Line {
    /// A variable, with its first value.
    Var {
        first: i64,
    },
    /// The number that is sent with a label.
    Send {
        label: Name,
        number: Formula,
    },
    /// The label that is picked if the condition holds; without one it always holds.
    Pick {
        label: Name,
        when: Option<Condition>,
    },
    /// The variable that is set after each event with a label.
    On {
        label: Name,
        place: usize,
        number: Formula,
    },
}

impl Comparison {
    /// Whether it holds of these numbers.
    pub fn holds(self, left: i64, right: i64) -> bool
        ensures { result ≡ holds (test_of self) left right }
    {
        match self {
            Comparison::Less => left < right,
            Comparison::AtMost => left <= right,
            Comparison::Same => left == right,
            Comparison::Differ => left != right,
            Comparison::More => left > right,
            Comparison::AtLeast => left >= right,
        }
    }
}

impl Line {
    /// Whether the line picks or sends, and the attempt stands in it. It takes no memory.
    pub fn reads_attempt(&self) -> bool
        ensures { result ≡ line_reads (line_of self.now) }
    {
        match self {
            Line::Send { number, .. } => number.reads_attempt(),
            Line::Pick {
                when: Some(condition),
                ..
            } => condition.left.reads_attempt() || condition.right.reads_attempt(),
            Line::Pick { when: None, .. } | Line::Var { .. } | Line::On { .. } => false,
        }
    }

    /// The most steps that an expression of the line takes. No clause speaks of it.
    pub fn steps(&self) -> usize {
        match self {
            Line::Send { number, .. } | Line::On { number, .. } => number.steps(),
            Line::Pick {
                when: Some(condition),
                ..
            } => condition.left.steps().max(condition.right.steps()),
            Line::Pick { when: None, .. } | Line::Var { .. } => 0,
        }
    }
}

/// Whether the condition of a pick line holds. It takes no memory.
pub fn is_met(when: &Option<Condition>, vars: &Vars, attempt: u32) -> bool
    ensures { result ≡ is_met (option_map condition_of when.now) vars.now attempt }
{
    let Some(condition) = when else {
        return true;
    };
    let left = condition.left.value(vars, 0, attempt);
    let right = condition.right.value(vars, 0, attempt);
    condition.comparison.holds(left, right)
}

/// Sets the variable at a place; beyond the last one there is none.
pub fn set(vars: &mut Vars, place: usize, number: i64)
    ensures { vars.new ≡ slice_set vars.old place number }
{
    if place < vars.0.len() {
        vars.0[place] = number;
    }
}
