// The journals of several sessions, one after another: which bytes are those of one.
#![tactic(auto)]

ghost use Rattle.rcv_section.specs.Laws.{OneSection, SectionsAreTexts};

pub mod section;

/// A session has one section at most.
pub fn one_section()
    ensures { OneSection }
{}

/// If texts stand one after another, each after the line of its session, section I is text I. This holds for at most 64
/// texts of whole lines, none of which begins as the line of a session does.
pub fn sections_are_texts()
    ensures { SectionsAreTexts }
{}
