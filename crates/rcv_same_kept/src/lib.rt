//! What a journal keeps of each role, read off its lines: programs that try the whole one compare journals by it.
#![tactic(auto)]

use std::alloc::{AllocError, Global};

// A role's name and its kept events, each as its line says it in front of the stamp: direction, point, label and value.
#[derive(Drop)]
struct Role<'a> {
    name: &'a str,
    events: Vec<&'a str>,
}

/// Whether two journals keep the same events of each role. A journal that names no role at its end is like no other.
pub fn keep_the_same(alloc: Global, journal: &[u8], other: &[u8]) -> Result<bool, AllocError> {
    let journal = String::from_utf8_lossy(alloc, journal)?;
    let other = String::from_utf8_lossy(alloc, other)?;
    let roles = kept(alloc, journal.as_str())?;
    let others = kept(alloc, other.as_str())?;
    Ok(
        roles.len() != 0
            && roles.len() == others.len()
            && all_same(roles.as_slice(), others.as_slice()),
    )
}

// Whether each of these roles and the one at its place keep the same events.
fn all_same(roles: &[Role<'_>], others: &[Role<'_>]) -> bool {
    for (role, other) in roles.iter().zip(others.iter()) {
        if role.name != other.name || role.events.as_slice() != other.events.as_slice() {
            return false;
        }
    }
    true
}

// What a journal keeps of each role: the events of its lines, except for those that its recoveries take out.
fn kept<'a>(alloc: Global, journal: &'a str) -> Result<Vec<Role<'a>>, AllocError> {
    let mut roles = declared(alloc, journal)?;
    for line in journal.lines() {
        if let Some((event, _)) = line.split_once(" @") {
            add(&mut roles, event)?;
        } else if let Some((_, counts)) = line.split_once(": ") {
            cut(&mut roles, counts);
        }
    }
    Ok(roles)
}

// The roles that the lines at the end of a journal name, without events.
fn declared<'a>(alloc: Global, journal: &'a str) -> Result<Vec<Role<'a>>, AllocError> {
    let mut roles = Vec::new(alloc);
    for line in journal.lines() {
        if let Some(name) = line
            .strip_prefix("role ")
            .and_then(|rest| rest.split(' ').next())
        {
            roles.push(Role {
                name,
                events: Vec::new(alloc),
            })?;
        }
    }
    Ok(roles)
}

// Adds an event to its role, which is its second word.
fn add<'a>(roles: &mut Vec<Role<'a>>, event: &'a str) -> Result<(), AllocError> {
    let name = event.split(' ').nth(1);
    for role in roles.as_mut_slice() {
        if name == Some(role.name) {
            role.events.push(event)?;
        }
    }
    Ok(())
}

// Takes out what a recovery undoes: after each concerned role's name stands how many events it keeps.
fn cut(roles: &mut Vec<Role<'_>>, counts: &str) {
    for role in roles.as_mut_slice() {
        if let Some(count) = number_behind(counts, role.name) {
            role.events.truncate(count);
        }
    }
}

// The number after this word.
fn number_behind(text: &str, word: &str) -> Option<usize> {
    let mut words = text.split(' ');
    words.find(|other| *other == word)?;
    words.next()?.parse().ok()
}
