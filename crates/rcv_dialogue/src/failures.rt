// Lines that tell failures.

ghost use Rattle.std.specs.Prelude.{◌≡◌, ◌&&◌, ◌==◌, [], ◌∷◌, position, None};
ghost use Rattle.rcv_dialogue.specs.Left.{left};
ghost use Rattle.rcv_dialogue.specs.Reading.{Gives, failed_in, names_role, more_at, all_failed_at, fail_at};
ghost use Rattle.rcv_dialogue.specs.Reading.{crash_at, are_before, cuts_at, stated_at, recover_at};

use crate::few::{Failed, FailedRoles, Kept, KeptRoles};
use crate::line::{Line, Stated, ToldRecovery};
use crate::numbers::{is_same, number, number_before};
use crate::said::{counted, literal, role, role_count, role_of};
use crate::words::{Misfit, is_over, next, take, wrong};
use crate::wrong::Expected;
use rcv_accept::accepted::Accepted;
use rcv_tree::role::RoleId;

// Where the first `=` of a word stands.
fn sign_at(word: &[u8]) -> Option<usize>
    ensures { result ≡ position (λ b. b == 61) word.now }
{
    word.iter().position(|byte| *byte == b'=')
}

// The role that the word says, with the count after `=`; or what is expected in its place.
fn failed_of(accepted: &Accepted, word: &[u8]) -> Result<Failed, Expected>
    ensures { result ≡ failed_in accepted.now word.now }
{
    let Some(sign) = sign_at(word) else {
        return match role_of(accepted, word) {
            Some(role) => Ok(Failed { role, count: None }),
            None => Err(Expected::Role),
        };
    };
    let Some(role) = role_of(accepted, &word[..sign]) else {
        return Err(Expected::Role);
    };
    let Some(count) = number(&word[sign + 1..]) else {
        return Err(Expected::Count);
    };
    Ok(Failed {
        role,
        count: Some(count),
    })
}

// Whether one of these is of this role.
fn names_role(role: RoleId, found: &[Failed]) -> bool
    ensures { result ≡ names_role role found.now }
{
    for failed in found {
        if failed.role == role {
            return true;
        }
    }
    false
}

// Roles after a first one, to the end, or to the word `undone` if that ends them.
#[tactic(auto, unfolding(crate::specs::Reading::more_at))]
fn more<'a>(
    accepted: &Accepted,
    stops: bool,
    first: Failed,
    words: &'a [u8],
) -> Result<(FailedRoles, &'a [u8]), Misfit>
    ensures { Gives (λ x. (x.0, left x.1.now)) result (more_at accepted.now stops (first ∷ []) (left words.now)) }
{
    let mut found = FailedRoles::of(first);
    let mut left = words;
    while let Some((word, rest)) = next(left) {
        if stops && is_same(word, b"undone") {
            return Ok((found, left));
        }
        if found.as_slice().len() >= role_count(accepted) {
            return Err(wrong(left, Expected::End));
        }
        match failed_of(accepted, word) {
            Ok(failed) => {
                if names_role(failed.role, found.as_slice()) {
                    return Err(wrong(left, Expected::Role));
                }
                found.push(failed);
            }
            Err(expected) => return Err(wrong(left, expected)),
        }
        left = rest;
    }
    Ok((found, left))
}

// `FAILED FAILED ..`, at least one.
#[tactic(auto, unfolding(crate::specs::Reading::all_failed_at))]
fn all_failed<'a>(
    accepted: &Accepted,
    stops: bool,
    words: &'a [u8],
) -> Result<(FailedRoles, &'a [u8]), Misfit>
    ensures { Gives (λ x. (x.0, left x.1.now)) result (all_failed_at accepted.now stops (left words.now)) }
{
    let (word, rest) = take(words, Expected::Role)?;
    match failed_of(accepted, word) {
        Ok(first) => more(accepted, stops, first, rest),
        Err(expected) => Err(wrong(words, expected)),
    }
}

/// `FAILED FAILED ..`
#[tactic(auto, unfolding(crate::specs::Reading::fail_at))]
pub fn fail(accepted: &Accepted, words: &[u8]) -> Result<Line, Misfit>
    ensures { Gives (λ line. line) result (fail_at accepted.now (left words.now)) }
{
    let (failed, words) = all_failed(accepted, false, words)?;
    if !is_over(words) {
        return Err(wrong(words, Expected::End));
    }
    Ok(Line::Fail(failed))
}

/// `ROLE`
#[tactic(auto, unfolding(crate::specs::Reading::crash_at))]
pub fn crash(accepted: &Accepted, words: &[u8]) -> Result<Line, Misfit>
    ensures { Gives (λ line. line) result (crash_at accepted.now (left words.now)) }
{
    let (role, words) = role(accepted, words)?;
    if !is_over(words) {
        return Err(wrong(words, Expected::End));
    }
    Ok(Line::Crash(RoleId(role)))
}

// Whether all of these come before this role.
fn are_before(role: RoleId, found: &[Kept]) -> bool
    ensures { result ≡ are_before role found.now }
{
    for kept in found {
        if kept.role >= role {
            return false;
        }
    }
    true
}

// `ROLE COUNT ..` after a first one, in order of declaration, to the end.
#[tactic(auto, unfolding(crate::specs::Reading::cuts_at, crate::specs::Reading::number_at))]
fn cuts(accepted: &Accepted, first: Kept, words: &[u8]) -> Result<KeptRoles, Misfit>
    ensures { Gives (λ x. x) result (cuts_at accepted.now (first ∷ []) None (left words.now)) }
{
    let mut found = KeptRoles::of(first);
    let mut left = words;
    while let Some((word, rest)) = next(left) {
        if found.as_slice().len() >= role_count(accepted) {
            return Err(wrong(left, Expected::End));
        }
        let Some(role) = role_of(accepted, word) else {
            return Err(wrong(left, Expected::Role));
        };
        if !are_before(role, found.as_slice()) {
            return Err(wrong(left, Expected::Role));
        }
        let (count, behind) = counted(Expected::Count, rest)?;
        found.push(Kept { role, count });
        left = behind;
    }
    Ok(found)
}

// `undone N: ROLE COUNT ..`
#[tactic(auto, unfolding(crate::specs::Reading::stated_at))]
fn stated(accepted: &Accepted, words: &[u8]) -> Result<Stated, Misfit>
    ensures { Gives (λ x. x) result (stated_at accepted.now (left words.now)) }
{
    let words = literal(b"undone", Expected::Undone, words)?;
    let (word, rest) = take(words, Expected::Undone)?;
    let Some(undone) = number_before(word) else {
        return Err(wrong(words, Expected::Undone));
    };
    let (role, rest) = role(accepted, rest)?;
    let (count, rest) = counted(Expected::Count, rest)?;
    let role = RoleId(role);
    let kept = cuts(accepted, Kept { role, count }, rest)?;
    Ok(Stated { undone, kept })
}

/// `FAILED .. [undone N: ROLE COUNT ..]`
#[tactic(auto, unfolding(crate::specs::Reading::recover_at))]
pub fn recover(accepted: &Accepted, words: &[u8]) -> Result<Line, Misfit>
    ensures { Gives (λ line. line) result (recover_at accepted.now (left words.now)) }
{
    let (failed, words) = all_failed(accepted, true, words)?;
    if is_over(words) {
        return Ok(Line::Recover(ToldRecovery {
            failed,
            stated: None,
        }));
    }
    let stated = stated(accepted, words)?;
    Ok(Line::Recover(ToldRecovery {
        failed,
        stated: Some(stated),
    }))
}
