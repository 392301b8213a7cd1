//! The branches of `if`.

ghost use Rattle.std.specs.Prelude.{◌≡◌, ◌+◌, ◌<◌, ◌≤◌, None, All, length, drop, map, option_map, IfOk, IfSome, MatchOption};
ghost use Rattle.std.specs.Option.{ForSome};
ghost use Rattle.tcl_eval.specs.Forms.{is_text, branches_of, more_branches, with_branch};
ghost use Rattle.tcl_eval.specs.Short.{BranchLies, branching_of};

use lab_base::{Memory, Text};
use std::alloc::Global;

/// A branch of an `if`: the place of its condition among the words, if it has one, and that of its body.
#[derive(Clone, Copy, Drop)]
pub struct Branch {
    pub condition: Option<usize>,
    pub body: usize,
}

/// Whether a word is this text.
fn is_word(word: &Text, text: &[u8]) -> bool
    ensures { result ≡ is_text word.now text.now }
{
    word.bytes() == text
}

/// `else` and a body, the last two words.
fn else_branch(words: &[Text], at: usize) -> Option<Branch>
    requires { at + 2 ≡ length words.now }
    ensures branch { MatchOption result (more_branches (drop at words.now) ≡ None)
        (λ b. more_branches (drop at words.now) ≡ with_branch (branching_of words.now b) (more_branches (drop (b.body + 1) words.now))) }
    ensures lies { IfSome result (λ b. (at < b.body) × BranchLies (length words.now) b) }
{
    if is_word(&words[at], b"else") {
        Some(Branch {
            condition: None,
            body: at + 1,
        })
    } else {
        None
    }
}

/// `elseif`, a condition and a body.
fn elseif_branch(words: &[Text], at: usize) -> Option<Branch>
    requires { at + 3 ≤ length words.now }
    ensures branch { MatchOption result (more_branches (drop at words.now) ≡ None)
        (λ b. more_branches (drop at words.now) ≡ with_branch (branching_of words.now b) (more_branches (drop (b.body + 1) words.now))) }
    ensures lies { IfSome result (λ b. (at < b.body) × BranchLies (length words.now) b) }
{
    if is_word(&words[at], b"elseif") {
        Some(Branch {
            condition: Some(at + 1),
            body: at + 2,
        })
    } else {
        None
    }
}

/// The branch at a place after the first one.
fn branch_at(words: &[Text], at: usize) -> Option<Branch>
    requires { at < length words.now }
    ensures branch { MatchOption result (more_branches (drop at words.now) ≡ None)
        (λ b. more_branches (drop at words.now) ≡ with_branch (branching_of words.now b) (more_branches (drop (b.body + 1) words.now))) }
    ensures lies { IfSome result (λ b. (at < b.body) × BranchLies (length words.now) b) }
{
    let left = words.len() - at;
    if left == 1 {
        None
    } else if left == 2 {
        else_branch(words, at)
    } else {
        elseif_branch(words, at)
    }
}

/// The branches of an `if`, in order; None where the words aren't of its form.
pub fn branches(alloc: Global, words: &[Text]) -> Result<Option<Vec<Branch>>, Memory>
    ensures branches { IfOk result (λ found. option_map (λ v. map (branching_of words.now) v.items) found ≡ branches_of words.now) }
    ensures lie { IfOk result (λ found. ForSome found (λ v. All (BranchLies (length words.now)) v.items)) }
{
    if words.len() < 3 {
        return Ok(None);
    }
    let mut branches = Vec::new(alloc);
    branches.push(Branch {
        condition: Some(1),
        body: 2,
    })?;
    let mut at = 3;
    while at < words.len() {
        let Some(branch) = branch_at(words, at) else {
            return Ok(None);
        };
        branches.push(branch)?;
        at = branch.body + 1;
    }
    Ok(Some(branches))
}
