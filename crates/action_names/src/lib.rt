#![tactic(auto)]
// The names of a table's sorts and actions: valid by the token rule, no word, distinct; an action's is not Bool.
ghost use Rattle.std.specs.Prelude.{◌≡◌, map, ◌∷◌, ◌+◌, ◌≤◌, ◌<◌, length, drop, OnSome};
ghost use Rattle.pcrl.specs.Limits.{max_name};
ghost use Rattle.pcrl.specs.Text.{bytes};
ghost use Rattle.pcrl.specs.Tests as tests;
ghost use Rattle.pcrl.specs.Bytes as classes;
ghost use Rattle.pcrl.specs.Tokens.{words};
ghost use Rattle.pcrl.specs.Reader.{one, counted};
ghost use Rattle.pcrl.specs.Right.{free_name, token_name};
ghost use Rattle.pcrl.specs.Decode.{read_name, read_sort_name};
ghost use Rattle.terms.specs.Stands.{list_at};
ghost use Rattle.terms.specs.Ends.{rests, ended};

use elements::{cell, peek, wide};
use lexer::bytes::{LETTER, class, name_byte};
use lexer::token::word;
use limits::MAX_NAME;

// Bool, or one of the words that are never names.
fn reserved(n: &[u8]) -> bool
    ensures { result ≡ tests.among n.now (bytes "Bool" ∷ words) }
{
    if n == b"Bool".as_slice() {
        return true;
    }
    word(n).is_some()
}

// Begins with a letter, and is no word and not Bool.
fn free_name(n: &[u8]) -> bool
    ensures { result ≡ free_name n.now }
{
    if class(peek(n, 0)) != LETTER {
        return false;
    }
    !reserved(n)
}

// Begins with a letter, and is no word.
fn token_name(n: &[u8]) -> bool
    ensures { result ≡ token_name n.now }
{
    if class(peek(n, 0)) != LETTER {
        return false;
    }
    word(n).is_none()
}

// A counted run of the bytes of names.
fn read_run(s: &[u8], at: usize) -> Option<usize>
    ensures { (rests (counted (tests.between? 1 max_name) (one (λ b. tests.T? (classes.name_byte b))) (drop at s.now)) ≡ ended s.now result) × OnSome result (at < length s.now) }
{
    let n = terms::number_at(s, at, 1, MAX_NAME + 1)?;
    let end = at + 1 + n;
    for i in at + 1..end {
        if s.len() <= i {
            return None;
        }
        if !name_byte(s[i]) {
            return None;
        }
    }
    Some(end)
}

// "valid by the token rule, and none is Bool"
pub fn read_name(s: &[u8], at: usize) -> Option<usize>
    ensures { (rests (read_name (drop at s.now)) ≡ ended s.now result) × OnSome result (at < length s.now) }
{
    let end = read_run(s, at)?;
    if !free_name(terms::list_at(s, at)) {
        return None;
    }
    Some(end)
}

// #104: "Sort names must be valid"
pub fn read_sort_name(s: &[u8], at: usize) -> Option<usize>
    ensures { (rests (read_sort_name (drop at s.now)) ≡ ended s.now result) × OnSome result (at < length s.now) }
{
    let end = read_run(s, at)?;
    if !token_name(terms::list_at(s, at)) {
        return None;
    }
    Some(end)
}

// Does the name stand at one of the places? Names stand so many bytes behind their places.
fn among(s: &[u8], name: &[u8], places: &[u16], skip: usize) -> bool
    requires { skip ≤ 1 }
    ensures { result ≡ tests.among name.now (map (λ p. list_at s.now (p + skip)) places.now) }
{
    for p in places {
        let other = terms::list_at(s, wide(*p) + skip);
        if name == other {
            return true;
        }
    }
    false
}

// "Action names are distinct", and by #104 sort names: is no name there twice, where each stands so many bytes behind its place?
pub fn distinct(s: &[u8], places: &[u16], skip: usize) -> bool
    requires { skip ≤ 1 }
    ensures { result ≡ tests.distinct (map (λ p. list_at s.now (p + skip)) places.now) }
{
    for k in 0..places.len() {
        let name = terms::list_at(s, cell(places, k) + skip);
        if among(s, name, &places[k + 1..], skip) {
            return false;
        }
    }
    true
}
