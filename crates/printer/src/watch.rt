// `==` over two values, seen in one pass over the cells of a text's tokens (printing, Watched): a numeral with no `!` before it, `==`, a numeral.
ghost use Rattle.std.specs.Prelude.{◌≡◌, List, map, ℕ};
ghost use Rattle.printing.specs.Watched as W;
ghost use Rattle.lexer.specs.Cells.{cell_token};
ghost use Rattle.printer.specs.Watching.{kind_of, state_of, Unmet};

use lexer::{BANG, FIRST_NAME, FIRST_NUMERAL, SAME};

// Kinds of tokens.
#[derive(Clone, Copy, Debug, PartialEq, Eq)]
enum Kind {
    Other,
    Value,
    Equals,
    Not,
}

// States of the watch: nothing of it yet; behind `!`; behind a numeral with no `!` before it; behind that and `==`; it was met.
#[derive(Clone, Copy, Debug, PartialEq, Eq)]
enum State {
    Nothing,
    BehindNot,
    BehindValue,
    BehindEquals,
    Met,
}

// The kind of a cell's token.
fn cell_kind(c: u16) -> Kind
    ensures { (s : List ℕ) → kind_of result ≡ W.kind (cell_token s c) }
{
    if FIRST_NAME <= c {
        return Kind::Other;
    }
    if FIRST_NUMERAL <= c {
        return Kind::Value;
    }
    match c {
        SAME => Kind::Equals,
        BANG => Kind::Not,
        _ => Kind::Other,
    }
}

// The state behind a token of kind k.
fn next(state: State, k: Kind) -> State
    requires { Unmet state }
    ensures { state_of result ≡ W.next (state_of state) (kind_of k) }
{
    match k {
        Kind::Value => match state {
            State::BehindNot => State::Nothing,
            State::BehindEquals => State::Met,
            _ => State::BehindValue,
        },
        Kind::Equals => match state {
            State::BehindValue => State::BehindEquals,
            _ => State::Nothing,
        },
        Kind::Not => State::BehindNot,
        Kind::Other => State::Nothing,
    }
}

// Is there no `==` over two values among the cells?
pub fn apart(cells: &[u16]) -> bool
    ensures { (s : List ℕ) → result ≡ W.apart (map (cell_token s) cells.now) }
{
    let mut state = State::Nothing;
    for c in cells {
        state = next(state, cell_kind(*c));
        if let State::Met = state {
            return false;
        }
    }
    true
}
