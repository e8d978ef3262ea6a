use std::marker::Model;
use stl_lexer::Token;

/// What was read at the front of the tokens, and what follows it.
#[derive(Drop)]
pub(crate) struct ParsedItem<'a, X>(pub X, pub &'a [Token]);

impl<'a, X> Model for ParsedItem<'a, X> {
    ghost use Rattle.std.specs.Prelude.{List};
    ghost use Rattle.stl_lexer.specs.declared.kinds.Token.{Token};

    ghost Value = { X × List Token };

    ghost view = { λ p. (p.0, p.1.now) };
}

/// What letters name, the number behind them, and what follows.
#[derive(Drop)]
pub(crate) struct NumberedItem<'a, X>(pub X, pub u16, pub &'a [Token]);

impl<'a, X> Model for NumberedItem<'a, X> {
    ghost use Rattle.std.specs.Prelude.{List, ℕ};
    ghost use Rattle.stl_lexer.specs.declared.kinds.Token.{Token};

    ghost Value = { X × ℕ × List Token };

    ghost view = { λ p. (p.0, p.1, p.2.now) };
}
