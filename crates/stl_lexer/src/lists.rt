ghost use Rattle.std.specs.Prelude.{◌≤◌, length};
ghost use Rattle.stl_lexer.specs.Tokens.{AreTokens};
ghost use Rattle.stl_lexer.specs.Limits.{source_limit};

use crate::kinds::Token;

/// A source with its tokens: `cut` keeps that the list is that of the definition for the source,
/// and `limited` that the source isn't too long.
#[derive(Debug, Drop)]
pub struct Tokens {
    pub source: Vec<u8>,
    pub list: Vec<Token>,
    pub ghost cut: { ∥ AreTokens source.items list.items ∥₁ },
    pub ghost limited: { length source.items ≤ source_limit },
}

impl Tokens {
    ghost use Rattle.std.specs.Prelude.{◌≡◌, ◌<◌, IfSome, slice_get, vec_len};
    ghost use Rattle.stl_lexer.specs.Tokens.{text_of};

    /// The token at a place of the list.
    pub fn token(&self, at: usize) -> Token
        requires { at < vec_len self.now.list }
        ensures value { slice_get self.now.list.items at ≡ Some result }
        ensures forward { result.start < result.end }
        ensures within { result.end ≤ length self.now.source.items }
    {
        self.list[at]
    }

    /// The bytes of the token at a place of the list.
    pub fn text(&self, at: usize) -> &[u8]
        requires { at < vec_len self.now.list }
        ensures { IfSome (slice_get self.now.list.items at)
            (λ t. result.now ≡ text_of self.now.source.items t) }
    {
        let token = self.token(at);
        &self.source[token.start as usize..token.end as usize]
    }
}
