//! An iterator over names.

ghost use Rattle.std.specs.Prelude.{◌≡◌, List, ℕ, is_some, option_map, true, IfNone, IfSome, []};
ghost use Rattle.std.specs.Prelude.{◌∷◌, Some, None};
ghost use Rattle.std.specs.Iterator.{YieldsFirstRef, item_count};
ghost use Rattle.ud_model.specs.conditions.Parsing.{tokens_of};
ghost use Rattle.ud_cond.specs.list_names.NameLists.{name_in_token, names_in_text, names_remaining};
ghost use Rattle.ud_cond.specs.CondViews.{as_token};

use crate::expressions::tokens::{NextToken, Token, next_token};
use std::marker::Model;

/// An iterator over the names of a condition, in order and with repeats.
#[derive(Drop)]
pub struct Names<'a> {
    /// A name that comes before the others.
    alone: Option<&'a [u8]>,
    /// A text that consists of tokens, whose names come next.
    rest: &'a [u8],
}

impl<'a> Model for Names<'a> {
    ghost use Rattle.std.specs.Prelude.{◌≡◌, List, ℕ, is_some, option_map, true};
    ghost use Rattle.ud_model.specs.conditions.Parsing.{tokens_of};
    ghost use Rattle.ud_cond.specs.list_names.NameLists.{names_remaining};

    ghost Value = { List (List ℕ) };

    ghost view = { λ s. names_remaining (option_map (λ n. n.now) s.alone) s.rest.now };

    ghost invariant = { λ s. is_some (tokens_of s.rest.now) ≡ true };
}

impl<'a> Names<'a> {
    /// Returns an iterator over no names.
    #[tactic(auto, unfolding(ud_model::specs::conditions::Parsing::tokens_of, ud_model::specs::conditions::Tokens::next_token))]
    pub(crate) fn none() -> Names<'a>
        ensures { result ≡ [] }
    {
        Names {
            alone: None,
            rest: &[],
        }
    }

    /// Returns an iterator over one name.
    #[tactic(auto, unfolding(ud_model::specs::conditions::Parsing::tokens_of, ud_model::specs::conditions::Tokens::next_token))]
    pub(crate) fn one(name: &'a [u8]) -> Names<'a>
        ensures { result ≡ name.now ∷ [] }
    {
        Names {
            alone: Some(name),
            rest: &[],
        }
    }

    /// Returns an iterator over the names of a text that consists of tokens.
    pub(crate) fn of_text(text: &'a [u8]) -> Names<'a>
        requires { is_some (tokens_of text.now) ≡ true }
        ensures { result ≡ names_in_text text.now }
    {
        Names {
            alone: None,
            rest: text,
        }
    }
}

impl<'a> Iterator for Names<'a> {
    type Item = &'a [u8];

    ghost next_gives = { YieldsFirstRef (λ left. left) };

    ghost remaining = { item_count (λ left. left) };

    fn next(&mut self) -> Option<&'a [u8]> {
        if let Some(name) = self.alone {
            self.alone = None;
            return Some(name);
        }
        let (name, after) = next_name(self.rest)?;
        self.rest = after;
        Some(name)
    }
}

/// Returns the name that a token is, if it is one.
fn name_in(token: Token<'_>) -> Option<&[u8]>
    ensures { option_map (λ n. n.now) result ≡ name_in_token (as_token token.entry) }
{
    match token {
        Token::Name(name, _) => Some(name),
        _ => None,
    }
}

/// Returns the first name of a text that consists of tokens, and the text after the name.
fn next_name(text: &[u8]) -> Option<(&[u8], &[u8])>
    requires { is_some (tokens_of text.now) ≡ true }
    ensures none { IfNone result (names_in_text text.now ≡ []) }
    ensures some { IfSome result (λ r. names_in_text text.now ≡ r.0.now ∷ names_in_text r.1.now) }
    ensures whole { IfSome result (λ r. is_some (tokens_of r.1.now) ≡ true) }
{
    let mut rest = text;
    'tokens: loop {
        match next_token(rest) {
            NextToken::AtEnd => return None,
            NextToken::Unreadable => return None,
            NextToken::Found(token, after) => {
                if let Some(name) = name_in(token) {
                    return Some((name, after));
                }
                rest = after;
            }
        }
    }
}
