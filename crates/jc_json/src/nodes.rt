//! What is left of a tape while a value is made of it.

ghost use Rattle.std.specs.Prelude.{◌≡◌, ◌∷◌, [], MatchBool, MatchOption, MatchResult, None, Some, option_map};
ghost use Rattle.json.specs.Json.{after_end_array, read_key};
ghost use Rattle.json.specs.Tape.{node_token};

use crate::line::JsonFault;
use json::{Node, Tape};
use std::alloc::Allocator;
use std::marker::Model;

/// The nodes of a tape from a place on. A contract sees their tokens.
#[derive(Drop)]
pub(crate) struct Nodes<'t, 'a> {
    nodes: &'t [Node<'a>],
    at: usize,
}

impl<'t, 'a> Model for Nodes<'t, 'a> {
    ghost use Rattle.std.specs.Prelude.{List, drop, map};
    ghost use Rattle.json.specs.Token.{Token, tokens_code};
    ghost use Rattle.json.specs.Tape.{node_token};

    ghost Value = { List Token };

    ghost coded = { tokens_code };

    ghost view = { λ n. drop n.at (map node_token n.nodes.now) };
}

impl<'t, 'a> Nodes<'t, 'a> {
    // All nodes of a tape.
    pub(crate) fn of<A: Allocator>(tape: &'t Tape<'a, A>) -> Self
        ensures { result ≡ tape.now }
    {
        Nodes {
            nodes: tape.nodes(),
            at: 0,
        }
    }

    // The next node; none behind the last.
    #[inline(always)]
    pub(crate) fn next(&mut self) -> Option<&'t Node<'a>>
        ensures { MatchOption result ((self.old ≡ []) × (self.new ≡ []))
            (λ node. self.old ≡ node_token node.now ∷ self.new) }
    {
        let (nodes, at) = (self.nodes, self.at);
        if at >= nodes.len() {
            return None;
        }
        self.at = at + 1;
        Some(&nodes[at])
    }

    // A key, or none at the brace that closes an object.
    #[inline(always)]
    pub(crate) fn next_key(&mut self) -> Result<Option<&'a str>, JsonFault>
        ensures { MatchResult result
            (λ k. read_key self.old ≡ Some (option_map (λ s. s.now) k, self.new))
            (λ _. read_key self.old ≡ None) }
    {
        match self.next() {
            Some(Node::Key(key)) => Ok(Some(*key)),
            Some(Node::EndObject) => Ok(None),
            _ => Err(JsonFault::NotJson),
        }
    }

    // Takes the bracket that closes an array, where it is next.
    #[inline(always)]
    pub(crate) fn take_end_array(&mut self) -> bool
        ensures { MatchBool result (after_end_array self.old ≡ Some self.new)
            ((after_end_array self.old ≡ None) × (self.new ≡ self.old)) }
    {
        let at = self.at;
        if at >= self.nodes.len() {
            return false;
        }
        let node = self.nodes[at];
        if let Node::EndArray = node {
            self.at = at + 1;
            return true;
        }
        false
    }
}
