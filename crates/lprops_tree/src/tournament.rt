// A list of candidates of which the winner is known.

ghost use Rattle.std.specs.Prelude.{◌≡◌, ◌+◌, ◌*◌, ◌<◌, ◌≤◌, ℕ, List, drop, set, get_or, length, replicate, IfOk};
ghost use Rattle.lprops_tree.specs.Tournament.{IsTournament, nobody, rank};

use crate::candidate::{Candidate, NOBODY, winner};
use std::alloc::Global;
use std::marker::Model;
use ubifs_base::Memory;

/// Candidates in order, each at its place, and who wins against all. Contracts see the list of candidates.
#[derive(Drop)]
pub(crate) struct Tournament {
    nodes: Vec<Candidate>,
    count: usize,
}

impl Model for Tournament {
    ghost use Rattle.std.specs.Prelude.{List, drop};
    ghost use Rattle.lprops_tree.specs.declared.candidate.Candidate.{Candidate};
    ghost use Rattle.lprops_tree.specs.Tournament.{IsTournament};

    ghost Value = { List Candidate };

    ghost view = { λ t. drop t.count t.nodes.items };

    ghost invariant = { λ t. IsTournament t.count t.nodes.items };
}

impl Tournament {
    ghost use Rattle.std.specs.Prelude.{◌≡◌, ◌<◌, ◌≤◌, ◌^◌, ℕ, set, get_or, length, replicate, IfOk};
    ghost use Rattle.lprops_tree.specs.Tournament.{nobody, rank, IsWinner};

    /// So many places, with nobody at any.
    pub(crate) fn new(alloc: Global, count: usize) -> Result<Tournament, Memory>
        requires some { 0 < count }
        requires few { count < 2 ^ 32 }
        ensures { IfOk result (λ made. made ≡ replicate count nobody) }
    {
        Ok(Tournament {
            nodes: vec![in alloc; NOBODY; 2 * count]?,
            count,
        })
    }

    /// Puts a candidate at a place.
    pub(crate) fn put(&mut self, at: usize, one: Candidate)
        requires { at < length self.old }
        ensures { self.new ≡ set self.old at one }
    {
        replay(self.nodes.as_mut_slice(), self.count, at, one);
    }

    /// The one of the lowest rank.
    pub(crate) fn best(&self) -> Candidate
        ensures { IsWinner self.now result }
    {
        node_at(self.nodes.as_slice(), 1)
    }
}

// Puts a candidate at its place, and plays anew up to the first node.
fn replay(nodes: &mut [Candidate], count: usize, at: usize, one: Candidate)
    requires tournament { IsTournament count nodes.old }
    requires at { at < count }
    ensures tournament { IsTournament count nodes.new }
    ensures candidates { drop count nodes.new ≡ set (drop count nodes.old) at one }
{
    let mut place = count + at;
    nodes[place] = one;
    while place > 1 {
        place /= 2;
        nodes[place] = winner(node_at(nodes, 2 * place), node_at(nodes, 2 * place + 1));
    }
}

fn node_at(nodes: &[Candidate], at: usize) -> Candidate
    requires { at < length nodes.now }
    ensures { result ≡ get_or nodes.now at nobody }
{
    nodes[at]
}
