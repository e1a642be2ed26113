//! The members of a tree one after another.
ghost use Rattle.std.specs.Prelude.{◌≡◌, ◌^◌, ◌<◌, ◌≤◌, drop, length};
ghost use Rattle.std.specs.Iterator.{YieldsFirstBy, item_count};
ghost use Rattle.ref_value.specs.Edn.{Edn};
ghost use Rattle.ref_value.specs.Moves.{HavePassed};

use crate::data::Value;
use crate::sequence::chunks::Run;
use crate::sequence::trees::Tree;
use std::marker::Model;

/// The members from a place on. Contracts see those that are left. It holds the rest of the present chunk, and goes down the
/// tree at each chunk's end; it takes no memory.
#[derive(Drop)]
pub(crate) struct Walk<'a> {
    tree: &'a Tree,
    run: Run<'a>,
    at: usize,
    end: usize,
}

impl<'a> Model for Walk<'a> {
    ghost use Rattle.std.specs.Prelude.{List, ◌≡◌, ◌≤◌, length, take, drop};
    ghost use Rattle.std.specs.Coded.{coded_list, coded×};
    ghost use Rattle.ref_value.specs.Edn.{Edn};
    ghost use Rattle.ref_value.specs.Code.{edn_code};

    ghost Value = { List (Edn × Edn) };

    ghost coded = { coded_list (coded× edn_code edn_code) };

    ghost use Rattle.ref_value.specs.Moves.{run_of};

    ghost view = { λ a. drop a.at a.tree.now.0 };

    ghost invariant = { λ a. (a.at ≤ a.end) × (a.end ≡ length a.tree.now.0)
        × (run_of a.run ≡ take (length (run_of a.run)) (drop a.at a.tree.now.0)) };
}

impl Tree {
    // The members from a place on.
    fn walk_from(&self, at: usize) -> Walk<'_>
        requires { at ≤ length self.now.0 }
        ensures value { result ≡ drop at self.now.0 }
        ensures fits { length result < 2 ^ 64 }
    {
        Walk {
            tree: self,
            run: Run::Values(&[]),
            at,
            end: self.len(),
        }
    }

    /// The members from the first on.
    pub(crate) fn walk(&self) -> Walk<'_>
        ensures value { result ≡ self.now.0 }
        ensures fits { length result < 2 ^ 64 }
    {
        self.walk_from(0)
    }

    /// The members of both, behind those that come first and are the same at a glance.
    pub(crate) fn walk_beside<'a, 'b>(&'a self, other: &'b Tree) -> (Walk<'a>, Walk<'b>)
        ensures { HavePassed self.now.0 other.now.0 result.0 result.1 }
    {
        let n = self.same_first(other);
        (self.walk_from(n), other.walk_from(n))
    }
}

impl<'a> Walk<'a> {
    /// Goes past the members that come next in both and are the same at a glance, as far as the present chunks have them.
    pub(crate) fn pass_same(&mut self, other: &mut Walk<'_>)
        ensures { HavePassed self.old other.old self.new other.new }
    {
        let n = self.run.same_first(&other.run);
        let Some(at) = self.at.checked_add(n) else {
            return;
        };
        let Some(other_at) = other.at.checked_add(n) else {
            return;
        };
        self.run = self.run.behind(n);
        self.at = at;
        other.run = other.run.behind(n);
        other.at = other_at;
    }
}

impl<'a> Iterator for Walk<'a> {
    type Item = (&'a Value, &'a Value);

    ghost next_gives = { YieldsFirstBy (λ e. (e.0.now, e.1.now)) (λ s. s) };

    ghost remaining = { item_count (λ s. s) };

    #[tactic(auto, using(crate::proofs::Pieces::first_of_run, crate::proofs::Pieces::rest_of_run, crate::proofs::Pieces::run_below))]
    fn next(&mut self) -> Option<(&'a Value, &'a Value)> {
        if self.at >= self.end {
            return None;
        }
        if self.run.len() == 0 {
            self.run = self.tree.run_from(self.at);
        }
        let first = self.run.first();
        self.run = self.run.behind(1);
        self.at += 1;
        Some(first)
    }
}
