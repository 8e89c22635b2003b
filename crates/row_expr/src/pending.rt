//! Left sides of predicates whose right sides are tested first.

ghost use Rattle.std.specs.Prelude.{◌≡◌, ◌≤◌, ◌<◌, ◌+◌, ◌++◌, ◌∷◌, ◌↔◌, [], IsTrue, length};
ghost use Rattle.std.specs.Prelude.{IfSome, IfNone, MatchOption};
ghost use Rattle.repl_types.specs.Value.{Values};
ghost use Rattle.repl_model.specs.Expressions.{is_true_of};
ghost use Rattle.row_expr.specs.PendingPredicates.{predicate_size, left_predicate, pair_truth};
ghost use Rattle.row_expr.specs.PendingPredicates.{left_sizes, whole_truth};

use repl_definitions::Predicate;
use std::marker::Model;

/// A left side whose right side is tested first, and how they are joined.
#[derive(Clone, Copy)]
pub(crate) enum LeftSide<'a> {
    And(&'a Predicate),
    Or(&'a Predicate),
}

impl<'a> LeftSide<'a> {
    /// The left side, if it is still to be tested now that it is known whether the right side is
    /// true; None if that decides.
    fn if_open(self, truth: bool) -> Option<&'a Predicate>
        ensures decided { IfNone result ((row : Values) → pair_truth row self.entry truth ≡ truth) }
        ensures open { IfSome result (λ predicate. (row : Values)
            → pair_truth row self.entry truth ≡ is_true_of row predicate.now) }
        ensures same { IfSome result (λ predicate. predicate.now ≡ left_predicate self.entry) }
    {
        match (self, truth) {
            (LeftSide::And(predicate), true) | (LeftSide::Or(predicate), false) => Some(predicate),
            _ => None,
        }
    }
}

/// How many left sides can be pending in one call of `test_forks`.
pub(crate) const ROOM: usize = 256;

/// The left sides that are pending, each in the right side of the one before it.
#[derive(Drop)]
pub(crate) struct Pending<'a> {
    sides: [LeftSide<'a>; ROOM],
    count: usize,
}

impl<'a> Model for Pending<'a> {
    ghost use Rattle.std.specs.Prelude.{List, ◌≡◌, ◌≤◌, length, take};
    ghost use Rattle.row_expr.specs.declared.pending.LeftSide.{LeftSide};
    ghost use Rattle.row_expr.specs.declared.pending.TheConstants.{ROOM};
    ghost use Rattle.repl_definitions.specs.contracts.predicate.Predicate as predicates;
    ghost use Rattle.std.specs.Coded.{codes};

    ghost Value = { List LeftSide };

    ghost coded = { Prim.hlevel (codes, predicates.the_row.coded) };

    ghost view = { λ pending. take pending.count pending.sides };

    ghost invariant = { λ pending. (pending.count ≤ ROOM) × (length pending.sides ≡ ROOM) };
}

impl<'a> Pending<'a> {
    /// No left side. The places are filled with any predicate.
    pub(crate) fn new(filler: &'a Predicate) -> Self
        ensures { result ≡ [] }
    {
        Pending {
            sides: [LeftSide::And(filler); ROOM],
            count: 0,
        }
    }

    /// Whether there is no room for one more.
    pub(crate) fn is_full(&self) -> bool
        ensures { IsTrue result ↔ (length self.now ≡ ROOM) }
    {
        self.count == ROOM
    }

    /// Adds a left side.
    pub(crate) fn push(&mut self, side: LeftSide<'a>)
        requires { length self.old < ROOM }
        ensures { self.new ≡ self.old ++ side.entry ∷ [] }
    {
        let count = self.count;
        let sides = &mut self.sides[..];
        sides[count] = side;
        self.count += 1;
    }

    /// Takes the last left side away.
    fn pop(&mut self) -> Option<LeftSide<'a>>
        ensures { MatchOption result (self.old ≡ []) (λ side. self.old ≡ self.new ++ side ∷ []) }
    {
        if self.count == 0 {
            return None;
        }
        self.count -= 1;
        let sides = &self.sides[..];
        Some(sides[self.count])
    }

    /// Takes left sides away from the last one down, now that it is known whether the right side of
    /// the last is true, up to one that is still to be tested, and gives that one. None if there is
    /// none: then the answer for all is the answer for that right side.
    pub(crate) fn resume(&mut self, truth: bool) -> Option<&'a Predicate>
        ensures decided { IfNone result ((row : Values) → whole_truth row self.old truth ≡ truth) }
        ensures open { IfSome result (λ predicate. (row : Values)
            → whole_truth row self.new (is_true_of row predicate.now)
            ≡ whole_truth row self.old truth) }
        ensures fewer { IfSome result (λ predicate. (length self.new < length self.old)
            × (left_sizes self.new + predicate_size predicate.now ≤ left_sizes self.old)) }
    {
        while let Some(side) = self.pop() {
            if let Some(predicate) = side.if_open(truth) {
                return Some(predicate);
            }
        }
        None
    }
}
