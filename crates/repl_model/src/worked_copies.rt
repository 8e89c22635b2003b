//! Copies that were worked by hand: what the definitions make of small logs.

ghost use Rattle.std.specs.Prelude.{◌≡◌, ◌∷◌, [], ◌++◌, pos, true, false, map, take, codes};
ghost use Rattle.std.specs.FinMap.{entries};
ghost use Rattle.repl_types.specs.declared.value.Value.TheVariants.{Null, Int, Text};
ghost use Rattle.repl_types.specs.declared.change_row.Op.TheVariants.{I, U, D};
ghost use Rattle.repl_model.specs.Units.{units};
ghost use Rattle.repl_model.specs.SourceAt.{source_at};
ghost use Rattle.repl_model.specs.ChangeRows.{changes_between};
ghost use Rattle.repl_model.specs.Applicable.{is_applicable};
ghost use Rattle.repl_model.specs.MemberCopies.{user_copy, point_in_time_copy};
ghost use Rattle.repl_model.specs.World.{restart_after};
ghost use Rattle.repl_model.specs.Worked.{inserts, change_row};
ghost use Rattle.repl_model.specs.WorkedOrders.{orders, with_quantity, orders_of, order};
ghost use Rattle.repl_model.specs.WorkedOrders.{orders_insert, user_commit};
ghost use Rattle.repl_model.specs.WorkedCopies.{changed_log, one_order_log, long_log};
ghost use Rattle.repl_model.specs.WorkedCopies.{orders_taken_apart, only_items};
ghost use Rattle.repl_model.specs.WorkedCopies.{many_orders, all_orders};
ghost use Rattle.repl_model.specs.WorkedCopies.{parts, with_code, parts_of, part};
ghost use Rattle.repl_model.specs.WorkedCopies.{renamed_log, marked_parts, marked};
ghost use Rattle.repl_model.specs.WorkedCopies.{interleaved_log};

/// The change rows of three registrations of orders. The first keeps all after-images and the
/// before-image of the quantity. The second takes each update apart into a delete and an insert.
/// The third keeps the number and the item, and leaves out an update that changes neither.
pub fn worked_change_rows()
    ensures whole { changes_between changed_log with_quantity 2 8
        ≡ change_row 5 3 0 I (order 1 (codes "pen") (Int (pos 20))) (Null ∷ [])
        ∷ change_row 5 4 0 I (order 2 (codes "ink") (Int (pos 5))) (Null ∷ [])
        ∷ change_row 8 6 0 U (order 2 (codes "ink") (Int (pos 12))) (Int (pos 5) ∷ [])
        ∷ change_row 8 7 0 U (order 1 (codes "pen") (Int (pos 9))) (Int (pos 20) ∷ [])
        ∷ [] }
    ensures apart { changes_between changed_log orders_taken_apart 2 8
        ≡ change_row 5 3 0 I (order 1 (codes "pen") (Int (pos 20))) []
        ∷ change_row 5 4 0 I (order 2 (codes "ink") (Int (pos 5))) []
        ∷ change_row 8 6 0 D (order 2 (codes "ink") (Int (pos 5))) []
        ∷ change_row 8 6 1 I (order 2 (codes "ink") (Int (pos 12))) []
        ∷ change_row 8 7 0 D (order 1 (codes "pen") (Int (pos 20))) []
        ∷ change_row 8 7 1 I (order 1 (codes "pen") (Int (pos 9))) []
        ∷ [] }
    ensures items { changes_between one_order_log only_items 2 6
        ≡ change_row 4 3 0 I (Int (pos 1) ∷ Text (codes "pen") ∷ []) [] ∷ [] }
{}

/// A user copy of the orders with many pieces: at the refresh there is none; at the end an update
/// has brought one in, and another has taken one out. A copy of all orders has both, in the order
/// of their keys, as the source has them.
pub fn worked_user_copy()
    ensures source_refreshed { entries (source_at orders changed_log 2) ≡ [] }
    ensures source_later { entries (source_at orders changed_log 8)
        ≡ (Int (pos 1) ∷ [], order 1 (codes "pen") (Int (pos 9)))
        ∷ (Int (pos 2) ∷ [], order 2 (codes "ink") (Int (pos 12))) ∷ [] }
    ensures refreshed { user_copy (orders_of changed_log) many_orders 2 ≡ [] }
    ensures later { user_copy (orders_of changed_log) many_orders 8
        ≡ (Int (pos 2) ∷ [], Int (pos 2) ∷ Int (pos 12) ∷ []) ∷ [] }
    ensures all { user_copy (orders_of changed_log) all_orders 8
        ≡ (Int (pos 1) ∷ [], order 1 (codes "pen") (Int (pos 9)))
        ∷ (Int (pos 2) ∷ [], order 2 (codes "ink") (Int (pos 12))) ∷ [] }
{}

/// A point-in-time copy of a part that changes its code: the row is only under the new key, with
/// the time of that change. A refresh gives each row the time at its point, even if the row's last
/// change is older; a unit that changes only other rows leaves the time of a row.
pub fn worked_point_in_time_copy()
    ensures inserted { point_in_time_copy (parts_of renamed_log) marked_parts 2 4
        ≡ (Text (codes "a") ∷ [], marked 100 (part (codes "a") 1)) ∷ [] }
    ensures renamed { point_in_time_copy (parts_of renamed_log) marked_parts 2 6
        ≡ (Text (codes "b") ∷ [], marked 130 (part (codes "b") 1)) ∷ [] }
    ensures refreshed { point_in_time_copy (parts_of renamed_log) marked_parts 4 4
        ≡ (Text (codes "a") ∷ [], marked 100 (part (codes "a") 1)) ∷ [] }
    ensures refreshed_later { point_in_time_copy (parts_of interleaved_log) marked_parts 7 7
        ≡ (Text (codes "b") ∷ [], marked 60 (part (codes "b") 6)) ∷ [] }
    ensures left { point_in_time_copy (parts_of interleaved_log) marked_parts 5 7
        ≡ (Text (codes "b") ∷ [], marked 50 (part (codes "b") 6)) ∷ [] }
    ensures rows { changes_between renamed_log with_code 2 6
        ≡ change_row 4 3 0 I (part (codes "a") 1) (Null ∷ [])
        ∷ change_row 6 5 0 U (part (codes "b") 1) (Text (codes "a") ∷ [])
        ∷ [] }
{}

/// A long transaction changes an order before a capture, and commits after it. The next capture
/// begins to read the log at that change, so its change row isn't lost.
pub fn worked_restart()
    ensures before { restart_after (take 5 long_log) 2 ≡ 3 }
    ensures in_flight { restart_after (take 5 long_log) 5 ≡ 3 }
    ensures ended { restart_after long_log 6 ≡ 7 }
    ensures first { changes_between (take 5 long_log) with_quantity 2 5
        ≡ change_row 5 4 0 I (order 2 (codes "ink") (Int (pos 15))) (Null ∷ []) ∷ [] }
    ensures next { changes_between long_log with_quantity 5 6
        ≡ change_row 6 3 0 I (order 1 (codes "pen") (Int (pos 20))) (Null ∷ []) ∷ [] }
    ensures copy_before { user_copy (orders_of long_log) many_orders 5
        ≡ (Int (pos 2) ∷ [], Int (pos 2) ∷ Int (pos 15) ∷ []) ∷ [] }
    ensures copy_after { user_copy (orders_of long_log) many_orders 6
        ≡ (Int (pos 1) ∷ [], Int (pos 1) ∷ Int (pos 20) ∷ [])
        ∷ (Int (pos 2) ∷ [], Int (pos 2) ∷ Int (pos 15) ∷ []) ∷ [] }
{}

/// Two transactions at a time change two tables, and the second is aborted in between: the units,
/// and the rows of both tables at each point.
pub fn worked_interleaved()
    ensures seqs { map (λ u. u.head.seq) (units interleaved_log) ≡ 6 ∷ 7 ∷ [] }
    ensures changes { map (λ u. map (λ placed. placed.pos) u.changes) (units interleaved_log)
        ≡ (1 ∷ 3 ∷ []) ∷ (5 ∷ []) ∷ [] }
    ensures orders_before { entries (source_at orders interleaved_log 5) ≡ [] }
    ensures parts_before { entries (source_at parts interleaved_log 5) ≡ [] }
    ensures orders_first { entries (source_at orders interleaved_log 6)
        ≡ (Int (pos 1) ∷ [], order 1 (codes "pen") (Int (pos 20))) ∷ [] }
    ensures parts_first { entries (source_at parts interleaved_log 6)
        ≡ (Text (codes "b") ∷ [], part (codes "b") 6) ∷ [] }
    ensures orders_both { entries (source_at orders interleaved_log 7)
        ≡ (Int (pos 1) ∷ [], order 1 (codes "pen") (Int (pos 20)))
        ∷ (Int (pos 2) ∷ [], order 2 (codes "ink") (Int (pos 15))) ∷ [] }
    ensures parts_both { entries (source_at parts interleaved_log 7)
        ≡ (Text (codes "b") ∷ [], part (codes "b") 6) ∷ [] }
{}

/// What is applicable after the log of `worked_interleaved`. A change is if it fits its table, even
/// if its key stands already. A commit is if the changes of its unit apply and its time isn't below
/// that of the last commit.
pub fn worked_applicable()
    ensures change { is_applicable (orders ∷ parts ∷ []) interleaved_log
        (orders_insert 3 1 (codes "pen") (Int (pos 20))) ≡ true }
    ensures no_table { is_applicable (orders ∷ parts ∷ []) interleaved_log
        (inserts 3 1 (codes "pen")) ≡ false }
    ensures key_stands { is_applicable (orders ∷ parts ∷ [])
        (interleaved_log ++ orders_insert 3 1 (codes "pen") (Int (pos 20)) ∷ [])
        (user_commit 3 (codes "cem") 70) ≡ false }
    ensures key_is_free { is_applicable (orders ∷ parts ∷ [])
        (interleaved_log ++ orders_insert 3 3 (codes "pen") (Int (pos 20)) ∷ [])
        (user_commit 3 (codes "cem") 70) ≡ true }
    ensures same_time { is_applicable (orders ∷ parts ∷ [])
        (interleaved_log ++ orders_insert 3 3 (codes "pen") (Int (pos 20)) ∷ [])
        (user_commit 3 (codes "cem") 60) ≡ true }
    ensures too_early { is_applicable (orders ∷ parts ∷ [])
        (interleaved_log ++ orders_insert 3 3 (codes "pen") (Int (pos 20)) ∷ [])
        (user_commit 3 (codes "cem") 40) ≡ false }
{}
