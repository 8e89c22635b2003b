//! Aggregates and histories that were worked by hand: what the definitions make of small logs.

ghost use Rattle.std.specs.Prelude.{◌≡◌, ◌∷◌, [], codes, true, false, negsuc};
ghost use Rattle.repl_types.specs.declared.change_row.Op.TheVariants.{I, D};
ghost use Rattle.repl_types.specs.declared.value.Value.TheVariants.{Null, Int, Text};
ghost use Rattle.repl_model.specs.Summaries.{groups_of};
ghost use Rattle.repl_model.specs.Trails.{intervals, synchpoint, base_of, base_points};
ghost use Rattle.repl_model.specs.Aggregates.{change_aggregate, base_aggregate};
ghost use Rattle.repl_model.specs.History.{history, condensed};
ghost use Rattle.repl_model.specs.WorkedOrders.{orders_of};
ghost use Rattle.repl_model.specs.WorkedSums.{number, summary, item_sums, history_entry, quantity};
ghost use Rattle.repl_model.specs.WorkedSums.{one_block, two_blocks, three_blocks};
ghost use Rattle.repl_model.specs.WorkedSums.{read_twice, refreshed_twice};
ghost use Rattle.repl_model.specs.WorkedSums.{five_orders, large_orders, two_orders, deleted_log};
ghost use Rattle.repl_model.specs.WorkedSums.{withdrawn_log, renewed_log, early_order};
ghost use Rattle.repl_model.specs.WorkedSums.{changed_totals, least_quantities, many_totals};
ghost use Rattle.repl_model.specs.WorkedSums.{quantities};
ghost use Rattle.repl_model.specs.WorkedSums.{single_rows, extremes, counts, tally, total};

/// A change aggregate has for each interval a row for each item of its changes, with the times at
/// the interval's two points.
pub fn worked_change_aggregate()
    ensures intervals { intervals three_blocks ≡ (2, 6) ∷ (6, 10) ∷ (10, 12) ∷ [] }
    ensures synchpoint { synchpoint three_blocks ≡ 12 }
    ensures base { base_of three_blocks ≡ 2 }
    ensures rows { change_aggregate (orders_of five_orders) changed_totals three_blocks
        ≡ summary 0 110 (item_sums (codes "pen") 2 (number 3))
        ∷ summary 110 130 (item_sums (codes "ink") 1 (number 3))
        ∷ summary 110 130 (item_sums (codes "pen") 1 (number 4))
        ∷ summary 130 140 (item_sums (codes "ink") 1 (number 5))
        ∷ [] }
{}

/// A sum is NULL if 64 bits don't hold it, and if it has no values to sum up.
pub fn worked_sum_out_of_range()
    ensures { change_aggregate (orders_of large_orders) changed_totals (one_block 2 6)
        ≡ summary 0 100 (item_sums (codes "ink") 1 Null)
        ∷ summary 0 100 (item_sums (codes "pen") 2 Null)
        ∷ [] }
{}

/// With a predicate a change aggregate has only the changes that it selects: an update by its new
/// row, and a delete by the row that it deletes.
pub fn worked_selected_aggregate()
    ensures { change_aggregate (orders_of deleted_log) many_totals two_blocks
        ≡ summary 0 100 (item_sums (codes "pen") 1 (number 20))
        ∷ summary 100 200 (item_sums (codes "ink") 2 (number 24))
        ∷ [] }
{}

/// A base aggregate has for each point at which the source was read a row for each item there.
pub fn worked_base_aggregate()
    ensures points { base_points read_twice ≡ 2 ∷ 5 ∷ [] }
    ensures rows { base_aggregate (orders_of two_orders) least_quantities read_twice
        ≡ summary 100 100 (item_sums (codes "ink") 1 (number 5))
        ∷ summary 100 100 (item_sums (codes "pen") 1 (number 20))
        ∷ [] }
{}

/// A history that isn't complete has the changes of its blocks, and none of a gap between them. A
/// condensed one has the last entry of each key, also if that is a delete.
pub fn worked_history()
    ensures changes { history false (orders_of renewed_log) (quantities false false) (one_block 2 8)
        ≡ (number 1 ∷ [], history_entry 3 0 I 4 100 (quantity 1 1))
        ∷ (number 1 ∷ [], history_entry 5 0 D 6 110 (quantity 1 1))
        ∷ (number 1 ∷ [], history_entry 7 0 I 8 120 (quantity 1 7))
        ∷ [] }
    ensures condensed { condensed (history true (orders_of renewed_log) (quantities true true)
        (one_block 2 8))
        ≡ (number 1 ∷ [], history_entry 7 0 I 8 120 (quantity 1 7)) ∷ [] }
    ensures deleted { condensed (history true (orders_of withdrawn_log) (quantities true true)
        (one_block 2 6))
        ≡ (number 1 ∷ [], history_entry 5 0 D 6 110 (quantity 1 1)) ∷ [] }
    ensures no_changes { history false (orders_of renewed_log) (quantities false false) [] ≡ [] }
    ensures no_entries { condensed (history true (orders_of renewed_log) (quantities true true) [])
        ≡ [] }
    ensures gap { history false (orders_of renewed_log) (quantities false false) refreshed_twice
        ≡ (number 1 ∷ [], history_entry 3 0 I 4 100 (quantity 1 1))
        ∷ (number 1 ∷ [], history_entry 7 0 I 8 120 (quantity 1 7))
        ∷ [] }
{}

/// A complete history begins with the rows at the refresh, as if each was inserted there.
pub fn worked_complete_history()
    ensures { history true (orders_of early_order) (quantities true false) (one_block 4 6)
        ≡ (number 1 ∷ [], history_entry 4 0 I 4 100 (quantity 1 20))
        ∷ (number 1 ∷ [], history_entry 5 0 D 6 150 (quantity 1 20))
        ∷ [] }
{}

/// The groups of rows of one value each. The least value, the greatest value and the number of
/// values leave NULL out; the number of rows doesn't. NULL is a group like any other, and the
/// first. No rows have no group. A sum is exact, so it may leave the range of 64 bits on the way.
pub fn worked_groups()
    ensures no_extremes { groups_of extremes (single_rows (Null ∷ [])) ≡ (Null ∷ Null ∷ []) ∷ [] }
    ensures extremes { groups_of extremes (single_rows (Null ∷ number 3 ∷ number 1 ∷ []))
        ≡ (number 1 ∷ number 3 ∷ []) ∷ [] }
    ensures counts { groups_of counts (single_rows (Null ∷ Null ∷ []))
        ≡ (number 2 ∷ number 0 ∷ []) ∷ [] }
    ensures groups { groups_of tally (single_rows (Text (codes "a") ∷ Null ∷ number 2 ∷ Null ∷ []))
        ≡ (Null ∷ number 2 ∷ [])
        ∷ (number 2 ∷ number 1 ∷ [])
        ∷ (Text (codes "a") ∷ number 1 ∷ [])
        ∷ [] }
    ensures one_group { groups_of counts
        (single_rows (Text (codes "a") ∷ Null ∷ number 2 ∷ Null ∷ []))
        ≡ (number 4 ∷ number 2 ∷ []) ∷ [] }
    ensures no_groups { groups_of tally [] ≡ [] }
    ensures no_group { groups_of counts [] ≡ [] }
    ensures exact { groups_of total
        (single_rows (number 9223372036854775807 ∷ number 1 ∷ Int (negsuc 0) ∷ []))
        ≡ (number 9223372036854775807 ∷ []) ∷ [] }
{}
