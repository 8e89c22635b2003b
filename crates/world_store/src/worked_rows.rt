//! The rows of a small world, worked by hand: its first server, `hq`, is the source of a set, and
//! its second, `shop`, the target.

ghost use Rattle.std.specs.Prelude.{◌≡◌, ◌∷◌, [], pos, true, false, codes, take, Some, None};
ghost use Rattle.repl_types.specs.declared.change_row.Op.TheVariants.{I, U};
ghost use Rattle.repl_types.specs.declared.value.Value.TheVariants.{Null, Int};
ghost use Rattle.repl_records.specs.declared.set_state.SetState.TheVariants as states;
ghost use Rattle.repl_records.specs.declared.trail.TrailEntry.TheVariants as steps;
ghost use Rattle.repl_model.specs.WorkedOrders.{orders, order, orders_of, with_quantity};
ghost use Rattle.repl_model.specs.WorkedCopies.{changed_log, interleaved_log, parts};
ghost use Rattle.repl_model.specs.WorkedWorld.{worked_world, hq, shop, started_orders};
ghost use Rattle.repl_model.specs.WorkedWorld.{copied_id, copied_set, copied_to, copied_trail};
ghost use Rattle.repl_model.specs.WorkedWorld.{orders_copy};
ghost use Rattle.world_store.specs.LogRows.{source_rows, in_flight_rows, head_of};
ghost use Rattle.world_store.specs.DefinitionRows.{table_rows, registration_rows};
ghost use Rattle.world_store.specs.DefinitionRows.{source_set_rows, target_set_rows};
ghost use Rattle.world_store.specs.CaptureRows.{change_rows_of, uow_rows, capture_state};
ghost use Rattle.world_store.specs.CaptureRows.{registration_state_rows, mark_rows, decided_rows};
ghost use Rattle.world_store.specs.CaptureRows.{rejected_rows};
ghost use Rattle.world_store.specs.TargetRows.{source_of, copy_rows, set_state_rows};
ghost use Rattle.world_store.specs.TargetRows.{last_number_rows, trail_rows};
ghost use Rattle.world_store.specs.Tables.{no_rows, target_table};
ghost use Rattle.world_store.specs.WorkedRows.{hq_with_log, hq_with_parts, source_row};
ghost use Rattle.world_store.specs.WorkedRows.{in_flight, kept_change, kept_unit, copy_row};

use repl_model::worked_user_copy;

/// The rows of Head, Source and Inflight at the source. With other logs than its own there are
/// changes in flight: they are in the order of their transactions, which may not be that of the
/// log, and an aborted change isn't one of them.
pub fn worked_log_rows()
    ensures head { head_of hq ≡ record { last = 8; commit = 8; time = 160 } }
    ensures source { source_rows hq orders
        ≡ source_row (Int (pos 1) ∷ []) (order 1 (codes "pen") (Int (pos 9)))
        ∷ source_row (Int (pos 2) ∷ []) (order 2 (codes "ink") (Int (pos 12))) ∷ [] }
    ensures in_flight { in_flight_rows hq ≡ [] }
    ensures last_in_flight { in_flight_rows (hq_with_log (take 7 changed_log))
        ≡ in_flight 2 6 ∷ in_flight 2 7 ∷ [] }
    ensures first_in_flight { in_flight_rows (hq_with_log (take 4 changed_log))
        ≡ in_flight 1 3 ∷ in_flight 1 4 ∷ [] }
    ensures by_transactions { in_flight_rows (hq_with_log (take 3 interleaved_log))
        ≡ in_flight 1 1 ∷ in_flight 1 3 ∷ in_flight 2 2 ∷ [] }
    ensures aborted { in_flight_rows (hq_with_log (take 5 interleaved_log))
        ≡ in_flight 1 1 ∷ in_flight 1 3 ∷ in_flight 2 5 ∷ [] }
{
    worked_user_copy();
}

/// The rows of Defs at both servers. The rows of tables are in the order of the names, of which the
/// shorter come first, and not in that of the numbers.
pub fn worked_definition_rows()
    ensures tables { table_rows hq ≡ (codes "orders", record { number = 0; def = orders }) ∷ [] }
    ensures by_names { table_rows hq_with_parts
        ≡ (codes "parts", record { number = 1; def = parts })
        ∷ (codes "orders", record { number = 0; def = orders }) ∷ [] }
    ensures registrations { registration_rows hq_with_parts
        ≡ (codes "orders", record { number = 0; registration = with_quantity }) ∷ [] }
    ensures source_sets { source_set_rows hq
        ≡ (copied_id, record { number = 0; def = copied_set }) ∷ [] }
    ensures target_sets { target_set_rows shop
        ≡ (copied_id, record { number = 0; def = copied_set }) ∷ [] }
{}

/// The rows of Cd at the source: those of its registration after its start and its floor, and none
/// if it isn't active.
pub fn worked_change_data()
    ensures active { change_rows_of hq started_orders
        ≡ kept_change 5 3 I (order 1 (codes "pen") (Int (pos 20))) (Null ∷ [])
        ∷ kept_change 5 4 I (order 2 (codes "ink") (Int (pos 5))) (Null ∷ [])
        ∷ kept_change 8 6 U (order 2 (codes "ink") (Int (pos 12))) (Int (pos 5) ∷ [])
        ∷ kept_change 8 7 U (order 1 (codes "pen") (Int (pos 9))) (Int (pos 20) ∷ [])
        ∷ [] }
    ensures stopped { change_rows_of hq (record started_orders { active = false }) ≡ [] }
    ensures started_later { change_rows_of hq (record started_orders { start = 5 })
        ≡ kept_change 8 6 U (order 2 (codes "ink") (Int (pos 12))) (Int (pos 5) ∷ [])
        ∷ kept_change 8 7 U (order 1 (codes "pen") (Int (pos 9))) (Int (pos 20) ∷ [])
        ∷ [] }
    ensures pruned { change_rows_of hq (record started_orders { floor = 5 })
        ≡ kept_change 8 6 U (order 2 (codes "ink") (Int (pos 12))) (Int (pos 5) ∷ [])
        ∷ kept_change 8 7 U (order 1 (codes "pen") (Int (pos 9))) (Int (pos 20) ∷ [])
        ∷ [] }
{}

/// The rows of Uow, Capture and Prune at the source.
pub fn worked_capture_rows()
    ensures uow { uow_rows hq ≡ kept_unit 2 0 (codes "q") (Some copied_id)
        ∷ kept_unit 5 100 (codes "ann") None
        ∷ kept_unit 8 160 (codes "bob") None
        ∷ [] }
    ensures capture { capture_state hq ≡ record { captured = 8; restart = 9; floor = 0 } }
    ensures registrations { registration_state_rows hq
        ≡ (0, record { active = true; start = 2; floor = 0 }) ∷ [] }
    ensures marks { mark_rows hq ≡ (0, record { mark = 8; signal = 2 }) ∷ [] }
    ensures decided { decided_rows hq ≡ (0, record { t = 0; d = 0 }) ∷ [] }
    ensures rejected { rejected_rows hq ≡ [] }
{}

/// The rows of Target, SetState and Trail at the target. The refresh put no row, since no order had
/// so many pieces then.
pub fn worked_target_rows()
    ensures source { source_of worked_world copied_set orders_copy
        ≡ Some (orders_of changed_log) }
    ensures copy { copy_rows (orders_of changed_log) orders_copy copied_trail
        ≡ copy_row (Int (pos 2) ∷ []) (Int (pos 2) ∷ Int (pos 12) ∷ []) ∷ [] }
    ensures state { set_state_rows worked_world shop
        ≡ (0, states.ReadOnly true 8 160 2 false 2) ∷ [] }
    ensures numbers { last_number_rows worked_world shop
        ≡ (record { set = 0; member = 0 }, record { number = 0 }) ∷ [] }
    ensures trail { trail_rows worked_world copied_to
        ≡ (1, steps.Refresh 2 0 None) ∷ (2, steps.Block 2 8 2 2 0 None) ∷ [] }
{
    worked_user_copy();
}

/// The table of the copy by bytes: it has the row of order 2 under its key, and nothing under the
/// key of order 1. There is no second table.
pub fn worked_target_table()
    ensures key { target_table worked_world shop 0
        (1 ∷ 128 ∷ 0 ∷ 0 ∷ 0 ∷ 0 ∷ 0 ∷ 0 ∷ 2 ∷ [])
        ≡ Some (0 ∷ 2
        ∷ 1 ∷ 128 ∷ 0 ∷ 0 ∷ 0 ∷ 0 ∷ 0 ∷ 0 ∷ 2
        ∷ 1 ∷ 128 ∷ 0 ∷ 0 ∷ 0 ∷ 0 ∷ 0 ∷ 0 ∷ 12 ∷ []) }
    ensures other_key { target_table worked_world shop 0
        (1 ∷ 128 ∷ 0 ∷ 0 ∷ 0 ∷ 0 ∷ 0 ∷ 0 ∷ 1 ∷ []) ≡ None }
    ensures no_target { target_table worked_world shop 1 ≡ no_rows }
{
    worked_user_copy();
}
