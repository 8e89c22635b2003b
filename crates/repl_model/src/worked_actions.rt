//! The next actions of a set that copies orders, stage by stage.

ghost use Rattle.std.specs.Prelude.{◌≡◌, [], ◌∷◌, codes, None, Some};
ghost use Rattle.repl_types.specs.declared.refusal.GapPlace.TheVariants as gaps;
ghost use Rattle.repl_model.specs.Trails.{refresh, block};
ghost use Rattle.repl_model.specs.NextActions.{next_action, next_action_within};
ghost use Rattle.repl_model.specs.NextActions.{signals, refreshes, blocks, reports, idles, refuses};
ghost use Rattle.repl_model.specs.AfterActions.{after_action};
ghost use Rattle.repl_model.specs.WorkedActions.{world_of, known_of, loaded, signal_given};
ghost use Rattle.repl_model.specs.WorkedActions.{order_fed, target_refreshed, refresh_reported};
ghost use Rattle.repl_model.specs.WorkedActions.{order_captured, blocks_taken, limited, pruned_to};
ghost use Rattle.repl_model.specs.WorkedActions.{without_refresh, stopped, signal_after_stop};
ghost use Rattle.repl_model.specs.WorkedWorld.{copied_set};

/// A new set is refreshed: a signal, the refresh, which takes an order that was fed between them,
/// and a report. Then nothing is left to do, also once the log is captured up to that point.
pub fn worked_first_refresh()
    ensures first { next_action (known_of loaded) ≡ signals }
    ensures signal { after_action (world_of loaded) (known_of loaded) signals
        ≡ world_of signal_given }
    ensures second { next_action (known_of order_fed) ≡ refreshes }
    ensures refresh { after_action (world_of order_fed) (known_of order_fed) refreshes
        ≡ world_of target_refreshed }
    ensures third { next_action (known_of target_refreshed) ≡ reports }
    ensures report { after_action (world_of target_refreshed) (known_of target_refreshed) reports
        ≡ world_of refresh_reported }
    ensures idle { (next_action (known_of refresh_reported) ≡ idles)
        × (next_action (known_of order_captured) ≡ idles) }
{}

/// Five units are taken by blocks of at most two units: two, two and one. Then they are reported.
pub fn worked_blocks()
    ensures first { next_action (known_of (blocks_taken [])) ≡ blocks 6 }
    ensures then { after_action (world_of (blocks_taken [])) (known_of (blocks_taken [])) (blocks 6)
        ≡ world_of (blocks_taken (block 2 6 None ∷ [])) }
    ensures second { next_action (known_of (blocks_taken (block 2 6 None ∷ []))) ≡ blocks 10 }
    ensures third { next_action (known_of (blocks_taken
        (block 2 6 None ∷ block 6 10 None ∷ []))) ≡ blocks 12 }
    ensures report { next_action (known_of (blocks_taken
        (block 2 6 None ∷ block 6 10 None ∷ block 10 12 None ∷ []))) ≡ reports }
{}

/// A block takes all captured units, unless units that are more than max_minutes later wait for the
/// next one. What is pruned up to the point that the targets have reached is no gap. A gap calls
/// for a signal, if a refresh isn't forbidden.
pub fn worked_gaps()
    ensures block { next_action (known_of (pruned_to copied_set 2 2)) ≡ blocks 6 }
    ensures minutes { next_action (known_of (pruned_to (limited 0 60) 2 2)) ≡ blocks 4 }
    ensures rows { next_action (known_of (pruned_to copied_set 4 4)) ≡ signals }
    ensures forbidden { next_action (known_of (without_refresh (pruned_to copied_set 4 4)))
        ≡ refuses (gaps.Above (codes "hq") (codes "orders") 4) }
    ensures units { next_action (known_of (pruned_to copied_set 2 4)) ≡ signals }
    ensures forbidden_units { next_action (known_of (without_refresh (pruned_to copied_set 2 4)))
        ≡ refuses (gaps.Uow (codes "hq") 4) }
{}

/// With an end in seconds a block takes only units up to that time. If there are none, the set
/// reports, or nothing is done. A gap calls for a signal whatever the end is.
pub fn worked_end()
    ensures none { next_action_within (Some 99) (known_of (blocks_taken [])) ≡ idles }
    ensures first { next_action_within (Some 100) (known_of (blocks_taken [])) ≡ blocks 4 }
    ensures report { next_action_within (Some 100) (known_of (blocks_taken
        (block 2 4 None ∷ []))) ≡ reports }
    ensures all { next_action_within (Some 140) (known_of (blocks_taken [])) ≡ blocks 6 }
    ensures gap { next_action_within (Some 99) (known_of (pruned_to copied_set 4 4)) ≡ signals }
{}

/// A registration that was stopped is a gap. After the signal the set is refreshed at it, whether
/// or not it is captured.
pub fn worked_stop()
    ensures first { next_action (known_of stopped) ≡ signals }
    ensures signal { after_action (world_of stopped) (known_of stopped) signals
        ≡ world_of signal_after_stop }
    ensures second { next_action (known_of signal_after_stop) ≡ refreshes }
    ensures forbidden { next_action (known_of (without_refresh stopped))
        ≡ refuses (gaps.Inactive (codes "hq") (codes "orders")) }
{}
