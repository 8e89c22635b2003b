//! What a load of definitions makes of a world, server by server.
//!
//! `specs/worlds/Loads.antt` says what each server gets: the tables, registrations and sets of a
//! text that don't stand there yet. The lemma `load_stays_sound` shows that each world on the way
//! is sound.
//!
//! For example, after a load that stopped between two servers a set stands at one of its ends
//! alone. It isn't known then, and the tables that its members have at that end stand there too.

ghost use Rattle.std.specs.Prelude.{◌≡◌, ◌∷◌, [], codes};
ghost use Rattle.repl_model.specs.World.{empty_server};
ghost use Rattle.repl_model.specs.WorkedWorld.{hq};
ghost use Rattle.load_laws.specs.worlds.Loads.{load_server, load_first, load_all};
ghost use Rattle.load_laws.specs.worlds.WorkedLoads.{worked_defs, two_servers};
ghost use Rattle.load_laws.specs.worlds.WorkedLoads.{loaded_hq, loaded_shop};

/// A load worked out. Between the two servers the set stands at its source alone. The same text
/// once more changes nothing, and nothing of a server that has it all and has captured since.
pub fn worked_load()
    ensures between { load_first worked_defs 1 two_servers
        ≡ loaded_hq ∷ empty_server (codes "shop") ∷ [] }
    ensures all { load_all worked_defs two_servers ≡ loaded_hq ∷ loaded_shop ∷ [] }
    ensures again { load_all worked_defs (loaded_hq ∷ loaded_shop ∷ [])
        ≡ loaded_hq ∷ loaded_shop ∷ [] }
    ensures standing { load_server worked_defs hq ≡ hq }
{}
