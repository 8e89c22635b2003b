//! What the words of the command line ask for, at the servers that there are.

ghost use Rattle.std.specs.Prelude.{◌≡◌, ◌↔◌, IsTrue, IfOk, map, string_bytes};
ghost use Rattle.run_words.specs.declared.opening.Opening.{Opening};
ghost use Rattle.run_words.specs.declared.opening.ServerWord.{ServerWord};
ghost use Rattle.site_store.specs.Views.{names};
ghost use Rattle.session_core.specs.Session.{Asks, server_names};

use keep_core::Keeper;
use repl_commands::WordsError;
use run_words::{Opening, ServerWord, one_opening_of_words, server_words};
use site_store::Sites;
use std::alloc::Global;

/// Whether the servers are those that `copy` needs, its source and its target.
fn are_of_copy<K: Keeper>(sites: &Sites<K>) -> bool
    ensures { IsTrue result ↔ (server_names Opening.Copy ≡ names sites.now) }
{
    if sites.len() != 2 || sites.name(0).as_str() != "src" {
        return false;
    }
    sites.name(1).as_str() == "dst"
}

/// Whether the servers are these, in order.
fn are_these<K: Keeper>(servers: &[ServerWord], sites: &Sites<K>) -> bool
    ensures { IsTrue result ↔ (map (λ server. server.name) servers.now ≡ names sites.now) }
{
    if servers.len() != sites.len() as usize {
        return false;
    }
    for (place, server) in servers.iter().enumerate() {
        if server.name != *sites.name(place as u32) {
            return false;
        }
    }
    true
}

/// Whether the servers are those that the run needs, in order.
fn are_asked<K: Keeper>(opening: &Opening, sites: &Sites<K>) -> bool
    ensures { IsTrue result ↔ (server_names opening.now ≡ names sites.now) }
{
    match opening {
        Opening::Copy => are_of_copy(sites),
        Opening::Servers { servers, .. } => are_these(servers.as_slice(), sites),
    }
}

/// What the words ask for. `Usage` is returned only if they ask for nothing, or for a run at other
/// servers.
pub fn asked_opening<K: Keeper>(
    alloc: Global,
    words: &[String],
    sites: &Sites<K>,
) -> Result<Opening, WordsError>
    ensures ok { IfOk result (Asks (map string_bytes words.now) (names sites.now)) }
    ensures usage { result ≡ Err WordsError.Usage → (opening : Opening)
        → ¬ (Asks (map string_bytes words.now) (names sites.now) opening) }
{
    one_opening_of_words();
    let opening = server_words(alloc, words)?;
    if !are_asked(&opening, sites) {
        return Err(WordsError::Usage);
    }
    Ok(opening)
}
