//! The servers that words name.

ghost use Rattle.std.specs.Prelude.{◌≡◌, ◌≢◌, ◌↔◌, IsTrue, IfOk, List, map};
ghost use Rattle.std.specs.List.{All, AllPairs};
ghost use Rattle.clap.specs.Walk.{texts};
ghost use Rattle.run_words.specs.declared.opening.ServerWord.{ServerWord};
ghost use Rattle.run_words.specs.Openings.{word_of, IsServerWord, GoTogether, AreServerWords};

use crate::opening::{MAP_PATH, ServerWord};
use repl_commands::WordsError;
use repl_types::{List, Name, Text};
use std::alloc::Global;

/// The most servers of a run.
pub const SERVER_LIMIT: usize = 16;

/// The most bytes of a path.
const PATH_LIMIT: usize = 1000;

/// The server of a word. A name has no `=`, so the word is split at its first one.
fn read_server(alloc: Global, word: &str) -> Result<ServerWord, WordsError>
    ensures ok { IfOk result (λ server. IsServerWord server × (word.now ≡ word_of server)) }
    ensures usage { result ≡ Err WordsError.Usage
        → (server : ServerWord) → IsServerWord server → word.now ≢ word_of server }
{
    let Some((name, path)) = word.split_once('=') else {
        return Err(WordsError::Usage);
    };
    if path.is_empty() || path.len() > PATH_LIMIT {
        return Err(WordsError::Usage);
    }
    let Some(name) = Name::read(alloc, name.as_bytes())? else {
        return Err(WordsError::Usage);
    };
    Ok(ServerWord {
        name,
        path: Text::new(String::from_str(alloc, path)?),
    })
}

/// The servers of the words, one a word.
fn read_each(alloc: Global, words: &[&str]) -> Result<List<ServerWord>, WordsError>
    ensures ok { IfOk result (λ servers. All IsServerWord servers
        × (texts words.now ≡ map word_of servers)) }
    ensures usage { result ≡ Err WordsError.Usage
        → (servers : List ServerWord) → All IsServerWord servers
        → texts words.now ≢ map word_of servers }
{
    let mut servers = List::new(alloc);
    for word in words {
        servers.push(read_server(alloc, word)?)?;
    }
    Ok(servers)
}

/// Whether two servers may be servers of one run.
fn go_together(first: &ServerWord, second: &ServerWord) -> bool
    ensures { IsTrue result ↔ GoTogether first.now second.now }
{
    first.name != second.name && (first.path != second.path || first.path.as_str() == MAP_PATH)
}

/// Whether a server may be a server of one run with each of the others.
fn goes_with(server: &ServerWord, others: &[ServerWord]) -> bool
    ensures { IsTrue result ↔ All (λ other. GoTogether other server.now) others.now }
{
    others.iter().all(|other| go_together(other, server))
}

/// Whether any two of these servers may be servers of one run.
fn all_go_together(servers: &[ServerWord]) -> bool
    ensures { IsTrue result ↔ AllPairs GoTogether servers.now }
{
    for (place, server) in servers.iter().enumerate() {
        if !goes_with(server, &servers[..place]) {
            return false;
        }
    }
    true
}

/// The servers of the words, one a word, if they may be the servers of one run.
pub fn read_servers(alloc: Global, words: &[&str]) -> Result<List<ServerWord>, WordsError>
    ensures ok { IfOk result (λ servers. AreServerWords servers
        × (texts words.now ≡ map word_of servers)) }
    ensures usage { result ≡ Err WordsError.Usage
        → (servers : List ServerWord) → AreServerWords servers
        → texts words.now ≢ map word_of servers }
{
    // The command takes 1 to 16 words here, but no clause of it says so of the list that it gives.
    if words.is_empty() || words.len() > SERVER_LIMIT {
        return Err(WordsError::Usage);
    }
    let servers = read_each(alloc, words)?;
    if !all_go_together(servers.as_slice()) {
        return Err(WordsError::Usage);
    }
    Ok(servers)
}
