//! The servers of a run, and how they are opened and closed.

ghost use Rattle.std.specs.Prelude.{◌≡◌, IfOk, IfErr, IsOk, IsTrue, OnOk, [], ◌∷◌, map};
ghost use Rattle.run_words.specs.Openings.{map_path};
ghost use Rattle.run_words.specs.declared.opening.Opening.TheVariants.{Copy};
ghost use Rattle.site_store.specs.Servers.{AreServers, site_keeper};
ghost use Rattle.site_store.specs.Views.{list_of};
ghost use Rattle.sqlrep.specs.Opened.{in_memory as in_memory_lem, IsOpened, AreOpened, in_files};
ghost use Rattle.sqlrep.specs.Opened.{needed_servers as needed_servers_lem};

use keep_core::KeepError;
use keep_map::MapKeeper;
use keep_sqlite::{AnyKeeper, SqliteKeeper};
use repl_types::{List, Name, Text};
use run_words::{MAP_PATH, Opening, ServerWord};
use site_store::{Site, Sites};
use sqlite::{File, FileStore};
use std::alloc::{AllocError, AllocFailed, Global};

/// A keeper of the program, in memory or in a file.
pub type RunKeeper = AnyKeeper<FileStore<File>>;

/// Why servers can't be opened.
#[derive(Debug, Drop)]
pub enum OpenError {
    /// Memory ran out.
    Memory,
    /// The file of the server of this name can't be opened.
    CannotOpen(Name),
}

impl From<AllocError> for OpenError {
    ghost use Rattle.std.specs.Prelude.{◌≡◌};
    ghost use Rattle.sqlrep.specs.declared.servers.OpenError.TheVariants.{Memory};

    ghost from_gives = { λ _ e. e ≡ Memory };

    fn from(_: AllocError) -> OpenError {
        OpenError::Memory
    }
}

impl<T: Drop> From<AllocFailed<T>> for OpenError {
    ghost use Rattle.std.specs.Prelude.{◌≡◌};
    ghost use Rattle.sqlrep.specs.declared.servers.OpenError.TheVariants.{Memory};

    ghost from_gives = { λ _ e. e ≡ Memory };

    fn from(_: AllocFailed<T>) -> OpenError {
        OpenError::Memory
    }
}

/// A server of this name, which is known to be one, that is kept in memory.
fn in_memory(alloc: Global, name: &str) -> Result<ServerWord, AllocError>
    ensures { IfOk result (λ word. word ≡ in_memory_lem name.now) }
{
    Ok(ServerWord {
        name: Name::new(alloc, name).map_err(|_| AllocError)?,
        path: Text::new(String::from_str(alloc, MAP_PATH)?),
    })
}

/// The servers that `copy` needs.
pub fn copy_servers(alloc: Global) -> Result<List<ServerWord>, AllocError>
    ensures { IfOk result (λ words. words ≡ needed_servers_lem Opening.Copy) }
{
    let mut words = List::new(alloc);
    words.push(in_memory(alloc, "src")?)?;
    words.push(in_memory(alloc, "dst")?)?;
    Ok(words)
}

/// The servers that a run needs, of which those that `copy` needs are given.
pub fn needed_servers<'a>(opening: &'a Opening, copy: &'a [ServerWord]) -> &'a [ServerWord]
    requires { copy.now ≡ needed_servers_lem Copy }
    ensures { result.now ≡ needed_servers_lem opening.now }
{
    match opening {
        Opening::Copy => copy,
        Opening::Servers { servers, .. } => servers.as_slice(),
    }
}

/// The names of these servers.
pub fn names_of_servers(alloc: Global, words: &[ServerWord]) -> Result<List<Name>, AllocError>
    ensures { IfOk result (λ names. names ≡ map (λ word. word.name) words.now) }
{
    let mut names = List::new(alloc);
    for word in words {
        names.push(word.name.clone()?)?;
    }
    Ok(names)
}

/// The keeper of a path.
fn open_keeper(rt: &HostRuntime, path: &str) -> Result<RunKeeper, KeepError>
    ensures opened { IfOk result (IsOpened path.now) }
    ensures in_memory { path.now ≡ map_path → IsOk result }
{
    if path == MAP_PATH {
        return Ok(AnyKeeper::Map(MapKeeper::new(rt.alloc())));
    }
    match SqliteKeeper::open(rt, path) {
        Ok(keeper) => Ok(AnyKeeper::Sqlite(keeper)),
        Err(error) => Err(error),
    }
}

/// Opens the server of a word. Its file may be made even if it can't be opened.
fn open_server(rt: &HostRuntime, word: &ServerWord) -> Result<Site<RunKeeper>, OpenError>
    ensures named { IfOk result (λ site. site.name ≡ word.now.name) }
    ensures opened { IfOk result (λ site. IsOpened word.now.path (site_keeper site)) }
    ensures refused { IfErr result (λ e. IsTrue (in_files (word.now ∷ []) e)) }
{
    let name = word.name.clone()?;
    match open_keeper(rt, word.path.as_str()) {
        Ok(keeper) => Ok(Site::open_site(name, keeper)),
        Err(KeepError::Memory) => Err(OpenError::Memory),
        Err(KeepError::Failed) => Err(OpenError::CannotOpen(name)),
    }
}

/// Opens the servers of these words, one after another, and adds them to an empty list. After an
/// error it has those before.
fn open_each(
    rt: &HostRuntime,
    words: &[ServerWord],
    list: &mut List<Site<RunKeeper>>,
) -> Result<(), OpenError>
    requires { list.old ≡ [] }
    ensures opened { OnOk result (AreOpened words.now list.new) }
    ensures refused { IfErr result (λ e. IsTrue (in_files words.now e)) }
{
    for word in words {
        list.push(open_server(rt, word)?)?;
    }
    Ok(())
}

/// Closes servers, one after another. What was committed in a file is then in that file alone; if
/// the log of a file can't be copied into it, it stays beside it, and nothing is lost.
pub fn close_servers(list: List<Site<RunKeeper>>) {
    for site in list.into_vec() {
        let _ = site.into_keeper().close();
    }
}

/// Opens the servers of these words. If one can't be opened, those before it are closed.
pub fn open_servers(rt: &HostRuntime, words: &[ServerWord]) -> Result<Sites<RunKeeper>, OpenError>
    requires { AreServers (map (λ word. word.name) words.now) }
    ensures opened { IfOk result (λ sites. AreOpened words.now (list_of sites)) }
    ensures refused { IfErr result (λ e. IsTrue (in_files words.now e)) }
{
    let mut list = List::new(rt.alloc());
    if let Err(error) = open_each(rt, words, &mut list) {
        close_servers(list);
        return Err(error);
    }
    match Sites::new(list) {
        Ok(sites) => Ok(sites),
        Err(_) => unreachable!(),
    }
}
