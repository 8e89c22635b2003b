//! All servers, each at its number.

ghost use Rattle.std.specs.Prelude.{◌≡◌, ◌<◌, ◌≤◌, ℕ, ◌^◌, ◌↔◌, IsTrue, [], slice_index_or, length};
ghost use Rattle.std.specs.Prelude.{IfOk, IfErr, MatchOption, take};
ghost use Rattle.repl_types.specs.declared.area.Area.{Area};
ghost use Rattle.site_store.specs.Servers.{names_of, held_of, work_of, faults_of, reads_of};
ghost use Rattle.site_store.specs.Servers.{writes_of, AllClosed, AreApart, AreServers, IsPlace};
ghost use Rattle.site_store.specs.Servers.{HasNone};

use crate::buffers::Buffers;
use crate::site::Site;
use keep_core::Keeper;
use repl_types::{List, Name};
use thiserror::Error;

mod calls;
mod needed;
mod spill;

/// The most servers.
const SITE_LIMIT: usize = 16;

/// Why a list of servers is none.
#[derive(Clone, Copy, Debug, PartialEq, Eq, Error)]
pub enum SitesError {
    #[error("out of memory")]
    Memory,
    #[error("no servers, more than 16, or two of one name")]
    BadSites,
}

/// All servers: 1 to 16, no two of one name. A call names a server by its place, counted from 0.
#[derive(Drop)]
pub struct Sites<K> {
    list: Vec<Site<K>>,
    buffers: Buffers,
    pub ghost servers: { AreServers (names_of list.items) },
}

/// The place of the name.
fn place_of<K>(list: &[Site<K>], name: &Name) -> Option<u32>
    requires { length list.now < 2 ^ 32 }
    ensures { MatchOption result (HasNone (names_of list.now) name.now)
        (IsPlace (names_of list.now) name.now) }
{
    for (place, site) in list.iter().enumerate() {
        if site.name == *name {
            return Some(place as u32);
        }
    }
    None
}

/// Whether no two servers have one name.
fn are_apart<K>(list: &[Site<K>]) -> bool
    requires { length list.now < 2 ^ 32 }
    ensures { IsTrue result ↔ AreApart (names_of list.now) }
{
    for (place, site) in list.iter().enumerate() {
        if place_of(&list[..place], &site.name).is_some() {
            return false;
        }
    }
    true
}

/// Closes each server's transaction.
fn close_each<K: Keeper>(list: &mut [Site<K>])
    ensures names { names_of list.new ≡ names_of list.old }
    ensures held { held_of K.kept list.new ≡ held_of K.kept list.old }
    ensures faults { (s : ℕ) → slice_index_or (faults_of K.kept list.old) s 0 ≤ slice_index_or
        (faults_of K.kept list.new) s 0 }
    ensures reads { (a : Area) → reads_of K.kept a list.new ≡ reads_of K.kept a list.old }
    ensures writes { (a : Area) → writes_of K.kept a list.new ≡ writes_of K.kept a list.old }
    ensures closed { AllClosed (work_of K.kept list.new) }
{
    for site in list.iter_mut() {
        site.keeper.rollback();
    }
}

impl<K: Keeper> Sites<K> {
    ghost use Rattle.site_store.specs.Views.{list_of, names};
    ghost use Rattle.site_store.specs.Calls.{ClosesOne, ClosesAll, no_access};

    /// All servers of the list. `BadSites` is returned if and only if there are none, more than 16,
    /// or two of one name. It takes no memory.
    pub fn new(list: List<Site<K>>) -> Result<Sites<K>, SitesError>
    where
        K: Drop,
        ensures ok { IfOk result (λ sites. list_of sites ≡ list) }
        ensures bad { IfErr result (λ e. (e ≡ SitesError.BadSites)
            × ¬ (AreServers (names_of list))) }
    {
        let list = list.into_vec();
        if list.is_empty() || list.len() > SITE_LIMIT || !are_apart(&list) {
            return Err(SitesError::BadSites);
        }
        let buffers = Buffers::new(*list.allocator());
        Ok(Sites { list, buffers })
    }

    /// How many servers there are.
    pub fn len(&self) -> u32
        ensures count { result ≡ length (names self.now) }
        ensures servers { AreServers (names self.now) }
    {
        self.list.len() as u32
    }

    /// The name of a server.
    pub fn name(&self, server: u32) -> &Name
        requires { server < length (names self.now) }
        ensures { result.now ≡ slice_index_or (names self.now) server [] }
    {
        &self.list[server as usize].name
    }

    /// The server of that name, if there is one.
    pub fn find(&self, name: &Name) -> Option<u32>
        ensures { MatchOption result (HasNone (names self.now) name.now)
            (IsPlace (names self.now) name.now) }
    {
        place_of(&self.list, name)
    }

    /// The servers. It takes no memory.
    pub fn into_list(self) -> List<Site<K>>
        ensures { result ≡ list_of self }
    {
        let Sites { list, buffers: _ } = self;
        List::from_vec(list)
    }

    /// No transaction is open at any server, and what is held stays.
    pub fn rollback_all(&mut self)
        ensures { ClosesAll K.kept self.old self.new no_access }
    {
        close_each(&mut self.list);
    }

    /// No transaction is open at the server, and what is held stays.
    pub fn rollback(&mut self, server: u32)
        requires { server < length (names self.old) }
        ensures { ClosesOne K.kept self.old self.new server }
    {
        let site = &mut self.list[server as usize];
        site.keeper.rollback();
    }
}
