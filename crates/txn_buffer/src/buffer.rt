//! The buffer, and how it changes.

ghost use Rattle.std.specs.Prelude.{◌≡◌, ◌≢◌, ◌++◌, ◌∷◌, [], ℕ, None, IfSome, OnOk, OnErr};
ghost use Rattle.txn_buffer.specs.Buffer.{changes_in, changes_of, first_position, IsLeastFirst};

use repl_types::{List, Placed};
use std::alloc::{AllocError, Global};
use std::collections::BTreeMap;

/// The changes of each transaction in flight, in the order in which they were pushed.
#[derive(Debug, Drop)]
pub struct Buffer {
    map: BTreeMap<u32, List<Placed>>,
}

impl Buffer {
    /// A buffer in which no transaction has a change. It takes no memory.
    #[tactic(auto, unfolding(crate::specs::Buffer::changes_in))]
    pub fn new(alloc: Global) -> Buffer
        ensures { (tx : ℕ) → changes_in result tx ≡ [] }
    {
        Buffer {
            map: BTreeMap::new(alloc),
        }
    }

    /// Adds a change at the end of those of a transaction. If memory runs out, each transaction has
    /// the changes that it had.
    #[tactic(auto, unfolding(crate::specs::Buffer::changes_in))]
    pub fn push(&mut self, alloc: Global, tx: u32, placed: Placed) -> Result<(), AllocError>
        ensures ok { OnOk result (changes_in self.new tx
            ≡ changes_in self.old tx ++ placed ∷ []) }
        ensures others { (q : ℕ) → q ≢ tx → changes_in self.new q ≡ changes_in self.old q }
        ensures err { OnErr result (changes_in self.new tx ≡ changes_in self.old tx) }
    {
        push_change(&mut self.map, alloc, tx, placed)
    }

    /// Takes the changes of a transaction out, in the order in which they were pushed.
    #[tactic(auto, unfolding(crate::specs::Buffer::changes_in))]
    pub fn take(&mut self, alloc: Global, tx: u32) -> List<Placed>
        ensures ok { result ≡ changes_in self.old tx }
        ensures none { changes_in self.new tx ≡ [] }
        ensures others { (q : ℕ) → q ≢ tx → changes_in self.new q ≡ changes_in self.old q }
    {
        self.map.remove(&tx).unwrap_or(List::new(alloc))
    }

    /// Drops the changes of a transaction.
    #[tactic(auto, unfolding(crate::specs::Buffer::changes_in))]
    pub fn drop_tx(&mut self, tx: u32)
        ensures none { changes_in self.new tx ≡ [] }
        ensures others { (q : ℕ) → q ≢ tx → changes_in self.new q ≡ changes_in self.old q }
    {
        let _ = self.map.remove(&tx);
    }

    /// The least position among the first changes of all transactions, if there is a change.
    pub fn first(&self) -> Option<u64>
        ensures none { result ≡ None → (tx : ℕ) → changes_in self.now tx ≡ [] }
        ensures least { IfSome result (IsLeastFirst self.now) }
    {
        self.map
            .iter()
            .filter_map(|(_, changes)| position_of_first(changes))
            .min()
    }
}

/// The position of the first change, if there is a change.
fn position_of_first(changes: &List<Placed>) -> Option<u64>
    ensures { result ≡ first_position changes.now }
{
    Some(changes.as_slice().first()?.pos)
}

/// Adds a change at the end of those of a transaction, whose list it makes if there is none.
fn push_change(
    map: &mut BTreeMap<u32, List<Placed>>,
    alloc: Global,
    tx: u32,
    placed: Placed,
) -> Result<(), AllocError>
    ensures ok { OnOk result (changes_of map.new tx ≡ changes_of map.old tx ++ placed ∷ []) }
    ensures others { (q : ℕ) → q ≢ tx → changes_of map.new q ≡ changes_of map.old q }
    ensures err { OnErr result (changes_of map.new tx ≡ changes_of map.old tx) }
{
    let changes = map.entry(tx)?.or_insert(List::new(alloc));
    changes.push(placed)?;
    Ok(())
}
