//! User copies: the rows of a member's target are loaded, and take change rows.
//!
//! `load_rows` makes a target the copy of its source at the source's last commit, whatever rows it
//! had: it removes them, reads the committed rows of the source, and puts the target columns of
//! each row for which the member's predicate is true, under the row's key. `specs/Loading.antt`
//! says what it makes of contents, and `specs/Rules.antt` what shows that a server is damaged.
//!
//! `apply_rows` takes a target from the copy at one point to the copy at a later one, by the
//! stored change rows between them alone. It reads these one after another. An insert or an update
//! puts what the member selects of the row that the after-images show, and an update or a delete
//! removes the row from before. `specs/Taking.antt` says what it makes of contents, if the
//! interval is captured whole, and `specs/ChangeRules.antt` what shows that a server is damaged.
//! That the target is then the later copy is a law of `stored_commits`.
//!
//! `show_copy` writes the rows of a target, one after another, by `show_records` of `shows`.
//! `specs/Showing.antt` says which lines these are, and what shows that they are damaged.
//!
//! The first two work inside the transaction that the caller has open at the target. Lemmas in
//! `specs/laws` say that no source of a sound world shows damage, and no target that has the rows
//! of a copy. `take_copy` takes a member that is a user copy through a refresh by `load_rows`, and
//! through a block by `apply_rows`, as `target_steps` wants it of each kind of target. It stands on
//! `set_places`, which finds a set and its registrations, on `row_expr`, which evaluates columns
//! and predicates, and on `cd_tables`, whose change rows it reads.
//!
//! For example, a member copies `id` and `qty` of the rows of `orders` whose `qty` is at least 10.
//! Of the rows `(1, 'pen', 20)` and `(2, 'ink', 5)` of the source, its target gets the row `(1,
//! 20)` under the key `(1)`, and no other. The change row of an update from `(1, 'pen', 20)` to
//! `(1, 'pen', 5)` then removes it.
#![tactic(auto)]

mod changing;
mod clearing;
mod images;
mod kinds;
mod loading;
mod rows;
mod showing;
mod source;
mod taking;
mod targets;

pub use kinds::is_copy_at;
pub use loading::load_rows;
pub use showing::show_copy;
pub use taking::apply_rows;
pub use targets::take_copy;
