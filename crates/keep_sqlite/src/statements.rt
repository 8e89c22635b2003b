//! The texts of the eight statements. The connection keeps the plan of each, by its text.

/// Makes the table, unless there is one of its name.
pub const CREATE: &str = "CREATE TABLE IF NOT EXISTS kv (a INTEGER NOT NULL, t INTEGER NOT NULL, \
    k BLOB NOT NULL, v BLOB NOT NULL, PRIMARY KEY (a, t, k))";

pub const BEGIN: &str = "BEGIN";

pub const COMMIT: &str = "COMMIT";

pub const ROLLBACK: &str = "ROLLBACK";

/// The value at a key.
pub const GET: &str = "SELECT v FROM kv WHERE a = ?1 AND t = ?2 AND k = ?3";

/// The first key above another, with its value.
pub const NEXT: &str = "SELECT k, v FROM kv WHERE a = ?1 AND t = ?2 AND k > ?3 ORDER BY k LIMIT 1";

/// Sets the value at a key. The text names the key, so a table without it is refused.
pub const UPSERT: &str = "INSERT INTO kv (a, t, k, v) VALUES (?1, ?2, ?3, ?4) \
    ON CONFLICT (a, t, k) DO UPDATE SET v = excluded.v";

/// Removes the value at a key.
pub const DELETE: &str = "DELETE FROM kv WHERE a = ?1 AND t = ?2 AND k = ?3";
