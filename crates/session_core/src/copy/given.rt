//! What `copy` is given: its definitions, and the names in them.

ghost use Rattle.std.specs.Prelude.{◌≡◌, codes, Some, IfOk, IsTrue};
ghost use Rattle.repl_types.specs.Name.{is_name};
ghost use Rattle.session_core.specs.copy.CopyEvents.{copy_text as copy_text_lem};
ghost use Rattle.session_core.specs.copy.CopyEvents.{copy_set as copy_set_lem};

use repl_types::{List, Name, SetId};
use std::alloc::{AllocError, Global};

/// The definitions of the copy.
const COPY_TEXT: &[u8] = b"[[table]]
server = \"src\"
name = \"items\"
columns = [\"id int\", \"name text null\"]
key = [\"id\"]
fixed = [\"id\"]
[[registration]]
server = \"src\"
table = \"items\"
[[set]]
qual = \"copy\"
name = \"copy\"
source = \"src\"
target = \"dst\"
[[set.member]]
source = \"items\"
target = \"items_copy\"
type = \"user_copy\"
columns = [\"id = id\", \"name = name\"]
";

/// The text of the definitions, as that of a load that has no more bytes than it may have.
pub fn copy_text(alloc: Global) -> Result<Option<List<u8>>, AllocError>
    ensures { IfOk result (λ text. text ≡ Some copy_text_lem) }
{
    let bytes = Vec::from_slice(alloc, COPY_TEXT)?;
    Ok(Some(List::from_vec(bytes)))
}

/// A name.
fn name(alloc: Global, text: &str) -> Result<Name, AllocError>
    requires { IsTrue (is_name text.now) }
    ensures { IfOk result (λ name. name ≡ text.now) }
{
    Ok(Name::read(alloc, text.as_bytes())?.unwrap())
}

/// The name of the set.
pub fn copy_set(alloc: Global) -> Result<SetId, AllocError>
    ensures { IfOk result (λ id. id ≡ copy_set_lem) }
{
    Ok(SetId {
        qual: name(alloc, "copy")?,
        name: name(alloc, "copy")?,
    })
}

/// The name of the server of the table.
pub fn source_name(alloc: Global) -> Result<Name, AllocError>
    ensures { IfOk result (λ name. name ≡ codes "src") }
{
    name(alloc, "src")
}

/// The name of the server of the copy.
pub fn target_name(alloc: Global) -> Result<Name, AllocError>
    ensures { IfOk result (λ name. name ≡ codes "dst") }
{
    name(alloc, "dst")
}

/// The name of the copy.
pub fn copy_name(alloc: Global) -> Result<Name, AllocError>
    ensures { IfOk result (λ name. name ≡ codes "items_copy") }
{
    name(alloc, "items_copy")
}
