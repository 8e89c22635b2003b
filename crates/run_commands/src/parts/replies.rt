//! The lines that a run of a script writes.

ghost use Rattle.std.specs.Prelude.{Some, true};
ghost use Rattle.repl_types.specs.declared.refusal.Refusal.TheVariants as refusals;
ghost use Rattle.reply_text.specs.Replies.{reply_line};
ghost use Rattle.run_commands.specs.parts.Parts.{WritesLine, WritesRefusal};

use crate::parts::run_error::RunError;
use keep_core::{Sink, write_line};
use repl_types::{Refusal, SetId};
use reply_text::{Reply, write_refusal, write_reply};
use set_places::unknown_set;
use std::alloc::Global;

/// Writes the line of a refusal, and says that something was refused. After an error a prefix of
/// the line was taken.
pub fn refuse<O: Sink>(alloc: Global, output: &mut O, refusal: &Refusal) -> Result<bool, RunError>
    ensures { WritesRefusal O.taken O.faults output.old output.new refusal.now true result }
{
    let mut line = Vec::new(alloc);
    write_refusal(refusal, &mut line)?;
    write_line(output, &line)?;
    Ok(true)
}

/// Writes the line that refuses the name of no set, and says that something was refused. After an
/// error a prefix of the line was taken.
pub fn refuse_set<O: Sink>(alloc: Global, output: &mut O, id: &SetId) -> Result<bool, RunError>
    ensures { WritesRefusal O.taken O.faults output.old output.new (refusals.NoSuchSet id.now.qual
        (Some id.now.name)) true result }
{
    let refusal = unknown_set(id)?;
    refuse(alloc, output, &refusal)
}

/// Writes the line of a reply. After an error a prefix of the line was taken.
pub fn reply<O: Sink>(alloc: Global, output: &mut O, reply: &Reply) -> Result<(), RunError>
    ensures { WritesLine O.taken O.faults output.old output.new (reply_line reply.now) tt result }
{
    let mut line = Vec::new(alloc);
    write_reply(reply, &mut line)?;
    write_line(output, &line)?;
    Ok(())
}
