//! Lists of commands for a `dyn StringExt`.
ghost use Rattle.std.specs.Prelude.{◌≡◌, ◌+◌, ◌≤◌, length};
ghost use Rattle.inlinable_string.specs.Text.{size};
ghost use Rattle.inlinable_string.specs.State.{IsLawful};
ghost use Rattle.inlinable_string.specs.Edit.{text_after};
ghost use Rattle.inlinable_string.specs.Run.{LegalReplies, storage_after, credit_after};
ghost use Rattle.inlinable_string.specs.Step.{IsStep};

use super::{Command, Reply, execute_body, insert_str_body, push_str_body, run_body, step_body};
use crate::inline_string::ReplaceError;
use crate::string_ext::StringExt;

/// Executes each command in turn, and writes the reply to each, as [`super::run`] does.
pub fn run_dyn(text: &mut dyn StringExt, commands: &[Command], replies: &mut [Reply])
    requires { length replies.old ≡ length commands.now }

    // The text is that of one list of characters, stored where the placement table says.
    ensures text { (state text.new).text
        ≡ text_after (state text.old).text commands.now replies.new }
    ensures storage { (state text.new).storage
        ≡ storage_after (state text.old) commands.now replies.new }

    // Each reply is that of `edit`, or `NoMemory`, to a command that may allocate.
    ensures replies { LegalReplies (state text.old) commands.now replies.new }

    // A next run starts with no less credit than this one ended with.
    ensures credit { size (state text.new).text
        + credit_after (state text.old) commands.now replies.new
        ≤ (state text.new).capacity }
    ensures policy { (state text.new).policy ≡ (state text.old).policy }
{
    run_body!(text, commands, replies, step_dyn)
}

/// Executes one command.
fn step_dyn(text: &mut dyn StringExt, command: Command) -> Reply
    ensures { IsStep (state text.old) command.entry result (state text.new) }
{
    step_body!(text, command, execute_dyn)
}

/// Executes one command. The caller shows that the new state is lawful.
#[tactic(auto, using(crate::proofs::Steps::outcomes))]
fn execute_dyn(text: &mut dyn StringExt, command: Command) -> Reply
    ensures { IsLawful (state text.new)
        → IsStep (state text.old) command.entry result (state text.new) }
{
    execute_body!(text, command, push_str_dyn, insert_str_dyn)
}

#[tactic(auto, using(crate::proofs::Steps::push_str_done))]
fn push_str_dyn(text: &mut dyn StringExt, string: &str) -> Reply
    ensures { IsLawful (state text.new)
        → IsStep (state text.old) (Command.PushStr string.entry) result (state text.new) }
{
    push_str_body!(text, string)
}

#[tactic(auto, using(crate::proofs::Steps::insert_str_done))]
fn insert_str_dyn(text: &mut dyn StringExt, idx: usize, string: &str) -> Reply
    ensures { IsLawful (state text.new)
        → IsStep (state text.old) (Command.InsertStr idx string.entry) result (state text.new) }
{
    insert_str_body!(text, idx, string)
}
