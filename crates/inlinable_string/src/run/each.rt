//! Lists of commands for many texts.
ghost use Rattle.std.specs.Prelude.{◌≡◌, ◌*◌, length, map, vec_len};
ghost use Rattle.inlinable_string.specs.Run.{IsRun, EachRun};

use super::{Command, Reply, run_dyn};
use crate::string_ext::StringExt;

/// Executes the commands on each text, as [`super::run`] does, and writes its replies after those
/// of the text before it: the reply to command `j` of text `i` is at `i * commands.len() + j`.
///
/// `replies` must have `texts.len() * commands.len()` elements. `run_each` itself never allocates.
pub fn run_each(
    texts: &mut Vec<Box<dyn StringExt + Drop>>,
    commands: &[Command],
    replies: &mut [Reply],
)
    requires { length replies.old ≡ length texts.old.items * length commands.now }
    ensures count { vec_len texts.new ≡ vec_len texts.old }
    ensures runs { EachRun (map state texts.old.items) commands.now replies.new
        (map state texts.new.items) }
{
    let count = commands.len();
    let mut start = 0;
    for text in texts.iter_mut() {
        let end = start + count;
        run_boxed(text, commands, &mut replies[start..end]);
        start = end;
    }
}

fn run_boxed(text: &mut Box<dyn StringExt + Drop>, commands: &[Command], replies: &mut [Reply])
    requires { length replies.old ≡ length commands.now }
    ensures { IsRun (state text.old) commands.now replies.new (state text.new) }
{
    run_dyn(&mut **text, commands, replies);
}
