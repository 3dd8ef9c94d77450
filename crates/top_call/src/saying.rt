//! What the program says of itself.

ghost use Rattle.std.specs.Prelude.{◌≢◌};
ghost use Rattle.command_words.specs.Help.{help_of};
ghost use Rattle.top_call.specs.Run.{SayEnds};

use crate::statuses::Status;
use command_words::Topic;
use ice_base::{Sink, write_whole};
use std::alloc::Global;

/// Writes a text. It takes no memory.
pub fn say<K: Sink>(out: &mut K, text: &str) -> Status
    ensures ends { SayEnds text.now (K.at out.old) (K.at out.new) result }
    ensures memory { result ≢ Status.NoMemory }
{
    match write_whole(out, text.as_bytes()) {
        Ok(()) => Status::Ok,
        Err(_) => Status::WriteFault,
    }
}

/// Writes help.
pub fn say_help<K: Sink>(alloc: Global, topic: Topic, out: &mut K) -> Status
    ensures { SayEnds (help_of topic) (K.at out.old) (K.at out.new) result }
{
    match format!(in alloc; "{topic}") {
        Ok(text) => say(out, text.as_str()),
        Err(_) => Status::NoMemory,
    }
}
