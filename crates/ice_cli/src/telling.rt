//! What standard error says of wrong words, behind the line of the status. What it doesn't take is lost.

ghost use Rattle.std.specs.Prelude.{◌≡◌};
ghost use Rattle.std.specs.Process.{exit_status};
ghost use Rattle.top_call.specs.Statuses.{number_of};

use command_words::{Word, complaint_of};
use std::process::ExitCode;
use top_call::{Status, end};

/// Says which word is wrong, and where help is. Where there is no memory to find out, nothing is said.
fn tell_words<R: Eprint + AllocGlobal>(rt: &R, words: &[Word]) {
    if let Ok(Some(complaint)) = complaint_of(rt.alloc(), words) {
        let _ = eprint!(rt; "{complaint}");
    }
}

/// Says how the program ended, and where its words were wrong, which, and gives the exit code.
pub fn end_with_words<R: Eprint + AllocGlobal>(rt: &R, words: &[Word], status: &Status) -> ExitCode
    ensures { exit_status result ≡ number_of status.now }
{
    let code = end(rt, status);
    if matches!(status, Status::Usage(_)) {
        tell_words(rt, words);
    }
    code
}

/// Says how the program ended whose words the system didn't give, and gives the exit code.
pub fn end_without_words<R: Eprint>(rt: &R, status: &Status) -> ExitCode
    ensures { exit_status result ≡ number_of status.now }
{
    let code = end(rt, status);
    if matches!(status, Status::Usage(_)) {
        let _ = eprintln!(rt;
            "error: the words aren't UTF-8 text\n\nFor more information, try 'icerepo --help'."
        );
    }
    code
}
