//! Mirrors of directories.

ghost use Rattle.std.specs.Prelude.{◌≡◌, ◌⊎◌, IfErr};
ghost use Rattle.run_mirror.specs.Ending.{mirror_number};
ghost use Rattle.top_call.specs.Statuses.{number_of};
ghost use Rattle.ice_cli.specs.Ending.{EndsByMirror, EndsUnopened};

use crate::directory::{Directory, end_without_store, tell_fault, tell_loss};
use crate::system_store::SystemStore;
use dir_store::{OpenFault, Opened, open};
use ice_base::StdSink;
use moments::WallClock;
use run_mirror::{MirrorStatus, run_mirror};
use std::process::ExitCode;
use top_call::{Status, end};

/// The status of the program where a mirror ended so.
fn status_of(ended: MirrorStatus) -> Status
    ensures { number_of result ≡ mirror_number ended }
{
    match ended {
        MirrorStatus::Done => Status::Ok,
        MirrorStatus::Refused => Status::Refused,
        MirrorStatus::WriteFault => Status::WriteFault,
        MirrorStatus::StoreFault => Status::StoreFault,
        MirrorStatus::NoMemory => Status::NoMemory,
    }
}

/// Copies the repository in one opened directory into another one.
fn over_both<R: Print + Eprint + AllocGlobal + Copy + Drop>(
    rt: &R,
    source: Directory,
    target: Directory,
) -> ExitCode
    ensures { EndsByMirror result }
{
    let Opened {
        claim: _source_claim,
        store: from,
        seed: _,
        main_is_lost,
    } = source;
    let Opened {
        claim: _target_claim,
        store: to,
        seed: _,
        main_is_lost: _,
    } = target;
    tell_loss(rt, main_is_lost);
    let mut output = StdSink::new(*rt);
    let ended = run_mirror(
        rt.alloc(),
        SystemStore::new(from),
        SystemStore::new(to),
        &mut output,
    );
    tell_fault(rt, &ended.from);
    tell_fault(rt, &ended.to);
    end(rt, &status_of(ended.status))
}

/// The directory of the system at this path, or the exit code where it can't be opened.
fn opened<R: Eprint>(rt: &R, system: HostRuntime, path: &str) -> Result<Directory, ExitCode>
    ensures { IfErr result EndsUnopened }
{
    match open(system, path, WallClock::new(system)) {
        Ok(opened) => Ok(opened),
        Err(OpenFault::NoMemory) => Err(end(rt, &Status::NoMemory)),
        Err(fault) => Err(end_without_store(rt, path, fault)),
    }
}

/// Copies the repository in the directory of the system at the first path into the one at the second. Both are claimed, so that one
/// directory can't be both.
pub fn between<R: Print + Eprint + AllocGlobal + Copy + Drop>(
    rt: &R,
    system: HostRuntime,
    from: &str,
    to: &str,
) -> ExitCode
    ensures { EndsUnopened result ⊎ EndsByMirror result }
{
    let source = match opened(rt, system, from) {
        Ok(source) => source,
        Err(code) => return code,
    };
    match opened(rt, system, to) {
        Ok(target) => over_both(rt, source, target),
        Err(code) => code,
    }
}
