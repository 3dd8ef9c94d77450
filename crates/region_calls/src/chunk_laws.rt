//! Laws of the calls on chunks, as the contracts of functions that do nothing.

ghost use Rattle.region_calls.specs.ChunkLaws.{SetLaw, GetLaw, OwningCallsLaw, TellsLaw};

use commit_path::session_law;

/// Whatever others do, a set puts one object at most, politely and under an id that the session draws, its client
/// has changed no branch, and its answer tells the journal. The session that it leads to can be written, and
/// knows that the chunk's bytes are there.
pub fn set_law()
    ensures { SetLaw }
{
    session_law();
}

/// Whatever others do, a read only reads, its client has changed no branch, and its answer tells the journal: the
/// chunk of the session's base under its own changes, or why there is none.
pub fn get_law()
    ensures { GetLaw }
{
    session_law();
}

/// Whatever others do, the object of a set is put where its client put none before, if its source draws no id twice; and what the
/// client owns with a session it owns behind sets, its object among it, and behind reads.
pub fn owning_calls_law()
    ensures { OwningCallsLaw }
{}

/// What answers of sets and reads tell stays so, whatever good events others make.
pub fn tells_law()
    ensures { TellsLaw }
{}
