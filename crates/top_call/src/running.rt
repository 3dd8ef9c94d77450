//! The top call.

ghost use Rattle.std.specs.Prelude.{◌≡◌, ◌≢◌, ◌≤◌, ◌⊎◌, true, map, Ok, Err, IfOk, IsTrue, MatchResult};
ghost use Rattle.drafts.specs.Drafts.{IsBlank};
ghost use Rattle.ice_base.specs.Ends.{InputAt, Rose, TakesAtMost};
ghost use Rattle.store_api.specs.Journal.{IsGoodJournal};
ghost use Rattle.play_script.specs.Well.{IsWell};
ghost use Rattle.top_call.specs.Promise.{KeepsOwn, KeepsSound, SparesOwn, SparesSound};
ghost use Rattle.top_call.specs.Exact.{Exact};
ghost use Rattle.top_call.specs.GoesOn.{GoesOn};
ghost use Rattle.top_call.specs.Run.{most_input, HasScript, HasNone, TellsRefused, IsCalm, IsFaultless};
ghost use Rattle.command_words.specs.Words.{asks_clap, command_of, IsInRange};
ghost use Rattle.command_words.specs.declared.reading.Topic.TheVariants as Topic;
ghost use Rattle.command_words.specs.declared.reading.UsageFault.{UsageFault};
ghost use Rattle.top_call.specs.Check.{Checks, StaysSound};
ghost use Rattle.top_call.specs.inside.Playing.{PlayEnds, Ends, IsReported};

use crate::ending::Ended;
use crate::saying::{say, say_help};
use crate::statuses::Status;
use crate::telling::{finish, finish_check, finish_grown, names_of};
use cells_script::cells_script;
use command_words::{BoxWords, Command, Word, read_words, version};
use drafts::Draft;
use grow_script::grown_script;
use ice_base::{Sink, Source, read_input};
use ice_ids::Draw;
use lone_check::check_store;
use play_at_once::Gate;
use play_course::{play, promise_law};
use play_script::Script;
use run_histories::{nothing_law, run_law};
use std::alloc::{AllocError, Global};
use std::convert::AsStr;
use std::sync::Wait;
use std::thread::Threads;
use store_api::Counting;

/// The longest input that is read: one byte more than a script may have.
const MOST_INPUT: usize = 1_048_577;

/// What is taken before a script is played: a draft of its report, and the names of its tasks.
fn prepare<'a>(alloc: Global, script: &'a Script) -> Result<(Draft, Vec<&'a [u8]>), AllocError>
    ensures { IfOk result (λ made. IsBlank made.0
        × (map (λ n. n.now) made.1.items ≡ map (λ t. t.name) script.now.tasks)) }
{
    let draft = Draft::new(alloc)?;
    let names = names_of(alloc, script.tasks.as_slice())?;
    Ok((draft, names))
}

/// Plays a script and writes the report. What that takes is taken first.
fn play_and_report<R: Threads + Wait + Sync, S: Counting + Send, K: Sink, G: Gate + Sync>(
    rt: &R,
    alloc: Global,
    script: &Script,
    draw: Draw,
    store: S,
    gate: &G,
    out: &mut K,
) -> Ended<S>
    requires well { IsWell script.now }
    requires good { S.tells ≡ true → IsGoodJournal (S.view store).seen }
    ensures { (command : Command) (a : InputAt) (b : InputAt) → IsReported command
        → HasScript command a b script.now → PlayEnds command draw a b (S.view store)
        (S.view result.store) (K.at out.old) (K.at out.new) result.status }
{
    promise_law();
    let (draft, names) = match prepare(alloc, script) {
        Ok(made) => made,
        Err(_) => {
            return Ended {
                status: Status::NoMemory,
                store,
            };
        }
    };
    let (store, played) = play(rt, alloc, script, draw, store, gate);
    match played {
        Ok(played) => {
            let status = finish(draft, &names, &played, out);
            Ended { status, store }
        }
        Err(_) => Ended {
            status: Status::NoMemory,
            store,
        },
    }
}

/// Plays the script of `grow` and writes its line. What that takes is taken first.
fn play_and_count<R: Threads + Wait + Sync, S: Counting + Send, K: Sink, G: Gate + Sync>(
    rt: &R,
    alloc: Global,
    tasks: u8,
    script: &Script,
    draw: Draw,
    store: S,
    gate: &G,
    out: &mut K,
) -> Ended<S>
    requires well { IsWell script.now }
    requires good { S.tells ≡ true → IsGoodJournal (S.view store).seen }
    ensures { (a : InputAt) (b : InputAt) → HasScript (Command.Grow tasks) a b script.now
        → PlayEnds (Command.Grow tasks) draw a b (S.view store) (S.view result.store) (K.at out.old)
        (K.at out.new) result.status }
{
    promise_law();
    let draft = match Draft::new(alloc) {
        Ok(draft) => draft,
        Err(_) => {
            return Ended {
                status: Status::NoMemory,
                store,
            };
        }
    };
    let before = store.operations();
    let (store, played) = play(rt, alloc, script, draw, store, gate);
    match played {
        Ok(played) => {
            let events = store.operations().saturating_sub(before);
            let status = finish_grown(draft, tasks, events, &played, out);
            Ended { status, store }
        }
        Err(_) => Ended {
            status: Status::NoMemory,
            store,
        },
    }
}

/// Reads the script of the input.
fn read_script<I: Source>(alloc: Global, input: &mut I) -> Result<Script, Status>
    ensures reads { MatchResult result (HasScript Command.Play (I.at input.old) (I.at input.new))
        (HasNone Command.Play (I.at input.old) (I.at input.new)) }
    ensures well { IfOk result IsWell }
    ensures bound { TakesAtMost most_input (I.at input.old) (I.at input.new) }
{
    let text = read_input(alloc, input, MOST_INPUT)?;
    Ok(Script::read(alloc, text.as_slice())?)
}

/// Makes the script of `cells` and reads it.
fn make_cells(alloc: Global, words: &BoxWords) -> Result<Script, Status>
    ensures reads { (at : InputAt) → MatchResult result (HasScript (Command.Cells words.now) at at)
        (HasNone (Command.Cells words.now) at at) }
    ensures well { IfOk result IsWell }
{
    let text = cells_script(
        alloc,
        words.branch.as_str(),
        words.path.as_str(),
        words.from.as_str(),
        words.to.as_str(),
    )?;
    Ok(Script::read(alloc, text.as_bytes())?)
}

/// Makes the script of `grow` and reads it.
fn make_script(alloc: Global, tasks: u8) -> Result<Script, Status>
    requires { 1 ≤ tasks }
    ensures reads { (at : InputAt) → MatchResult result (HasScript (Command.Grow tasks) at at)
        (HasNone (Command.Grow tasks) at at) }
    ensures well { IfOk result IsWell }
{
    let text = grown_script(alloc, tasks)?;
    Ok(Script::read(alloc, text.as_bytes())?)
}

/// Reads the script of the input, plays it and writes the report.
fn run_input<R: Threads + Wait + Sync, I: Source, S: Counting + Send, K: Sink, G: Gate + Sync>(
    rt: &R,
    alloc: Global,
    draw: Draw,
    input: &mut I,
    store: S,
    gate: &G,
    out: &mut K,
) -> Ended<S>
    requires good { S.tells ≡ true → IsGoodJournal (S.view store).seen }
    ensures ends { PlayEnds Command.Play draw (I.at input.old) (I.at input.new) (S.view store)
        (S.view result.store) (K.at out.old) (K.at out.new) result.status }
    ensures bound { TakesAtMost most_input (I.at input.old) (I.at input.new) }
{
    match read_script(alloc, input) {
        Ok(script) => play_and_report(rt, alloc, &script, draw, store, gate, out),
        Err(status) => Ended { status, store },
    }
}

/// Makes the script of `cells`, plays it and writes the report.
fn run_cells<R: Threads + Wait + Sync, S: Counting + Send, K: Sink, G: Gate + Sync>(
    rt: &R,
    alloc: Global,
    words: &BoxWords,
    draw: Draw,
    store: S,
    gate: &G,
    out: &mut K,
) -> Ended<S>
    requires good { S.tells ≡ true → IsGoodJournal (S.view store).seen }
    ensures { (at : InputAt) → PlayEnds (Command.Cells words.now) draw at at (S.view store)
        (S.view result.store) (K.at out.old) (K.at out.new) result.status }
{
    match make_cells(alloc, words) {
        Ok(made) => play_and_report(rt, alloc, &made, draw, store, gate, out),
        Err(status) => Ended { status, store },
    }
}

/// Makes the script of `grow`, plays it and writes its line.
fn run_grown<R: Threads + Wait + Sync, S: Counting + Send, K: Sink, G: Gate + Sync>(
    rt: &R,
    alloc: Global,
    tasks: u8,
    draw: Draw,
    store: S,
    gate: &G,
    out: &mut K,
) -> Ended<S>
    requires range { 1 ≤ tasks }
    requires good { S.tells ≡ true → IsGoodJournal (S.view store).seen }
    ensures { (at : InputAt) → PlayEnds (Command.Grow tasks) draw at at (S.view store)
        (S.view result.store) (K.at out.old) (K.at out.new) result.status }
{
    match make_script(alloc, tasks) {
        Ok(script) => play_and_count(rt, alloc, tasks, &script, draw, store, gate, out),
        Err(status) => Ended { status, store },
    }
}

/// Checks the store, and writes what came of it. What that takes is taken first.
fn run_check<R: Threads + Wait + Sync, S: Counting + Send, K: Sink, G: Gate + Sync>(
    rt: &R,
    alloc: Global,
    store: S,
    gate: &G,
    out: &mut K,
) -> Ended<S>
    ensures checks { Checks (S.view store) (S.view result.store) (K.at out.old) (K.at out.new)
        result.status }
    ensures sound { (draw : Draw) → IsTrue (S.view store).caller.tells
        → StaysSound draw (S.view store).seen (S.view result.store).seen }
{
    run_law();
    let draft = match Draft::new(alloc) {
        Ok(draft) => draft,
        Err(_) => {
            return Ended {
                status: Status::NoMemory,
                store,
            };
        }
    };
    let mut store = store;
    let outcome = check_store(rt, alloc, &mut store, gate);
    let status = finish_check(draft, &outcome, out);
    Ended { status, store }
}

/// Does what a command says.
fn run_command<R: Threads + Wait + Sync, I: Source, S: Counting + Send, K: Sink, G: Gate + Sync>(
    rt: &R,
    alloc: Global,
    command: Command,
    draw: Draw,
    input: &mut I,
    store: S,
    gate: &G,
    out: &mut K,
) -> Ended<S>
    requires range { IsInRange command }
    requires good { S.tells ≡ true → IsGoodJournal (S.view store).seen }
    ensures ends { Ends command draw (I.at input.old) (I.at input.new) (S.view store)
        (S.view result.store) (K.at out.old) (K.at out.new) result.status }
    ensures bound { TakesAtMost most_input (I.at input.old) (I.at input.new) }
    ensures memory { command ≡ Command.Version → result.status ≢ Status.NoMemory }
{
    match command {
        Command::Play => run_input(rt, alloc, draw, input, store, gate, out),
        Command::Cells(words) => run_cells(rt, alloc, &words, draw, store, gate, out),
        Command::Grow(tasks) => run_grown(rt, alloc, tasks, draw, store, gate, out),
        Command::Check => run_check(rt, alloc, store, gate, out),
        Command::Help(topic) => Ended {
            status: say_help(alloc, topic, out),
            store,
        },
        Command::Version => Ended {
            status: say(out, version()),
            store,
        },
    }
}

/// Does what the words say: reads a script from the input, plays it over the store, and writes the report; or makes a script
/// that shows the numbers of a box of cells, plays it, and writes the report; or makes a script from a number, plays it, and
/// writes one line; or checks the store, and writes what came of that; or writes help or the version.
///
/// Where a script has no line of turns, its tasks are played at once, each in a thread of its own where one can be started,
/// and the gate is called before each step of theirs. It is called before each step of a check, too.
pub fn run<R: Threads + Wait + Sync, I: Source, S: Counting + Send, K: Sink, G: Gate + Sync>(
    rt: &R,
    alloc: Global,
    words: &[Word],
    draw: Draw,
    input: &mut I,
    store: S,
    gate: &G,
    out: &mut K,
) -> Ended<S>
    // Where the store tells its journal, that is legal and polite, as an empty one is.
    requires good { S.tells ≡ true → IsGoodJournal (S.view store).seen }

    // Where the words are no command, that is what the status tells, or that there was no memory to read them; and nothing has
    // been read, done or written.
    ensures usage { (fault : UsageFault) → command_of words.now ≡ Err fault
        → ((result.status ≡ Status.Usage fault) ⊎ (result.status ≡ Status.NoMemory))
        × (S.view result.store ≡ S.view store) × (I.at input.new ≡ I.at input.old)
        × (K.at out.new ≡ K.at out.old) }

    // Want of memory is told only where clap reads the words, or of the program's help: never of the version, nor where no word
    // or an unknown one comes first.
    ensures memory { result.status ≡ Status.NoMemory
        → IsTrue (asks_clap words.now) ⊎ (command_of words.now ≡ Ok (Command.Help Topic.Program)) }

    // Over an empty store that tells its journal, where ids are drawn by counting, each script that was played keeps what is
    // promised, with no premise: each branch's updates form one list, each commit is its session's solved changes on the entry
    // before it, each read sees its session's base under its own changes, each task ends as it tells, the refs that are told are
    // those that stand, and the status is that of the first cause that holds. Where memory was wanting, this is so, or no task was
    // played: nothing was written, and the repository was begun at most.
    ensures ours { (command : Command) → command_of words.now ≡ Ok command
        → KeepsOwn draw command
        (record { input = I.at input.old; store = S.view store; out = K.at out.old })
        (record { input = I.at input.new; store = S.view result.store; out = K.at out.new })
        result.status }

    // The same over each store that tells a sound journal, to which the clients' ids are new.
    ensures promise { (command : Command) → command_of words.now ≡ Ok command
        → KeepsSound draw command
        (record { input = I.at input.old; store = S.view store; out = K.at out.old })
        (record { input = I.at input.new; store = S.view result.store; out = K.at out.new })
        result.status }

    // What the collections of the script removed, no ref and no anchored session reached: of a run of the first kind, and of
    // one of the second.
    ensures spares_ours { (command : Command) → command_of words.now ≡ Ok command
        → SparesOwn draw command
        (record { input = I.at input.old; store = S.view store; out = K.at out.old })
        (record { input = I.at input.new; store = S.view result.store; out = K.at out.new })
        result.status }
    ensures spares { (command : Command) → command_of words.now ≡ Ok command
        → SparesSound draw command
        (record { input = I.at input.old; store = S.view store; out = K.at out.old })
        (record { input = I.at input.new; store = S.view result.store; out = K.at out.new })
        result.status }

    // Exactly what was done. The status tells of the input: a fault of the source only where it rose; the first line that is refused, exactly; and
    // then nothing has been done or written. Every other status but want of memory has read a script, played it over the
    // store, and written its report, whole, or less where the sink failed. Of want of memory it tells how far all this came.
    // `cells` and `grow` read no input, and play the text that is made from the words in its place; of that `grow` writes one line, whose
    // number of operations is that of the events by which the store's journal grew, where that is told. `check` reads no input and
    // begins no repository: as client 1 it reads all that the refs reach, and writes what is wrong, or how much it found; its status
    // is that of the first cause that holds. Help and the version are written, whole, or less where the sink failed, and nothing
    // else is read or done.
    ensures exact { (command : Command) → command_of words.now ≡ Ok command
        → Exact draw command
        (record { input = I.at input.old; store = S.view store; out = K.at out.old })
        (record { input = I.at input.new; store = S.view result.store; out = K.at out.new })
        result.status }

    // And what the next run may take for granted: over a store that tells a sound journal, to which the clients' ids were new, the
    // journal is sound again, whatever the status.
    ensures goes_on { (command : Command) → command_of words.now ≡ Ok command
        → GoesOn draw command
        (record { input = I.at input.old; store = S.view store; out = K.at out.old })
        (record { input = I.at input.new; store = S.view result.store; out = K.at out.new }) }

    // At most 1,048,577 bytes of the input are read, whatever the status.
    ensures bound { TakesAtMost most_input (I.at input.old) (I.at input.new) }

    // Where the source tells its bytes and the grammar refuses a line of them, the status is the first such line and its kind,
    // unless the source failed or memory was wanting. Where it refuses a line of what `cells` makes from its words, as where
    // they tell no box, the status is that line. Whether it refuses a line of what `grow` makes isn't said; if so, the same.
    ensures refused { (command : Command) → command_of words.now ≡ Ok command
        → TellsRefused command (I.at input.old) result.status }

    // A fault of the store or of the sink is told only where their counts of faults rose. So where the words are a command and
    // no count rises, the status is Ok, Refused, the line that is refused, or NoMemory.
    ensures store_fault { result.status ≡ Status.StoreFault
        → Rose (S.view store).faults (S.view result.store).faults }
    ensures write_fault { result.status ≡ Status.WriteFault
        → Rose (K.at out.old).faults (K.at out.new).faults }
    ensures calm { (command : Command) → command_of words.now ≡ Ok command
        → IsCalm (I.at input.old) (I.at input.new) (S.view store) (S.view result.store)
        (K.at out.old) (K.at out.new) → IsFaultless result.status }
{
    nothing_law();
    run_law();
    match read_words(alloc, words) {
        Ok(command) => run_command(rt, alloc, command, draw, input, store, gate, out),
        Err(fault) => Ended {
            status: Status::from(fault),
            store,
        },
    }
}
