//! The workers of a script's tasks.

ghost use Rattle.std.specs.Prelude.{◌≡◌, ◌<◌, ◌≤◌, ◌-◌, ◌^◌, ℕ, [], map, length, vec_capacity, IfOk};
ghost use Rattle.store_api.specs.Plays.{Ended};
ghost use Rattle.play_tasks.specs.Workers.{worker_rest};
ghost use Rattle.play_tasks.specs.Tasks.{HasEndedAt};
ghost use Rattle.play_run.specs.Order.{Begin};

use ice_ids::Draw;
use play_outcome::Outcome;
use play_script::Task;
use play_tasks::Worker;
use std::alloc::{AllocError, Global};

/// A worker for each task. The client of the task at place k, from 0, has the number k + 1, by which
/// it draws its ids.
pub fn workers_for<'a>(
    alloc: Global,
    tasks: &'a [Task],
    draw: Draw,
) -> Result<Vec<Worker<'a>>, AllocError>
    requires { length tasks.now < 2 ^ 32 - 1 }
    ensures { IfOk result (λ workers. Begin draw tasks.now (map worker_rest workers.items)) }
{
    let mut workers = Vec::new(alloc);
    for place in 0..tasks.len() {
        let client = place as u32 + 1;
        let worker = Worker::new(alloc, &tasks[place], draw.ids(client))?;
        workers.push(worker)?;
    }
    Ok(workers)
}

/// The outcomes of workers that have all ended, into a vector that has room for them. It takes no memory.
pub fn take_outcomes(workers: Vec<Worker<'_>>, outcomes: &mut Vec<Outcome>)
    requires none { outcomes.old.items ≡ [] }
    requires room { length workers.items ≤ vec_capacity outcomes.old }
    requires ended { (place : ℕ) → HasEndedAt place (map worker_rest workers.items) }
    ensures { map (λ o. Ended o) outcomes.new.items ≡ map worker_rest workers.entry.items }
{
    for worker in workers {
        outcomes.push_reserved(worker.into_outcome());
    }
}
