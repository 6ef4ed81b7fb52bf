ghost use Rattle.std.specs.Prelude.{◌≡◌, ◌<◌, ◌^◌, IfSome};
ghost use Rattle.flow_core.specs.Net.{IsNet};
ghost use Rattle.flow_core.specs.Core.{IsSound};
ghost use Rattle.flow_core.specs.Events.{holding, is_enabled, after, IsHeld};

use crate::graph::Graph;
use crate::state::{Event, Hold, Phase, State};
use gold_field::Gold;

/// Brings one event in. Where it isn't enabled the answer is false, and the state stays as it was.
/// Takes no memory, and no pass over the graph but the look for the worker's strand.
pub fn step(graph: &Graph, state: &mut State, event: Event) -> bool
    requires { IsSound graph.now state.old }
    ensures enabled { result ≡ is_enabled graph.now state.old event }
    ensures after { state.new ≡ after graph.now state.old event }
    ensures sound { IsSound graph.now state.new }
{
    let _facts = graph.strands;
    match event {
        Event::Take { worker, strand } => take(graph, state, worker, strand),
        Event::Publish { worker, value } => publish(graph, state, worker, value),
        Event::Release { worker } => release(graph, state, worker),
        Event::Finish { worker } => finish(graph, state, worker),
        Event::Refuse { worker } => refuse(graph, state, worker),
    }
}

fn take(graph: &Graph, state: &mut State, worker: u32, strand: u32) -> bool
    requires { IsSound graph.now state.old }
    ensures enabled { result ≡ is_enabled graph.now state.old (Event.Take worker strand) }
    ensures after { state.new ≡ after graph.now state.old (Event.Take worker strand) }
{
    if strand >= graph.strands || state.holding(worker).is_some() {
        return false;
    }
    let at = strand as usize;
    let Phase::Waiting = state.phase.as_slice()[at] else {
        return false;
    };
    if state.missing.as_slice()[at] != 0 {
        return false;
    }
    state.phase.set(
        at,
        Phase::Held {
            worker,
            published: 0,
            released: 0,
        },
    );
    true
}

/// The strand that a worker holds, and what is known of it.
fn held(graph: &Graph, state: &State, worker: u32) -> Option<Hold>
    requires { IsSound graph.now state.now }
    ensures same { result ≡ holding state.now worker }
    ensures known { IfSome result (IsHeld graph.now state.now worker) }
    ensures net { IsNet graph.now }
    ensures cells { graph.now.cells < 2 ^ 32 }
    ensures strands { graph.now.strands < 2 ^ 32 }
{
    graph.facts();
    state.holding(worker)
}

fn publish(graph: &Graph, state: &mut State, worker: u32, value: Gold) -> bool
    requires { IsSound graph.now state.old }
    ensures enabled { result ≡ is_enabled graph.now state.old (Event.Publish worker value) }
    ensures after { state.new ≡ after graph.now state.old (Event.Publish worker value) }
{
    let Some(
        Hold {
            strand,
            published,
            released,
        },
    ) = held(graph, state, worker)
    else {
        return false;
    };
    let writes = graph.writes_of(strand);
    if published as usize >= writes.len() {
        return false;
    }
    let cell = writes[published as usize] as usize;
    state.cells.set(cell, Some(value));
    state.phase.set(
        strand as usize,
        Phase::Held {
            worker,
            published: published + 1,
            released,
        },
    );
    true
}

fn release(graph: &Graph, state: &mut State, worker: u32) -> bool
    requires { IsSound graph.now state.old }
    ensures enabled { result ≡ is_enabled graph.now state.old (Event.Release worker) }
    ensures after { state.new ≡ after graph.now state.old (Event.Release worker) }
{
    let Some(
        Hold {
            strand,
            published,
            released,
        },
    ) = held(graph, state, worker)
    else {
        return false;
    };
    let succs = graph.succs_of(strand);
    if published as usize != graph.writes_of(strand).len() || released as usize >= succs.len() {
        return false;
    }
    let next = succs[released as usize] as usize;
    let missing = state.missing.as_slice()[next];
    state.missing.set(next, missing - 1);
    state.phase.set(
        strand as usize,
        Phase::Held {
            worker,
            published,
            released: released + 1,
        },
    );
    true
}

fn finish(graph: &Graph, state: &mut State, worker: u32) -> bool
    requires { IsSound graph.now state.old }
    ensures enabled { result ≡ is_enabled graph.now state.old (Event.Finish worker) }
    ensures after { state.new ≡ after graph.now state.old (Event.Finish worker) }
{
    let Some(
        Hold {
            strand,
            published,
            released,
        },
    ) = held(graph, state, worker)
    else {
        return false;
    };
    if published as usize != graph.writes_of(strand).len()
        || released as usize != graph.succs_of(strand).len()
    {
        return false;
    }
    state.phase.set(strand as usize, Phase::Done);
    true
}

fn refuse(graph: &Graph, state: &mut State, worker: u32) -> bool
    requires { IsSound graph.now state.old }
    ensures enabled { result ≡ is_enabled graph.now state.old (Event.Refuse worker) }
    ensures after { state.new ≡ after graph.now state.old (Event.Refuse worker) }
{
    let Some(
        Hold {
            strand,
            published,
            released,
        },
    ) = held(graph, state, worker)
    else {
        return false;
    };
    if published != 0 || released != 0 {
        return false;
    }
    state.phase.set(strand as usize, Phase::Refused);
    state.least = Some(state.least.map_or(strand, |least| least.min(strand)));
    true
}
