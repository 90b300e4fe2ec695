//! How a thread is started for a job, and what it returns.
ghost use Rattle.std.specs.Prelude.{◌≡◌, IfSome};

use crate::Gate;
use crate::wake_ups::WakeUps;
use std::snapshot::Snapshot;
use std::sync::Wait;
use std::thread::{Promise, PromisedHandle, Scope};

/// What all threads of a run share: the runtime, the wake-ups by which they wait for one another,
/// and the gate that they go through.
#[derive(Drop)]
pub struct Shared<'a, H, R> {
    pub rt: &'a R,
    pub wake_ups: &'a WakeUps,
    pub gate: &'a H,
}

/// A job for a thread. It is a trait, because a closure that moves a value whose type names a
/// lifetime loses its contract today: `start_job` is generic in the job.
pub trait ThreadJob<E> {
    /// It may start.
    ghost fresh: { Self → Type 0 };

    /// What it returns, if it does not stop early.
    ghost kept: { Self → E → Type 0 };

    /// An `E`, or None if it stops early.
    fn make<H: Gate, R: Wait>(self, shared: &Shared<'_, H, R>) -> Option<E>
        requires { fresh self }
        ensures { IfSome result (λ e. kept self e) };
}

/// The promise of a thread: the job that it was given.
#[derive(Drop)]
pub struct JobPromise<J>(pub Snapshot<J>);

impl<E, J: ThreadJob<E>> Promise<Option<E>> for JobPromise<J> {
    ghost kept_by = { λ p r. IfSome r (λ e. J.kept p.0.value e) };
}

/// Starts a thread for the job. None if the start was refused.
pub(crate) fn start_job<
    's,
    'e: 's,
    E: Drop + Send + 'e,
    J: ThreadJob<E> + Drop + Send + 'e,
    H: Gate + Sync,
    R: Wait + Sync,
>(
    scope: &'s Scope<'s, &'e ()>,
    shared: &'e Shared<'e, H, R>,
    job: J,
) -> Option<PromisedHandle<Option<E>, JobPromise<J>>>
    requires { J.fresh job }
    ensures { IfSome result (λ h. h.promise.0.value ≡ job) }
{
    let promise = JobPromise(Snapshot::of(&job));
    let started = scope.spawn_with(
        promise,
        move || -> Option<E>
            requires { J.fresh job }
            ensures { IfSome result (λ e. J.kept job e) }
        { job.make(shared) },
    );
    started.ok()
}
