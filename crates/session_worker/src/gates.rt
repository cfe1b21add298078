//! What a day on threads tells its watcher.
use recorded_days::Kind;
use std::marker::Sync;
use step_replay::Actor;

/// Where an actor stands in an action.
#[derive(Clone, Copy)]
pub enum Point {
    /// Before an action of this kind: the actor holds no lock.
    Before(Actor, Kind),
    /// Under the lock of the action, between a word's question and its exchange.
    Asked(Actor),
    /// After an action of this kind: the actor holds no lock.
    After(Actor, Kind),
}

/// Watches a day on threads, and may hold an actor for a while. It has no way to wait for good: a
/// hold is a counted number of looks.
pub trait Gate: Sync {
    /// An actor stands here.
    fn at(&self, point: Point);
}
