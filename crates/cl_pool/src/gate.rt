use cl_model::LoaderId;
use cl_names::Name;

/// What workers call at their marks, each from its own thread. A call may wait, and changes no answer.
pub trait Gate: Sync {
    /// A source is about to be read for a request.
    fn before_read(&self, q: u32, loader: LoaderId, name: &Name);

    /// The registry is about to be locked for a turn of a request.
    fn before_lock(&self, q: u32);

    /// A request has its answer, and the registry is free again.
    fn after_post(&self, q: u32);
}

/// Lets each worker go on at once.
#[derive(Clone, Copy, Debug)]
pub struct OpenGate;

impl Gate for OpenGate {
    fn before_read(&self, _q: u32, _loader: LoaderId, _name: &Name) {}

    fn before_lock(&self, _q: u32) {}

    fn after_post(&self, _q: u32) {}
}
