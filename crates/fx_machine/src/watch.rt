//! Observers of the steps of a run.
use crate::state::State;
use fx_base::Fault;
use fx_run_text::Step;

/// An observer of a run's states where it stops. It changes neither the run nor its result.
pub trait StepWatch: Drop {
    /// Observes that the step with this 1-based number is refused in this state, which is the one before it.
    fn on_refused_step(&mut self, state: &State<'_>, step: &Step, number: u64, fault: &Fault);

    /// Observes the state after the last step, when all steps were made.
    fn on_last_state(&mut self, state: &State<'_>);
}

/// An observer that does nothing.
#[derive(Clone, Copy, Debug, Drop)]
pub struct Unwatched;

impl StepWatch for Unwatched {
    fn on_refused_step(&mut self, _state: &State<'_>, _step: &Step, _number: u64, _fault: &Fault) {}

    fn on_last_state(&mut self, _state: &State<'_>) {}
}
