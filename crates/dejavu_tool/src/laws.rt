//! What follows from the promises of the tool. Each function does nothing: its contract is the law.

ghost use Rattle.dejavu_tool.specs.Headline.{ReplayPrintsRecording};

pub use tool_stages::laws::{
    accepted_program_begins, accepted_runs_fit, first_values_of_statics_fit,
};

/// A replay prints what the recording of its log printed, where the program's text is the same.
pub fn replay_prints_recording()
    ensures { ReplayPrintsRecording }
{}
