//! What the printed lines tell. A law's function does nothing: its contract is the law.
ghost use Rattle.report_text.specs.LastShown.{ShowsAll};
ghost use Rattle.report_text.specs.LiveJobs.{ShowsLiveJobs};

/// Who follows the lines of all versions knows the state of every node: a node without a line under
/// a version has the state that was last printed for it, and after the first version each has one.
pub fn versions_show_all_states()
    ensures { ShowsAll }
{}

/// The lines of the live jobs of a state, each with its stage and the count of its references, are
/// the lines that show the state's jobs.
pub fn live_jobs_have_their_lines()
    ensures { ShowsLiveJobs }
{}
