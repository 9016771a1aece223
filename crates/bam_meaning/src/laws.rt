ghost use Rattle.bam_meaning.specs.Finished.{EachRunFinishes, RunsFinishOnce};

/// Laws of every run under limits: it is over after at most one step more than it has left, and in one way.
pub fn limited_runs_finish()
    ensures finishes { EachRunFinishes }
    ensures once { RunsFinishOnce }
{}
