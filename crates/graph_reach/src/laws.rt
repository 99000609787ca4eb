ghost use Rattle.graph_reach.specs.Backwards.{ReachedBackwards};
ghost use Rattle.graph_reach.specs.Reach.{OverExcludesWithin, ReachedByPath};

/// Nodes that hold all that is reached are not within a limit that what is reached is over.
pub fn over_excludes_within()
    ensures { OverExcludesWithin }
{}

/// Reached is to be a start, or the end of a finite way along edges from a start.
pub fn reached_by_path()
    ensures { ReachedByPath }
{}

/// Among nodes that edges do not leave, what a node reaches can be asked against the edges.
pub fn reached_backwards()
    ensures { ReachedBackwards }
{}
