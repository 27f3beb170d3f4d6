// The law of noted lines.
ghost use Rattle.list_reader.specs.Laws.{NotedAlone};

/// States that a noted line, directives aside, changes no entry and no notice of another line.
pub fn state()
    ensures { NotedAlone }
{}
