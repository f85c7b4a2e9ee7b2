// A worked example: a whole script and what is printed for it, as the definitions have it.

ghost use Rattle.script.specs.Example.{TheExampleHolds};

pub fn worked_example()
    ensures { TheExampleHolds }
{}
