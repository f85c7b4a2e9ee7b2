// Worked examples with a key of seven bits, proved as one table.

ghost use Rattle.keybox.specs.Cases.{TheExamplesHold};

pub fn worked_examples()
    ensures { TheExamplesHold }
{}
