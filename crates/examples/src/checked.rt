ghost use Rattle.examples.specs.Examples.{Examples};

// All worked examples, as one fact about the definitions that the contracts of the code use.
pub fn examples_hold()
    ensures { Examples }
{}
