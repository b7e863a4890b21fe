ghost use Rattle.terms.specs.Laws.{QuestionsInOrder};

// A list of questions answers by the first no, and only where there is none by what stands there.
pub fn questions_in_order()
    ensures { QuestionsInOrder }
{}
