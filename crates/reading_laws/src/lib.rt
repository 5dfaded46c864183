// The laws of the readings, in specs/. What a reader expects of the readings is promised here.
#![tactic(auto)]

ghost use Rattle.reading_laws.specs.Sentences.{Sentences};

pub fn sentences()
    ensures { Sentences }
{}
