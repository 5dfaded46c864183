// The laws of the readings of three channels, in specs/. What a reader expects of the readings is promised here.
#![tactic(auto)]

ghost use Rattle.three_laws.specs.ThreeSentences.{ThreeSentences};

pub fn three_sentences()
    ensures { ThreeSentences }
{}
