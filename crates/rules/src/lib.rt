// Worked examples of the book, each proved to come out as it is stated, and what holds of every book.
#![tactic(auto)]

ghost use Rattle.rules.specs.Cases.{TwelveCases};
ghost use Rattle.rules.specs.Choices.{ChoiceIsBest};
ghost use Rattle.rules.specs.Examples.{SetupsComeOut};
ghost use Rattle.rules.specs.Needs.{NeedIsFirst};

pub mod examples;

#[tactic(auto, using(crate::proofs::Cases::cases))]
pub fn cases_stand()
    ensures { TwelveCases }
{}

#[tactic(auto, using(crate::proofs::Choosing::choice_is_best))]
pub fn choices_stand()
    ensures { ChoiceIsBest }
{}

#[tactic(auto, using(crate::proofs::Noting::need_is_first))]
pub fn needs_stand()
    ensures { NeedIsFirst }
{}

#[tactic(auto, using(crate::proofs::Setups::setups))]
pub fn setups_stand()
    ensures { SetupsComeOut }
{}
