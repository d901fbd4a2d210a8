// Laws of least quantities.
ghost use Rattle.std.specs.Prelude.{◌≡◌, ℕ, List, None, Ok};
ghost use Rattle.gq_model.specs.machine.Scenario.{Scenario};
ghost use Rattle.gq_load.specs.Load.{loaded};
ghost use Rattle.gq_laws.specs.Sound_scenarios.{IsSound, IsWellFormed};
ghost use Rattle.gq_sizes.specs.Unsized_equality.{ScenariosAsOne};
ghost use Rattle.gq_sizes.specs.Least.{AreEnough, HasLeast, HasWholePages, IsAcceptedSized, NoneShort, sized};
ghost use Rattle.gq_sizes.specs.Endless.{HaveEnds, NoneEndless};
ghost use Rattle.gq_sizes.specs.Judged_scenario.{judged_without};
ghost use Rattle.gq_sizes.specs.Size.{refusal_without};

/// What `size` prints of a scenario is what trial would find. It does nothing.
///
/// `accepted`: of an accepted scenario, as the readers give them, no `open` is short, and none of the least capabilities is none. Its numbers are not less
/// than the least ones: of an interface the sums up to each level, of a node its own.
///
/// `sized`: a scenario that passes what is judged, of which no `open` is short and no interface needs capabilities without end, is accepted with the
/// least quantities in place of its own. It is then as the readers give them, but for a number that is too great for its key.
///
/// `short`, `judged`, `endless`: an `open` is short, a rule that quantities do not decide is broken, or one of the least capabilities is none. Then no
/// quantities in place of its own make a scenario accepted. The clauses state it the other way round: one that differs in quantities alone is accepted, so
/// none of these is the case.
///
/// `least`: the numbers of such an accepted scenario are not less than the least ones.
pub fn least_laws()
    ensures accepted { (s : Scenario) → IsSound s → HasWholePages s → HasLeast s }
    ensures sized { (s : Scenario) → IsWellFormed s → HaveEnds s → refusal_without s ≡ None → NoneShort s → IsAcceptedSized s }
    ensures short { (s t : Scenario) → ScenariosAsOne t s → IsSound t → NoneShort s }
    ensures judged { (s t : Scenario) → ScenariosAsOne t s → IsSound t → refusal_without s ≡ None }
    ensures endless { (s t : Scenario) → ScenariosAsOne t s → IsSound t → NoneEndless s }
    ensures least { (s t : Scenario) → ScenariosAsOne t s → IsSound t → HasWholePages t → AreEnough (sized s) t }
{}

/// The same of texts: `size` prints the text of each scenario that is judged (`judged_without`, the definition that it answers by). It does nothing.
///
/// `formed`, `passes`: a scenario that is judged is as the readers give scenarios, and passes what is judged.
///
/// `sized`: if no `open` of it is short and no interface needs capabilities without end, it is accepted with the least quantities, which are those that
/// `size` prints.
///
/// `judged`, `least`: a scenario that is accepted (`loaded`, the definition that `check` answers by) is judged, too. No `open` of it is short, none of the
/// least capabilities is none, and its numbers are not less than the least ones.
pub fn size_laws()
    ensures formed { (text : List ℕ) (s : Scenario) → judged_without text ≡ Ok s → IsWellFormed s }
    ensures passes { (text : List ℕ) (s : Scenario) → judged_without text ≡ Ok s → refusal_without s ≡ None }
    ensures sized { (text : List ℕ) (s : Scenario) → judged_without text ≡ Ok s → NoneShort s → HaveEnds s → IsAcceptedSized s }
    ensures judged { (text : List ℕ) (s : Scenario) → loaded text ≡ Ok s → judged_without text ≡ Ok s }
    ensures least { (text : List ℕ) (s : Scenario) → loaded text ≡ Ok s → HasLeast s }
{}
