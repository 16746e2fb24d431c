//! Laws of the definitions, each the contract of a function that does nothing.

ghost use Rattle.std.specs.Prelude.{◌≡◌, ◌≢◌, ◌∷◌, ◌++◌, false, List, None, Contains};
ghost use Rattle.omf_place.specs.declared.names.Names.{Names};
ghost use Rattle.omf_search.specs.Laws.{IsNeeded, joined};
ghost use Rattle.omf_search.specs.Said.{Module, Wanted, is_defined};
ghost use Rattle.omf_search.specs.Search.{Choice, Chooses, Member, first_offering};
ghost use Rattle.omf_search.specs.Wanted.{wanted_names};

/// The members that modules take are the only such list.
pub fn one_choice()
    ensures { (names : Names) (members : List Member) (ms : List Module) (cs ds : List Choice) →
        Chooses names members ms cs → Chooses names members ms ds → cs ≡ ds }
{}

/// Each member that modules take is needed when it joins them, and none is taken twice; behind them nothing that is
/// wanted and not defined is offered by a member.
pub fn least_choice()
    ensures needed { (names : Names) (members : List Member) (ms : List Module) (before : List Choice) (c : Choice)
        (after : List Choice) → Chooses names members ms (before ++ c ∷ after) →
        IsNeeded names members (joined ms before) c }
    ensures once { (names : Names) (members : List Member) (ms : List Module) (before : List Choice) (c : Choice)
        (between : List Choice) (d : Choice) (after : List Choice) →
        Chooses names members ms ((before ++ c ∷ between) ++ d ∷ after) → c.taken ≢ d.taken }
    ensures closed { (names : Names) (members : List Member) (ms : List Module) (cs : List Choice) (w : Wanted) →
        Chooses names members ms cs → Contains (wanted_names names (joined ms cs)) w →
        is_defined names (joined ms cs) w.name ≡ false → first_offering names members w.name ≡ None }
{}
