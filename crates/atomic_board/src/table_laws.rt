// A law of the rule.
ghost use Rattle.std.specs.Prelude.{◌≡◌, ℕ, suc, ◌<◌, List, ◌∷◌, get_or, set};
ghost use mathlib.Core.Option.{some};
ghost use lib.ListN.{get_elem?};
ghost use Rattle.atomic_board.specs.declared.seat_data.Holding.{Holding};
ghost use Rattle.atomic_board.specs.declared.seat_data.Deed.{Deed};
ghost use Rattle.atomic_board.specs.declared.seat_data.Deed.TheVariants.{Commit};
ghost use Rattle.atomic_board.specs.declared.seat_data.SeatData.TheVariants.{Own};
ghost use Rattle.atomic_board.specs.Deeds.{size};
ghost use Rattle.atomic_board.specs.declared.seat_data.Origin.{Origin};
ghost use Rattle.atomic_board.specs.ShownState.{TableState, ShowsLawful, state_shown};

/// A table shows one state: its words, what lies at home and its seats fit no other.
pub fn one_state()
    ensures { (b : Origin) (s : TableState) (x : ShowsLawful b s) (y : ShowsLawful b s)
        → state_shown b s x ≡ state_shown b s y }
{}

/// A load in the place of a commit's step up keeps no rule: the own word would show one commit less than was made.
pub fn load_is_no_commit()
    ensures { (b : Origin) (s : TableState) (x : ShowsLawful b s) (m : ℕ) (at : ℕ) (q : Holding)
        (ds : List Deed) → get_elem? s.views (suc m) ≡ some (Own m q b ds) → m < size b → (i : ℕ)
        → ShowsLawful b (record {
          words = set s.words i (get_or s.words i 0);
          homes = s.homes;
          views = set s.views (suc m) (Own m q b (Commit at ∷ ds));
        }) → ⊥ }
{}
