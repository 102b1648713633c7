// What the end of a group's table says of its keys and its parts.
ghost use Rattle.std.specs.Prelude.{◌≡◌, ℕ, List, Bool, Option};
ghost use mathlib.Core.Option.{some};
ghost use lib.ListN.{get_elem?};
ghost use Rattle.fs_model.specs.declared.model.Request.{Request};
ghost use Rattle.fs_model.specs.declared.model.Reply.{Reply};
ghost use Rattle.pm_region.specs.Cell.{Cell};
ghost use Rattle.group_laws.specs.Places.{owner};
ghost use Rattle.group_laws.specs.MemberViews.{view_of};
ghost use Rattle.licence.specs.Licence.{Licensed};
ghost use Rattle.engine_laws.specs.WorkerMoves.{Placed};
ghost use Rattle.engine_laws.specs.KeyLaw.{KeyIs, key_view, key_in};
ghost use Rattle.atomic_board.specs.declared.seat_data.Origin.{Origin};
ghost use Rattle.atomic_board.specs.declared.token.SeatToken.{SeatToken};
ghost use Rattle.atomic_board.specs.Deeds.{place_of};
ghost use Rattle.atomic_board.specs.ShownState.{state_shown};
ghost use Rattle.atomic_board.specs.MemberSeats.{view_at};
ghost use Rattle.atomic_board.specs.Tokens.{Ended};

/// Once a table is closed, each key is in the group's state as its owner's token had it, and each part is licensed by
/// the state as it was by the token's view.
pub fn every_close()
    ensures keys { (b : Origin) (ts : List SeatToken) (ws : List ℕ) (end : Ended b ts ws)
        (m : ℕ) (t : SeatToken) → get_elem? ts m ≡ some t
        → (start : Option (List ℕ)) (k : ℕ) (place : Option Placed) (stopped : Bool)
        (xs : List (Request × Reply)) → owner (place_of b) k ≡ m
        → KeyIs start (key_view (view_at t.own) k) place stopped xs
        → KeyIs start (key_in (state_shown b end.table end.shows) k) place stopped xs }
    ensures licensed { (b : Origin) (ts : List SeatToken) (ws : List ℕ) (end : Ended b ts ws)
        (m : ℕ) (t : SeatToken) → get_elem? ts m ≡ some t → (cells : ℕ → Cell)
        → Licensed (place_of b) m (view_at t.own) cells
        → Licensed (place_of b) m (view_of (state_shown b end.table end.shows) m) cells }
{}
