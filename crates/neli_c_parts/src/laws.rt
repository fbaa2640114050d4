//! Laws of what the calls say. The functions do nothing: their contracts are the laws.

ghost use Rattle.std.specs.Prelude.{◌≡◌, ◌∷◌, ℕ, ℤ, List, drop};
ghost use Rattle.neli_router.specs.declared.handle.HandleState.{HandleState as Handle};
ghost use Rattle.neli_c_parts.specs.Ahead.{IsLentAs, Message, PassesTimes, messages_of};
ghost use Rattle.neli_c_parts.specs.Codes.{item};
ghost use Rattle.neli_c_parts.specs.Lending.{LendsHandle};
ghost use Rattle.neli_c_parts.specs.Sessions.{pending};
ghost use Rattle.neli_c_parts.specs.declared.lending.NeliLent.{NeliLent as Stored};
ghost use Rattle.neli_c_parts.specs.declared.session.Session.{Session as State};

/// Several lent messages are those of single lends: each is the one that a single lend stores once those before it are
/// passed.
pub fn several_are_lent_alone()
    ensures { (n : ℕ) (h g : Handle) (s t : State) (later : List Message) (u : Message) (code : ℤ)
        (old new : Stored) → drop n (messages_of h (pending s h.number)) ≡ u ∷ later
        → PassesTimes n h g s t → LendsHandle code g t old new → (code ≡ item) × IsLentAs u new }
{}
