//! Laws of scripts, over the definitions only. The calls do nothing: their contracts are the laws.

ghost use Rattle.std.specs.Prelude.{◌≡◌, true, ℕ, List, Ok, Err};
ghost use Rattle.neli_program.specs.declared.entry.Entry.{Entry};
ghost use Rattle.neli_program.specs.Script.{AreGood, IsFirstBad, entries_of, lines_in};

/// If a script is read, all its lines are good.
pub fn has_good_lines()
    ensures { (text : List ℕ) (entries : List Entry) → entries_of text ≡ Ok entries
        → AreGood true (lines_in text) }
{}

/// If it is not, the refusal names the first line that is not good.
pub fn names_the_first_bad_line()
    ensures { (text : List ℕ) (k : ℕ) → entries_of text ≡ Err k → IsFirstBad (lines_in text) k }
{}
