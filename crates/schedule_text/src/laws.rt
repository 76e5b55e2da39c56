//! What holds of every line.

ghost use Rattle.std.specs.Prelude.{◌≡◌, ◌<◌, ◌^◌, ℕ, List};
ghost use Rattle.schedule_text.specs.declared.line.Line.{Line};
ghost use Rattle.schedule_text.specs.Lines.{IsLine};

/// A law: a line asks for one step.
pub fn a_line_asks_for_one_step()
    ensures { (workers : ℕ) (text : List ℕ) (a b : Line) → workers < 2 ^ 16
        → IsLine workers text a → IsLine workers text b → a ≡ b }
{}
