//! What holds of every line.

ghost use Rattle.std.specs.Prelude.{◌≡◌, ℕ, List};
ghost use Rattle.control_text.specs.declared.command.OperatorCommand.{OperatorCommand};
ghost use Rattle.control_text.specs.declared.answer.OperatorAnswer.{OperatorAnswer};
ghost use Rattle.control_text.specs.Answers.{AnswerIsInRange, IsOneLine, answer_text};
ghost use Rattle.control_text.specs.Commands.{AsksFor};

/// A law: a line asks for one command at most.
pub fn a_text_asks_for_one_command()
    ensures { (line : List ℕ) (a b : OperatorCommand) → AsksFor line a → AsksFor line b → a ≡ b }
{}

/// A law: the text of an answer is on one line, of printable ASCII.
pub fn an_answer_is_one_line()
    ensures { (answer : OperatorAnswer) → AnswerIsInRange answer → IsOneLine (answer_text answer) }
{}
