// Answers as words.
ghost use Rattle.std.specs.Prelude.{◌≡◌};
ghost use Rattle.printing.specs.Answers.{yes_or_no as word_of};

// The word of an answer.
pub(crate) fn yes_or_no(answer: bool) -> &'static str
    ensures { result.now ≡ word_of answer }
{
    if answer { "yes" } else { "no" }
}
