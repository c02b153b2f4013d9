ghost use Rattle.sb_form.specs.AsText.{FormsAreTexts};

/// Laws of the first form: every input of it is an exchange text, and no number is used twice in it.
pub fn forms_are_texts()
    ensures texts { FormsAreTexts }
{}
