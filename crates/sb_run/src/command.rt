// Reading the command.
ghost use Rattle.std.specs.Prelude.{◌≡◌, IfSome, IfNone, Some, None, map, string_bytes};
ghost use Rattle.sb_run.specs.Command.{command, is_value, is_generated, are_paths};

/// The paths that the words name.
#[derive(Clone, Copy)]
pub(crate) struct Command<'a> {
    pub model: &'a str,
    pub report: &'a str,
}

/// The command, where the words are `MODEL --report C`.
pub(crate) fn asked_by(words: &[String]) -> Option<Command<'_>>
    ensures some { IfSome result (λ asked. command (map string_bytes words.now)
        ≡ Some (record { model = asked.model.now; report = asked.report.now })) }
    ensures none { IfNone result (command (map string_bytes words.now) ≡ None) }
{
    let [model, option, report] = words else {
        return None;
    };
    let (model, report) = (model.as_str(), report.as_str());
    if option.as_str() == "--report" && are_paths(model, report) {
        Some(Command { model, report })
    } else {
        None
    }
}

fn are_paths(model: &str, report: &str) -> bool
    ensures { result ≡ are_paths model.now report.now }
{
    is_value(model) && is_value(report) && model != report && !is_generated(model)
}

fn is_value(word: &str) -> bool
    ensures { result ≡ is_value word.now }
{
    !word.is_empty() && !word.as_bytes().starts_with(b"-")
}

fn is_generated(word: &str) -> bool
    ensures { result ≡ is_generated word.now }
{
    word.as_bytes().starts_with(b"demo:")
}
