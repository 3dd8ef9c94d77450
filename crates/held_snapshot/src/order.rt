ghost use Rattle.std.specs.Prelude.{◌≡◌, option_map};
ghost use Rattle.flat_tables.specs.Rows.{follows};

/// Whether a text may stand behind the last one, if there is one.
pub(crate) fn text_follows(last: Option<&str>, text: &str) -> bool
    ensures { result ≡ follows (option_map (λ x. x.now) last.entry) text.now }
{
    match last {
        None => true,
        Some(last) => last.cmp(text).is_lt(),
    }
}
