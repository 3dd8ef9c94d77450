//! Texts cut at their slashes.

ghost use Rattle.std.specs.Prelude.{◌≡◌, ◌+◌, [], ◌∷◌, ◌++◌, length, IfSome, MatchOption, option_map};
ghost use Rattle.zarr_path.specs.Paths.{parts_of, before_slash};

/// The text before the first slash, and the text behind it.
pub fn cut_first(text: &str) -> Option<(&str, &str)>
    ensures parts { MatchOption result
        (parts_of text.now ≡ text.now ∷ [])
        (λ cut. parts_of text.now ≡ cut.0.now ∷ parts_of cut.1.now) }
    ensures length { IfSome result (λ cut. length cut.0.now + 1 + length cut.1.now
        ≡ length text.now) }
{
    text.split_once('/')
}

/// The text before the last slash, and the text behind it.
pub fn cut_last(text: &str) -> Option<(&str, &str)>
    ensures parts { MatchOption result
        (parts_of text.now ≡ text.now ∷ [])
        (λ cut. parts_of text.now ≡ parts_of cut.0.now ++ cut.1.now ∷ []) }
    ensures before { before_slash text.now ≡ option_map (λ cut. cut.0.now) result }
    ensures length { IfSome result (λ cut. length cut.0.now + 1 + length cut.1.now
        ≡ length text.now) }
{
    text.rsplit_once('/')
}
