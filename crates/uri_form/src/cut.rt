// Texts that are cut at a mark.
ghost use Rattle.std.specs.Prelude.{◌≡◌, ◌<◌, ◌==◌, ◌++◌, ◌∷◌, [], length, IfSome, MatchOption};
ghost use Rattle.std.specs.List.{slice_split};

/// What stands before the first mark and after it, where there is one.
pub(crate) fn cut_first(text: &str, mark: char) -> Option<(&str, &str)>
    requires { mark < 128 }
    ensures parts { MatchOption result (slice_split (λ b. b == mark) text.now ≡ text.now ∷ [])
        (λ cut. slice_split (λ b. b == mark) text.now ≡ cut.0.now ∷ slice_split (λ b. b == mark) cut.1.now) }
    ensures shorter { IfSome result (λ cut. length cut.1.now < length text.now) }
{
    text.split_once(mark)
}

/// What stands before the last mark and after it, where there is one.
pub(crate) fn cut_last(text: &str, mark: char) -> Option<(&str, &str)>
    requires { mark < 128 }
    ensures parts { MatchOption result (slice_split (λ b. b == mark) text.now ≡ text.now ∷ [])
        (λ cut. slice_split (λ b. b == mark) text.now ≡ slice_split (λ b. b == mark) cut.0.now ++ cut.1.now ∷ []) }
    ensures shorter { IfSome result (λ cut. length cut.0.now < length text.now) }
{
    text.rsplit_once(mark)
}
