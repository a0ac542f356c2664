//! Runs of bytes.
ghost use Rattle.std.specs.Prelude.{◌≡◌, ℕ, ◌≤◌, Bool, true, length};
ghost use Rattle.std.specs.Iterator.{ActsAsAt};
ghost use Rattle.std.specs.List.{list_all};
ghost use Rattle.text.specs.Tokens.{front};

/// The longest front of a text whose bytes all pass a test.
pub(crate) fn front<P: FnMut(&u8) -> bool>(text: &[u8], passes: P) -> &[u8]
    requires { (state : P) (x : _) → P.pre state x }
    ensures longest { (p : ℕ → Bool) → ActsAsAt P.FnMut passes p → result.now ≡ front p text.now }
    ensures passing { (p : ℕ → Bool) → ActsAsAt P.FnMut passes p → list_all p result.now ≡ true }
    ensures within { length result.now ≤ length text.now }
{
    let n = text.iter().copied().take_while(passes).count();
    &text[..n]
}
