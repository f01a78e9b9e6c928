//! The keys of a form.
ghost use Rattle.std.specs.Prelude.{◌≡◌, ℕ, List, Bool, map};
ghost use Rattle.std.specs.Fn.{FnReturnsAt};
ghost use Rattle.std.specs.List.{list_any};
ghost use Rattle.mx_intake.specs.Keys.{is_key};

/// Whether one of the keys passes a test.
pub(crate) fn one_key<F: Fn(&str) -> bool>(keys: &[&str], test: F) -> bool
    requires { F.IsAlwaysCallable test }
    ensures { (passes : List ℕ → Bool)
        → ((key : List ℕ) (b : Bool) → FnReturnsAt F.Fn test key b → b ≡ passes key)
        → result ≡ list_any passes (map (λ k. k.now) keys.now) }
{
    for key in keys {
        if test(key) {
            return true;
        }
    }
    false
}

/// Whether a key is one of these.
pub(crate) fn is_one_of(keys: &[&str], key: &str) -> bool
    ensures { result ≡ is_key (map (λ k. k.now) keys.now) key.now }
{
    one_key(keys, |known| known == key)
}
