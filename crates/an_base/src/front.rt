ghost use Rattle.std.specs.Prelude.{◌≡◌, option_map};
ghost use Rattle.an_base.specs.Front.{after_front};

/// What a text goes on with after this front, where it begins with it.
pub fn after_front<'a>(front: &str, text: &'a str) -> Option<&'a str>
    ensures rest { option_map (λ rest. rest.now) result ≡ after_front front.now text.now }
{
    text.strip_prefix(front)
}
